// Export: the bits of the term of a file, in binary lambda calculus. `export` takes any bytes and an
// output of any length, and promises the answer that `exported` in binary/specs/Answer defines for them. It
// takes time linear in the nodes and the bits, and no function calls itself, however deep the term is.
// Refused are, in this order:
//
//   1 to 7 File    the file is not a term file
//   12 Output      the output is shorter than the packed bits
#![tactic(auto)]

mod measuring;
mod putting;
mod writing;

ghost use Rattle.std.specs.Prelude.{◌≡◌, ◌≤◌};
ghost use Rattle.std.proofs.Math.Option.{none};
ghost use Rattle.termfile.specs.File.{refusal, max_nodes};
ghost use Rattle.binary.specs.Answer.{exported, Converts};
ghost use Rattle.exporting.specs.Measuring.{Measurable};

use binary::Refusal;
use measuring::{Scratch, measure};
use termfile::{MAX_NODES, check};
use writing::write_bits;

// The most nodes for which small arrays are taken, and arrays of middle size. To zero large ones takes
// longer than all else that a small file asks for.
const SMALL: usize = 64;

const MIDDLE: usize = 1024;

// Writes the bits of a file with f free names and n nodes, at most N, where the output has room for them.
fn export_with<const N: usize>(
    file: &[u8],
    n: usize,
    f: usize,
    out: &mut [u8],
) -> Result<usize, Refusal>
    requires accepted { refusal file.now ≡ none }
    requires measurable { Measurable file.now n f }
    requires room { n ≤ N }
    requires few_nodes { N ≤ max_nodes }
    ensures { Converts (exported file.now) result out.old out.new }
{
    let mut scratch = Scratch {
        indices: [0u16; N],
        levels: [0u16; N],
        depths: [0u16; N],
    };
    let bits = measure(file, n, f, &mut scratch);
    let bytes = (bits + 7) / 8;
    if out.len() < bytes {
        return Err(Refusal::Output);
    }
    let end = 4 + n;
    write_bits(out, &file[4..end], &scratch.indices[..n]);
    Ok(bytes)
}

// Exports the term of a file: writes its bits at the front of `out`, the last byte filled with zeros,
// and answers how many bytes they take, or answers why not and writes nothing. Nothing past them
// changes.
//
// Ruled out, for instance: the bits of a byte put from the lowest on, one 1 too few for a free name,
// and bits written before they are known to fit (must-fail/).
pub fn export(file: &[u8], out: &mut [u8]) -> Result<usize, Refusal>
    ensures { Converts (exported file.now) result out.old out.new }
{
    let counts = check(file)?;
    let n = counts.nodes;
    if n <= SMALL {
        return export_with::<SMALL>(file, n, counts.free, out);
    }
    if n <= MIDDLE {
        return export_with::<MIDDLE>(file, n, counts.free, out);
    }
    export_with::<MAX_NODES>(file, n, counts.free, out)
}
