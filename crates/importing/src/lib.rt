// Import: the file of a term whose bits are given, in binary lambda calculus. `import` takes any
// bytes, any count of free names and an output of any length, and promises the answer that `imported`
// in binary/specs/Answer defines for them. It takes time linear in the bits and the nodes, and no
// function calls itself, however deep the term is. Refused are, in this order:
//
//   2 File(Limits)   more than 16,384 free names
//   14 Ends          the bits end inside a term, or there are none   } whichever comes first in the
//   16 Range         a node beyond the 16,384th, or a free index     } bits: 16 is known at a node's
//                    that is not below f                             } last bit
//   15 Padding       a bit behind the term is not zero, or there is a spare byte
//   12 Output        the output is shorter than the file
#![tactic(auto)]

mod cursor;
mod node;
mod padding;
mod placing;
mod scanning;
mod writing;

ghost use Rattle.std.specs.Prelude.{◌≤◌, length};
ghost use Rattle.termfile.specs.File.{max_free, max_nodes};
ghost use Rattle.binary.specs.Answer.{imported, Converts};
ghost use Rattle.importing.specs.Scanning.{Roomy};

use binary::Refusal;
use padding::is_padding;
use placing::Scratch;
use scanning::scan;
use termfile::{MAX_FREE, MAX_NODES};
use writing::write_file;

// The most nodes for which a small array is taken, and one of middle size. A node takes at least two
// bits, so that bits of at most SMALL / 4 bytes have at most SMALL nodes. To zero large arrays takes
// longer than all else that a small term asks for.
const SMALL: usize = 64;

const MIDDLE: usize = 1024;

// Imports bits of at most N nodes, and of at most as many free names as a file may have. The bound on f
// stands in three contracts: a type for it would be made here and be taken apart again at each use.
fn import_with<const N: usize>(bits: &[u8], f: usize, out: &mut [u8]) -> Result<usize, Refusal>
    requires few_free { f ≤ max_free }
    requires few_nodes { N ≤ max_nodes }
    requires roomy { Roomy (length bits.now) N }
    ensures { Converts (imported f bits.now) result out.old out.new }
{
    let mut scratch = Scratch {
        tags: [0u8; N],
        args: [0u16; N],
        names: [0u16; N],
        apps: [0u16; N],
    };
    let (n, rest) = scan(bits, f, &mut scratch)?;
    if !is_padding(bits, rest) {
        return Err(Refusal::Padding);
    }
    // In 32 bits: machines without a wide multiply have no product wider than that, but by a power of two.
    let bytes = (4 + 3 * (n as u32)) as usize;
    if out.len() < bytes {
        return Err(Refusal::Output);
    }
    write_file(out, f, &scratch.tags[..n], &scratch.args[..n]);
    Ok(bytes)
}

// Imports the bits of a term with f free names: writes its file at the front of `out` and answers
// how many bytes it has, or answers why not and writes nothing. Nothing past the file changes.
//
// Ruled out, for instance: a bit behind the term that is not looked at, the output's length looked at
// before the padding, a node limit off by one, and a file written before its length is known to fit
// (must-fail/).
pub fn import(bits: &[u8], f: usize, out: &mut [u8]) -> Result<usize, Refusal>
    ensures { Converts (imported f bits.now) result out.old out.new }
{
    if f > MAX_FREE {
        return Err(Refusal::File(termfile::Refusal::Limits));
    }
    if bits.len() <= SMALL / 4 {
        return import_with::<SMALL>(bits, f, out);
    }
    if bits.len() <= MIDDLE / 4 {
        return import_with::<MIDDLE>(bits, f, out);
    }
    import_with::<MAX_NODES>(bits, f, out)
}
