// The pass that puts the bits of a term.
ghost use Rattle.std.specs.Prelude.{◌≡◌, ◌*◌, ◌≤◌, length};
ghost use Rattle.termfile.specs.Output.{overlay};
ghost use Rattle.binary.specs.Bits.{pack};
ghost use Rattle.exporting.specs.Tokens.{tokens};

use crate::putting::{Writer, finish, put_node};

// Writes the bits of nodes with these tags, whose variables have these indices. At each turn the
// bits of the first i nodes are put.
pub fn write_bits(out: &mut [u8], tags: &[u8], indices: &[u16])
    requires same_length { length tags.now ≡ length indices.now }
    requires room { length (tokens tags.now indices.now) ≤ 8 * length out.old }
    ensures { out.new ≡ overlay (pack (tokens tags.now indices.now)) out.old }
{
    let mut writer = Writer {
        at: 0,
        byte: 0,
        count: 0,
    };
    for (i, tag) in tags.iter().enumerate() {
        writer = put_node(out, writer, *tag, indices[i]);
    }
    finish(out, writer);
}
