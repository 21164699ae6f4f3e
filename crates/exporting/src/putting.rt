// Bits put into an array, one by one, from the highest of each byte on.
ghost use Rattle.std.specs.Prelude.{◌≡◌, Bool, List, [], ◌∷◌, ℕ, ◌+◌, ◌≤◌, length};
ghost use Rattle.termfile.specs.Output.{overlay};
ghost use Rattle.binary.specs.Bits.{index, pack};
ghost use Rattle.exporting.specs.Tokens.{token};
ghost use Rattle.exporting.specs.Putting.{Put, Room, Puts};

// Where bits are put: how many bytes are full, and of the byte that is begun its bits and how many
// they are. The functions below take the array and answer the next writer: as methods they would take the
// same.
#[derive(Clone, Copy)]
pub struct Writer {
    pub at: usize,
    pub byte: u8,
    pub count: u8,
}

// Puts one bit.
fn put_bit(out: &mut [u8], writer: Writer, bit: bool) -> Writer
    requires { Room writer 1 (length out.old) }
    ensures { Puts (bit ∷ []) writer out.old result out.new }
{
    let at = writer.at;
    let byte = (writer.byte << 1) + u8::from(bit);
    let count = writer.count + 1;
    if count < 8 {
        return Writer { at, byte, count };
    }
    out[at] = byte;
    Writer {
        at: at + 1,
        byte: 0,
        count: 0,
    }
}

// Puts the ones and the zero of an index. At each turn some of the ones are put.
fn put_index(out: &mut [u8], writer: Writer, k: u16) -> Writer
    requires { Room writer (k + 2) (length out.old) }
    ensures { Puts (index k) writer out.old result out.new }
{
    let ones = k as usize + 1;
    let mut p = writer;
    for _ in 0..ones {
        p = put_bit(out, p, true);
    }
    put_bit(out, p, false)
}

// Puts the bits of a node alone; k is the index of a variable.
pub fn put_node(out: &mut [u8], writer: Writer, tag: u8, k: u16) -> Writer
    requires { Room writer (length (token tag k)) (length out.old) }
    ensures { Puts (token tag k) writer out.old result out.new }
{
    match tag {
        0 => put_index(out, writer, k),
        1 => {
            let first = put_bit(out, writer, false);
            put_bit(out, first, false)
        }
        _ => {
            let first = put_bit(out, writer, false);
            put_bit(out, first, true)
        }
    }
}

// Fills up the last byte with zeros.
pub fn finish(out: &mut [u8], writer: Writer)
    requires { Room writer 0 (length out.old) }
    ensures { (bs : List Bool) (l₀ : List ℕ) → Put bs l₀ writer out.old → out.new ≡ overlay (pack bs) l₀ }
{
    let at = writer.at;
    let count = writer.count;
    if 0 < count {
        out[at] = writer.byte << (8 - count);
    }
}
