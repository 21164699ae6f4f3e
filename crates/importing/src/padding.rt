// What may stand behind the term: fewer than eight bits, each zero.
ghost use Rattle.std.specs.Prelude.{◌≡◌};
ghost use Rattle.binary.specs.Answer.{padding};
ghost use Rattle.importing.specs.Ahead.{ahead};

use crate::cursor::Cursor;

// Whether all that is left is padding. At each turn the bits up to the cursor are zeros.
pub fn is_padding(bits: &[u8], start: Cursor) -> bool
    ensures { result ≡ padding (ahead bits.now start) }
{
    if start.at < bits.len() {
        return false;
    }
    let mut c = start;
    while let Some((one, next)) = c.next(bits) {
        if one {
            return false;
        }
        c = next;
    }
    true
}
