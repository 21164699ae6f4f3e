// Numbers in decimal.
ghost use Rattle.std.specs.Prelude.{◌≡◌, ◌≤◌, length};
ghost use Rattle.rendering.specs.Decimal.{decimal};

// How many digits a number has.
pub fn width(n: u64) -> usize
    ensures exact { result ≡ length (decimal n) }
    ensures few { result ≤ 20 }
{
    match n.checked_ilog10() {
        Some(power) => power as usize + 1,
        None => 1,
    }
}

// Fills an array with the digits of a number, from the last to the first. It counts the places itself, since in a loop over
// `iter_mut().rev()` no invariant can name what the array holds. Std's Display writes the same digits through an `InlineText`, but takes
// four times as long.
pub fn fill_decimal(out: &mut [u8], n: u64)
    requires { length out.old ≡ length (decimal n) }
    ensures { out.new ≡ decimal n }
{
    let mut rest = n;
    for i in (1..out.len()).rev() {
        out[i] = b'0' + (rest % 10) as u8;
        rest /= 10;
    }
    out[0] = b'0' + rest as u8;
}
