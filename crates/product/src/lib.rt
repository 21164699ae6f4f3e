// Products of 32-bit numbers, for machines that have no wide multiply (02, request 4). Both factors are cut
// into pieces of 16 bits, and the products of the pieces are shifted into place and added. No product in this
// crate has an operand or a result wider than 32 bits.
#![tactic(auto)]

ghost use Rattle.std.specs.Prelude.{◌+◌, ◌*◌, ◌≡◌};

// The product of a piece and a 32-bit number. A wrong answer that the contract rules out, tried in must-fail/:
// what the upper piece gives is shifted by 15 bits.
fn row(piece: u16, b: u32) -> u64
    ensures { result ≡ piece * b }
{
    let p = piece as u32;
    let low = (b % 65536) * p;
    let high = (b >> 16) * p;
    (low as u64) + ((high as u64) << 16)
}

// The product of two 32-bit numbers. Wrong answers that the contract rules out, each tried in must-fail/: one
// without its upper half, and one without the carry into that half.
pub fn product(a: u32, b: u32) -> u64
    ensures { result ≡ a * b }
{
    let low = row((a % 65536) as u16, b);
    let high = row((a >> 16) as u16, b);
    low + (high << 16)
}

// The product of 1 + b, which may have 33 bits, and a count: with b the beta steps made, an allowance of paper
// 01. Wrong answers that the contract rules out, each tried in must-fail/: b times the count, and b times one
// more than the count.
pub fn allowance(b: u32, count: u32) -> u64
    ensures { result ≡ (1 + b) * count }
{
    product(b, count) + (count as u64)
}
