// The products of `product` for the tests, which are in another language. The library has none of these functions.
#![tactic(auto)]

ghost use Rattle.std.specs.Prelude.{◌≡◌, ◌+◌, ◌*◌};

pub fn product_of(a: u32, b: u32) -> u64
    ensures { result ≡ a * b }
{
    product::product(a, b)
}

pub fn allowance_of(b: u32, count: u32) -> u64
    ensures { result ≡ (1 + b) * count }
{
    product::allowance(b, count)
}
