// `product_test`'s two functions under their names in C, for the tests, which are in another language.
#![tactic(auto)]

ghost use Rattle.std.specs.Prelude.{◌≡◌, ◌+◌, ◌*◌};

#[unsafe(no_mangle)]
pub extern "C" fn product_of(a: u32, b: u32) -> u64
    ensures { result ≡ a * b }
{
    product_test::product_of(a, b)
}

#[unsafe(no_mangle)]
pub extern "C" fn allowance_of(b: u32, count: u32) -> u64
    ensures { result ≡ (1 + b) * count }
{
    product_test::allowance_of(b, count)
}
