// Refusal 6: whether the abstractions bind f, f + 1 and so on in prefix order.
ghost use Rattle.std.specs.Prelude.{◌≡◌, true};
ghost use Rattle.termfile.specs.Code.{numbered};
ghost use Rattle.termfile.specs.File.{holds};
ghost use Rattle.termfile.specs.Passes.{code_in};

use crate::parts::Parts;

// Whether the i-th abstraction, counted from 0, binds f + i. The nodes have to be a term.
pub fn in_order(parts: Parts) -> bool
    requires { holds (λ c. true) (code_in parts) ≡ true }
    ensures { result ≡ holds (numbered parts.entry.free) (code_in parts.entry) }
{
    // The nodes so far are in order, and `name` is what the next abstraction has to bind.
    let mut name = parts.free;
    for (i, &tag) in parts.tags.iter().enumerate() {
        if tag == 1 {
            if parts.argument(i) != name {
                return false;
            }
            name += 1;
        }
    }
    true
}
