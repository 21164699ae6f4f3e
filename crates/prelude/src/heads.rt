// Refusals 18 and 19, which the head of each definition decides.
ghost use Rattle.std.specs.Prelude.{◌≡◌};
ghost use Rattle.std.proofs.Math.Option.{none};
ghost use Rattle.prelude.specs.Passes.{files_in};
ghost use Rattle.prelude.specs.Prelude.{each_refusal, all_abstractions, in_place};

use crate::cutting::Definitions;
use termfile::word;

// The tag of an abstraction.
const ABSTRACTION: u8 = 1;

// Whether every definition is an abstraction, where each is a term file: its first tag says so.
pub fn all_abstractions(definitions: Definitions) -> bool
    requires { each_refusal (files_in definitions) ≡ none }
    ensures { result ≡ all_abstractions (files_in definitions.entry) }
{
    // The definitions so far are abstractions.
    for file in definitions {
        if file[4] != ABSTRACTION {
            return false;
        }
    }
    true
}

// Whether the f field of every definition is its place.
pub fn all_in_place(definitions: Definitions) -> bool
    ensures { result ≡ in_place 0 (files_in definitions.entry) }
{
    // The definitions so far are in place.
    for (place, file) in definitions.enumerate() {
        if word(file[0], file[1]) != place {
            return false;
        }
    }
    true
}
