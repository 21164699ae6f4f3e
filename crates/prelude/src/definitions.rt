// Refusals 2 and 4 to 7 of each definition in turn, and the sums over definitions that have none.
ghost use Rattle.std.specs.Prelude.{◌≡◌};
ghost use Rattle.prelude.specs.Answer.{answer_of_each, told};
ghost use Rattle.prelude.specs.Passes.{files_in};

use crate::cutting::Definitions;
use crate::{Refusal, Sums};

// The first definition's refusal that there is, or the sums of the definitions' counts.
pub fn check_each(definitions: Definitions) -> Result<Sums, Refusal>
    ensures { told result ≡ answer_of_each (files_in definitions.entry) }
{
    // The definitions so far are term files, and the sums are theirs.
    let mut sums = Sums {
        definitions: 0,
        nodes: 0,
        abstractions: 0,
        variables: 0,
        applications: 0,
    };
    for file in definitions {
        let counts = termfile::check(file)?;
        sums.definitions += 1;
        sums.nodes += counts.nodes;
        sums.abstractions += counts.abstractions;
        sums.variables += counts.variables;
        sums.applications += counts.applications;
    }
    Ok(sums)
}
