// The prelude: whether a byte string is one, for a term with a given count of free names. A prelude is a
// 16-bit count of definitions and then as many term files. `check` takes any byte string and any count,
// and promises the sums over the definitions, or the first refusal that is met. It writes to nothing that
// is lent to it, and takes time linear in the prelude. Refused are, each line tested over all definitions
// before the next:
//
//   17 Cut                    more definitions than free names, or bytes left over or missing
//   2, 4 to 7 Definition      a definition that is not a term file; the first such tells its refusal
//   18 NotAbstraction         a definition that is not an abstraction
//   19 Place                  a definition whose f field is not its place
#![tactic(auto)]

mod cutting;
mod definitions;
mod heads;

ghost use Rattle.std.specs.Prelude.{◌≡◌};
ghost use Rattle.prelude.specs.Answer.{answer, told, number};
ghost use Rattle.prelude.specs.declared.Refusal.TheVariants.{Definition};

use cutting::Definitions;
use definitions::check_each;
use heads::{all_abstractions, all_in_place};

// Why a byte string is not a prelude, in the order in which the tests are made.
#[derive(Clone, Copy, Debug, PartialEq, Eq)]
pub enum Refusal {
    Cut,
    Definition(termfile::Refusal),
    NotAbstraction,
    Place,
}

// What is told of an accepted prelude: how many definitions it has, and the sums of their counts.
#[derive(Clone, Copy, Debug, PartialEq, Eq)]
pub struct Sums {
    pub definitions: usize,
    pub nodes: usize,
    pub abstractions: usize,
    pub variables: usize,
    pub applications: usize,
}

impl Refusal {
    // The number of a refusal; a definition's has its own.
    pub fn number(self) -> u64
        ensures { result ≡ number self }
    {
        match self {
            Refusal::Cut => 17,
            Refusal::Definition(why) => why.number(),
            Refusal::NotAbstraction => 18,
            Refusal::Place => 19,
        }
    }
}

impl From<termfile::Refusal> for Refusal {
    ghost from_gives = { λ why e. e ≡ Definition why };

    fn from(file: termfile::Refusal) -> Refusal {
        Refusal::Definition(file)
    }
}

// Whether a byte string is a prelude for a term with `free` free names: the sums over its definitions,
// or the first refusal that it meets. The answer is an equation with its definition, for every byte
// string and every count.
//
// Ruled out, for instance: more definitions than the term has free names, a definition that may use
// its own name, and 19 for a prelude in which a later definition is not an abstraction, which is 18
// (must-fail/).
pub fn check(prelude: &[u8], free: usize) -> Result<Sums, Refusal>
    ensures { told result ≡ answer free prelude.now }
{
    let Some(definitions) = Definitions::of(prelude, free) else {
        return Err(Refusal::Cut);
    };
    let sums = check_each(definitions)?;
    if !all_abstractions(definitions) {
        return Err(Refusal::NotAbstraction);
    }
    if !all_in_place(definitions) {
        return Err(Refusal::Place);
    }
    Ok(sums)
}
