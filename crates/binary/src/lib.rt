// Binary lambda calculus: what the bits of a term are, what import and export answer, and what the
// partners who exchange terms as bits may rely on. The definitions are in specs/; here are the answers.
#![tactic(auto)]

ghost use Rattle.std.specs.Prelude.{◌≡◌};
ghost use Rattle.binary.specs.Answer.{number_of};
ghost use Rattle.binary.specs.declared.Refusal.TheVariants.{File};

// Why nothing is written, by its number:
//
//   1 to 7  File     export: the file is refused; import: 2, the count of free names is above 16,384
//   12      Output   the output is too short
//   14      Ends     the bits end inside a term, or there are none
//   15      Padding  a bit behind the term is not zero, or there is a spare byte
//   16      Range    a node beyond the 16,384th, or a free index that is not below f
#[derive(Clone, Copy, Debug, PartialEq, Eq)]
pub enum Refusal {
    File(termfile::Refusal),
    Output,
    Ends,
    Padding,
    Range,
}

impl Refusal {
    // The number of a refusal. Ruled out, for instance: 16 for bits that end inside a term, and 3 for each
    // refusal of a file (must-fail/ends_is_sixteen.edit, file_is_three.edit).
    pub fn number(self) -> u64
        ensures { result ≡ number_of self }
    {
        match self {
            Refusal::File(file) => file.number(),
            Refusal::Output => 12,
            Refusal::Ends => 14,
            Refusal::Padding => 15,
            Refusal::Range => 16,
        }
    }
}

// A file that export refuses. Ruled out, for instance: an output that is too short
// (must-fail/file_as_output.edit).
impl From<termfile::Refusal> for Refusal {
    ghost from_gives = { λ why r. r ≡ File why };

    fn from(why: termfile::Refusal) -> Refusal {
        Refusal::File(why)
    }
}
