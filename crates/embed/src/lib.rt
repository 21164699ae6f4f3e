// The evaluator for programs in other languages: numbers and slices only.
//
// `glow_evaluate_with` evaluates one term file with a prelude of named definitions, and `glow_evaluate` one
// without, on the machine of a number: 0 the first, 1 on demand. They return a status: 0 a normal form is
// written, 1 the budget is spent, 2 the run is refused, 3 the term file or the prelude is refused, 4 the report
// array has fewer than 12 elements, 5 the number is no machine's.
// At 0 to 2 the report array begins with: the refusal's number or 0, the nodes written or 0, the steps
// beta, subst, enter, leave-fun and leave-inert, the nodes, cells and names taken, and the allowances for
// substs and shifts. At 3 only the number is written, and at 4 and 5 nothing is touched.
#![tactic(auto)]

ghost use Rattle.std.specs.Prelude.{◌≡◌, ◌≤◌, [], ◌∷◌, length};
ghost use Rattle.termfile.specs.Output.{overlay};
ghost use Rattle.machine.specs.Answer.{nodes_written, report as reported, given, file_given};
ghost use Rattle.evaluator.specs.Calling.{told_outcome, told_report, told};
ghost use Rattle.evaluator.specs.Promise.{memory};
ghost use Rattle.embed.specs.Embedding.{outcome_status, status_of, refusal_of, numbers_of, Embedded};

use evaluator::{Answer, Outcome, Report};
use machine::Machine;

// A run's refusal, or 0.
fn refusal_of(outcome: Outcome) -> u64
    ensures { result ≡ refusal_of (told_outcome outcome) }
{
    match outcome {
        Outcome::Refused(why) => why.number(),
        Outcome::Normal(_) => 0,
        Outcome::Spent => 0,
    }
}

// The nodes written, or 0.
fn written_of(outcome: Outcome) -> u64
    ensures { result ≡ nodes_written (told_outcome outcome) }
{
    match outcome {
        Outcome::Normal(n) => n as u64,
        Outcome::Spent => 0,
        Outcome::Refused(_) => 0,
    }
}

fn status_of(outcome: Outcome) -> u32
    ensures { result ≡ outcome_status (told_outcome outcome) }
{
    match outcome {
        Outcome::Normal(_) => 0,
        Outcome::Spent => 1,
        Outcome::Refused(_) => 2,
    }
}

// How many numbers a run's report has.
const NUMBERS: usize = 12;

// The numbers of a run's report.
fn numbers_of(r: Report) -> [u64; 12]
    ensures { result ≡ numbers_of (reported (told_report r)) }
{
    [
        refusal_of(r.outcome),
        written_of(r.outcome),
        r.beta,
        r.subst,
        r.enter,
        r.leave_fun,
        r.leave_inert,
        r.nodes,
        r.cells,
        r.names,
        r.subst_allowance,
        r.shift_allowance,
    ]
}

// Writes the number of a refused term file or prelude, alone, and returns the status of both.
fn tell_alone(number: u64, report: &mut [u64]) -> u32
    requires { 12 ≤ length report.old }
    ensures status { result ≡ 3 }
    ensures numbers { report.new ≡ overlay (number ∷ []) report.old }
{
    report[0] = number;
    3
}

// Writes what an answer tells, and returns its status.
fn tell(answer: Answer, report: &mut [u64]) -> u32
    requires { 12 ≤ length report.old }
    ensures status { result ≡ status_of (told answer) }
    ensures numbers { report.new ≡ overlay (numbers_of (told answer)) report.old }
{
    match answer {
        Answer::FileRefused(why) => tell_alone(why.number(), report),
        Answer::PreludeRefused(why) => tell_alone(why.number(), report),
        Answer::Ran(r) => {
            report[..NUMBERS].copy_from_slice(&numbers_of(r));
            status_of(r.outcome)
        }
    }
}

// Evaluates a term file with the definitions of a prelude, on the machine of this number.
pub fn glow_evaluate_with(
    machine: u32,
    prelude: &[u8],
    file: &[u8],
    budget: u32,
    tags: &mut [u8],
    args: &mut [u16],
    codes: &mut [u16],
    owns: &mut [u16],
    nexts: &mut [u16],
    places: &mut [u16],
    renumber: &mut [u16],
    out_tags: &mut [u8],
    out_args: &mut [u16],
    report: &mut [u64],
) -> u32
    ensures { Embedded machine (given prelude.now file.now) budget result
        (memory tags.old args.old codes.old owns.old nexts.old places.old renumber.old out_tags.old out_args.old)
        (memory tags.new args.new codes.new owns.new nexts.new places.new renumber.new out_tags.new out_args.new)
        report.old report.new }
{
    let Ok(chosen) = Machine::try_from(machine) else {
        return 5;
    };
    if report.len() < NUMBERS {
        return 4;
    }
    let answer = evaluator::evaluate_with(
        chosen, prelude, file, budget, tags, args, codes, owns, nexts, places, renumber, out_tags,
        out_args,
    );
    tell(answer, report)
}

// Evaluates a term file without definitions: as `glow_evaluate_with` with the empty prelude.
pub fn glow_evaluate(
    machine: u32,
    file: &[u8],
    budget: u32,
    tags: &mut [u8],
    args: &mut [u16],
    codes: &mut [u16],
    owns: &mut [u16],
    nexts: &mut [u16],
    places: &mut [u16],
    renumber: &mut [u16],
    out_tags: &mut [u8],
    out_args: &mut [u16],
    report: &mut [u64],
) -> u32
    ensures { Embedded machine (file_given file.now) budget result
        (memory tags.old args.old codes.old owns.old nexts.old places.old renumber.old out_tags.old out_args.old)
        (memory tags.new args.new codes.new owns.new nexts.new places.new renumber.new out_tags.new out_args.new)
        report.old report.new }
{
    let no_definitions = [0u8; 2];
    glow_evaluate_with(
        machine,
        &no_definitions,
        file,
        budget,
        tags,
        args,
        codes,
        owns,
        nexts,
        places,
        renumber,
        out_tags,
        out_args,
        report,
    )
}
