// The text of an answer: the lines that tell how a call of the evaluator ended.
//
// `render` writes them at the front of an array that is lent. It counts their bytes first: where the array
// is too short it says so and writes nothing; and so it does where the answer's nodes are not in these output
// arrays or are more than 16,384, or its sum of shifting steps needs more than 64 bits, as no call of
// the evaluator gives such an answer.
#![tactic(auto)]

mod digits;
mod nodes;
mod report;
mod words;

ghost use Rattle.std.specs.Prelude.{◌≡◌, List, ℕ};
ghost use Rattle.machine.specs.Answer.{nodes_written, number_alone, report as reported};
ghost use Rattle.evaluator.specs.Calling.{told, told_outcome, told_report};
ghost use Rattle.rendering.specs.Promise.{Renders};

use evaluator::{Answer, Outcome, Report};
use report::{Summed, put_report, refused_bytes, report_bytes};
use words::Text;

// Why nothing is written: the array is too short for the text, or no call gives the answer.
#[derive(Clone, Copy, Debug, PartialEq, Eq)]
pub enum Unrendered {
    TooShort,
    NoAnswer,
}

// The most nodes that an answer has.
const MOST_NODES: usize = 16384;

// The nodes written, or 0.
fn nodes_written(outcome: Outcome) -> usize
    ensures { result ≡ nodes_written (told_outcome outcome) }
{
    match outcome {
        Outcome::Normal(n) => n,
        Outcome::Spent | Outcome::Refused(_) => 0,
    }
}

// Renders the number of a refused file or prelude.
fn render_number(k: u64, out: &mut [u8]) -> Result<usize, Unrendered>
    ensures { (ts ms : List ℕ) → Renders (number_alone k) ts ms result out.old out.new }
{
    let bytes = refused_bytes(k);
    if out.len() < bytes {
        return Err(Unrendered::TooShort);
    }
    Text::new(out).put_count(b"refused", k);
    Ok(bytes)
}

// Renders the report of a run.
fn render_report(r: Report, tags: &[u8], args: &[u16], out: &mut [u8]) -> Result<usize, Unrendered>
    ensures { Renders (reported (told_report r)) tags.now args.now result out.old out.new }
{
    let n = nodes_written(r.outcome);
    if n > MOST_NODES.min(tags.len()).min(args.len()) {
        return Err(Unrendered::NoAnswer);
    }
    let summed = Summed::of(r).ok_or(Unrendered::NoAnswer)?;
    let (tags, args) = (&tags[..n], &args[..n]);
    let bytes = report_bytes(summed, args);
    if out.len() < bytes {
        return Err(Unrendered::TooShort);
    }
    put_report(&mut Text::new(out), summed, tags, args);
    Ok(bytes)
}

// Renders an answer of the evaluator into `out`. The written nodes stand at the front of `tags` and `args`, the
// output arrays of the call. Wrong answers that the contract rules out, each tried in must-fail/: a text in
// an array that is one byte too short, leave-inert where leave-fun belongs, and the letter of an abstraction
// for an application.
pub fn render(
    answer: Answer,
    tags: &[u8],
    args: &[u16],
    out: &mut [u8],
) -> Result<usize, Unrendered>
    ensures { Renders (told answer) tags.now args.now result out.old out.new }
{
    match answer {
        Answer::FileRefused(why) => render_number(why.number(), out),
        Answer::PreludeRefused(why) => render_number(why.number(), out),
        Answer::Ran(report) => render_report(report, tags, args, out),
    }
}
