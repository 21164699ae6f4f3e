// The lines of a report: how long they are, and putting them.
ghost use Rattle.std.specs.Prelude.{◌≡◌, List, ℕ, ◌^◌, ◌≤◌, ◌<◌, length, MatchOption};
ghost use Rattle.termfile.specs.File.{pairs};
ghost use Rattle.machine.specs.Answer.{output_limit, report as reported};
ghost use Rattle.evaluator.specs.Calling.{told_outcome, told_report};
ghost use Rattle.rendering.specs.Lines.{outcome_line, refused_line, shift_sum, count_lines, term_line, lines};
ghost use Rattle.rendering.specs.Promise.{longest_text};
ghost use Rattle.rendering.specs.Putting.{Room, Put};

use crate::digits::width;
use crate::nodes::{nodes_bytes, put_nodes};
use crate::words::Text;
use evaluator::{Outcome, Report};

// A report, and the sum of its shifting steps.
#[derive(Clone, Copy)]
pub struct Summed {
    report: Report,
    shifts: u64,
    ghost sum_is: { shifts ≡ shift_sum (told_report report) },
}

impl Summed {
    // A report with its sum, or nothing where the sum needs more than 64 bits.
    pub fn of(report: Report) -> Option<Summed>
        ensures { MatchOption result (2 ^ 64 ≤ shift_sum (told_report report)) (λ s. (s.report ≡ report) × (shift_sum (told_report report) < 2 ^ 64)) }
    {
        let leaves = report.leave_fun.checked_add(report.leave_inert)?;
        let shifts = report.enter.checked_add(leaves)?;
        Some(Summed { report, shifts })
    }
}

// How long the line of a refusal is.
pub fn refused_bytes(k: u64) -> usize
    ensures exact { result ≡ length (refused_line k) }
    ensures few { result ≤ 29 }
{
    b"refused \n".len() + width(k)
}

// How long the first line is.
fn outcome_bytes(outcome: Outcome) -> usize
    ensures exact { result ≡ length (outcome_line (told_outcome outcome)) }
    ensures few { result ≤ 29 }
{
    match outcome {
        Outcome::Normal(_) => b"normal\n".len(),
        Outcome::Spent => b"spent\n".len(),
        Outcome::Refused(why) => refused_bytes(why.number()),
    }
}

// How long the lines of the counts are.
fn counts_bytes(s: Summed) -> usize
    ensures exact { result ≡ length (count_lines (told_report s.report)) }
    ensures few { result ≤ 272 }
{
    let r = s.report;
    let words = b"beta \nsubst  of \nenter \nleave  \nshift  of \nstore   \n".len();
    let steps = width(r.beta)
        + width(r.subst)
        + width(r.enter)
        + width(r.leave_fun)
        + width(r.leave_inert);
    let allowed = width(r.subst_allowance) + width(s.shifts) + width(r.shift_allowance);
    let taken = width(r.nodes) + width(r.cells) + width(r.names);
    words + steps + allowed + taken
}

// How long the term line is, where there is one, whatever the nodes' tags are.
fn term_bytes(outcome: Outcome, args: &[u16]) -> usize
    requires { length args.now ≤ output_limit }
    ensures exact { (tags : List ℕ) → length tags ≡ length args.now → result ≡ length (term_line (told_outcome outcome) (pairs tags args.now)) }
    ensures few { result ≤ 114693 }
{
    match outcome {
        Outcome::Normal(_) => b"term\n".len() + nodes_bytes(args),
        Outcome::Spent | Outcome::Refused(_) => 0,
    }
}

// How long all lines of a report are.
pub fn report_bytes(s: Summed, args: &[u16]) -> usize
    requires { length args.now ≤ output_limit }
    ensures exact { (tags : List ℕ) → length tags ≡ length args.now → result ≡ length (lines (reported (told_report s.report)) (pairs tags args.now)) }
    ensures few { result ≤ longest_text }
{
    let outcome = s.report.outcome;
    outcome_bytes(outcome) + counts_bytes(s) + term_bytes(outcome, args)
}

// Puts the first line.
fn put_outcome(text: &mut Text, outcome: Outcome)
    requires { Room (outcome_line (told_outcome outcome)) text.old }
    ensures { Put (outcome_line (told_outcome outcome)) text.old text.new }
{
    match outcome {
        Outcome::Normal(_) => text.put_bytes(b"normal\n"),
        Outcome::Spent => text.put_bytes(b"spent\n"),
        Outcome::Refused(why) => text.put_count(b"refused", why.number()),
    }
}

// Puts the lines of the counts.
fn put_counts(text: &mut Text, s: Summed)
    requires { Room (count_lines (told_report s.report)) text.old }
    ensures { Put (count_lines (told_report s.report)) text.old text.new }
{
    let r = s.report;
    text.put_count(b"beta", r.beta);
    text.put_allowed(b"subst", r.subst, r.subst_allowance);
    text.put_count(b"enter", r.enter);
    text.put_leave(r.leave_fun, r.leave_inert);
    text.put_allowed(b"shift", s.shifts, r.shift_allowance);
    text.put_store(r.nodes, r.cells, r.names);
}

// Puts the term line, where there is one.
fn put_term(text: &mut Text, outcome: Outcome, tags: &[u8], args: &[u16])
    requires tags_len { length tags.now ≡ length args.now }
    requires room { Room (term_line (told_outcome outcome) (pairs tags.now args.now)) text.old }
    ensures { Put (term_line (told_outcome outcome) (pairs tags.now args.now)) text.old text.new }
{
    if let Outcome::Normal(_) = outcome {
        text.put_bytes(b"term");
        put_nodes(text, tags, args);
        text.put_byte(b'\n');
    }
}

// Puts all lines of a report.
pub fn put_report(text: &mut Text, s: Summed, tags: &[u8], args: &[u16])
    requires tags_len { length tags.now ≡ length args.now }
    requires room { Room (lines (reported (told_report s.report)) (pairs tags.now args.now)) text.old }
    ensures { Put (lines (reported (told_report s.report)) (pairs tags.now args.now)) text.old text.new }
{
    let outcome = s.report.outcome;
    put_outcome(text, outcome);
    put_counts(text, s);
    put_term(text, outcome, tags, args);
}
