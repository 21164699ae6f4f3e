// The line of a call: the name, all that the answer has, and whether the arrays that must not change
// hold what they were filled with.
ghost use Rattle.std.specs.Prelude.{◌≤◌};

use crate::kept::{kept_bytes, kept_words};
use crate::text::Fill;
use evaluator::{Answer, Outcome, Report};
use std::io;

// Writes the line of a call, if it is the row's: told are whether the stores and the renumber store hold
// what they were filled with.
pub fn write_line(
    out: &impl Print,
    round: usize,
    name: &[u8],
    fill: Fill,
    answer: Answer,
    stores: bool,
    renumber: bool,
    out_tags: &[u8; 33000],
    out_args: &[u16; 33000],
) -> io::Result<()> {
    if round == 0 {
        return Ok(());
    }
    write_name(out, round, name)?;
    let left = write_answer(out, answer, out_tags, out_args)?;
    let from = left.output;
    let output = kept_bytes(out_tags, from, fill.byte) & kept_words(out_args, from, fill.word);
    write_kept(out, left, stores | fill.dirty, renumber, output)
}

fn write_name(out: &impl Print, round: usize, name: &[u8]) -> io::Result<()> {
    if round == 2 {
        out.print("again, ")?;
    }
    out.write_all(name)
}

// Writes what must be left as it was, and whether it is so.
fn write_kept(
    out: &impl Print,
    left: Left,
    stores: bool,
    renumber: bool,
    output: bool,
) -> io::Result<()> {
    let mut kept = output;
    out.print("; ")?;
    if left.stores {
        kept = kept & stores;
        out.print("stores, ")?;
    }
    if left.renumber {
        kept = kept & renumber;
        out.print("renumber, ")?;
    }
    if kept {
        out.print("output kept\n")
    } else {
        out.print("output CHANGED\n")
    }
}

// What must be left as it was: the node, cell and name stores; the renumber store; and the output from
// a place on.
#[derive(Clone, Copy)]
struct Left {
    stores: bool,
    renumber: bool,
    output: usize,
}

// A refusal that returns its number alone, and leaves every array as it was.
fn write_alone(out: &impl Print, number: u64) -> io::Result<Left> {
    write_number(out, ": refused ", number)?;
    Ok(Left {
        stores: true,
        renumber: true,
        output: 0,
    })
}

fn write_answer(
    out: &impl Print,
    answer: Answer,
    out_tags: &[u8; 33000],
    out_args: &[u16; 33000],
) -> io::Result<Left> {
    match answer {
        Answer::FileRefused(why) => write_alone(out, why.number()),
        Answer::PreludeRefused(why) => write_alone(out, why.number()),
        Answer::Ran(report) => write_report(out, report, out_tags, out_args),
    }
}

fn write_report(
    out: &impl Print,
    report: Report,
    out_tags: &[u8; 33000],
    out_args: &[u16; 33000],
) -> io::Result<Left> {
    let outcome = report.outcome;
    write_outcome(out, outcome)?;
    write_counts(out, report)?;
    let loading = report.nodes == 0;
    match outcome {
        Outcome::Normal(n) => {
            out.print(",")?;
            write_term(out, out_tags, out_args, n)?;
            Ok(Left {
                stores: loading,
                renumber: false,
                output: n,
            })
        }
        _ => Ok(Left {
            stores: loading,
            renumber: true,
            output: 0,
        }),
    }
}

fn write_counts(out: &impl Print, report: Report) -> io::Result<()> {
    write_number(out, ", beta ", report.beta)?;
    write_number(out, ", subst ", report.subst)?;
    write_number(out, ", enter ", report.enter)?;
    write_number(out, ", leave ", report.leave_fun)?;
    write_number(out, " ", report.leave_inert)?;
    write_number(out, ", store ", report.nodes)?;
    write_number(out, " ", report.cells)?;
    write_number(out, " ", report.names)?;
    write_number(out, ", of ", report.subst_allowance)?;
    write_number(out, " ", report.shift_allowance)
}

fn write_outcome(out: &impl Print, outcome: Outcome) -> io::Result<()> {
    match outcome {
        Outcome::Normal(n) => write_number(out, ": normal ", n as u64),
        Outcome::Spent => out.print(": spent"),
        Outcome::Refused(why) => write_number(out, ": refused ", why.number()),
    }
}

fn write_number(out: &impl Print, before: &str, number: u64) -> io::Result<()> {
    out.print(before)?;
    out.print(number)
}

// Writes a term of n nodes: the nodes as the paper writes them, or a digest of more than 70.
fn write_term(
    out: &impl Print,
    out_tags: &[u8; 33000],
    out_args: &[u16; 33000],
    n: usize,
) -> io::Result<()> {
    if n > 33000 {
        return Ok(());
    }
    if n > 70 {
        return write_digest(out, digest(out_tags, out_args, n));
    }
    let mut i = 0;
    while i < n {
        write_node(out, out_tags[i], out_args[i])?;
        i += 1;
    }
    Ok(())
}

fn write_digest(out: &impl Print, sum: u64) -> io::Result<()> {
    write_number(out, " digest ", sum)
}

fn write_node(out: &impl Print, tag: u8, argument: u16) -> io::Result<()> {
    let number = argument as u64;
    match tag {
        0 => write_number(out, " v", number),
        1 => write_number(out, " l", number),
        2 => write_number(out, " a", number),
        _ => write_number(out, " ?", number),
    }
}

// A number that depends on each of the first n nodes.
fn digest(out_tags: &[u8; 33000], out_args: &[u16; 33000], n: usize) -> u64
    requires { n ≤ 33000 }
{
    let mut sum: u64 = 0;
    let mut i = 0;
    while i < n {
        sum = with_node(sum, out_tags[i], out_args[i]);
        i += 1;
    }
    sum
}

fn with_node(sum: u64, tag: u8, argument: u16) -> u64 {
    (sum % 4294967296 * 4099 + tag as u64 * 65536 + argument as u64 + 1) % 4294967296
}
