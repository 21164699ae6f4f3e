// Runs `evaluator::evaluate` on term files whose answers follow from the paper, and writes two lines
// for each: for a call on stores filled with a number, and for the same call on what that left.
//
// Each case is a row of `stdin`: its name; after a colon the budget, the lengths of the nine arrays as
// `evaluate` takes them, and the number that fills them; after a semicolon the file. Where the last
// number is 65536 more, another run is made first, so that the stores hold what it left. The file is x
// and its bytes, or f and its nodes as the paper writes them, or a capital letter for a family and its
// size (`families::node_in`). `expected.py` works `stdout` out from the paper.
#![tactic(auto)]

mod build;
mod families;
mod kept;
mod report;
mod text;

use build::put_file;
use kept::{kept_words, stores_kept};
use report::write_line;
use std::io;
use text::{budget_of, file_of, fill_of, find, first_round, length_in};

fn main(rt: HostRuntime) -> io::Result<()> {
    let mut text = [0u8; 65536];
    let n = input::read_input(&mut rt.stdin(), &mut text)?;
    rows(&rt, &text[..n])
}

// Two lines for each row of a text.
fn rows(out: &impl Print, text: &[u8]) -> io::Result<()> {
    let mut at = 0;
    while at < text.len() {
        let end = find(text, at, b'\n');
        row(out, &text[at..end])?;
        at = end + 1;
    }
    Ok(())
}

fn row(out: &impl Print, text: &[u8]) -> io::Result<()> {
    let colon = find(text, 0, b':');
    let semicolon = find(text, colon, b';');
    case(
        out,
        &text[0..colon],
        &text[colon..semicolon],
        &text[semicolon..],
    )
}

// The other run is of (λx. x x) (λx. x x).
fn case(out: &impl Print, name: &[u8], numbers: &[u8], text: &[u8]) -> io::Result<()> {
    let mut other = [0u8; 31];
    put_file(b"; f0 a4 l0 a1 v0 v0 l1 a1 v1 v1", &mut other);
    let mut bytes = [0u8; 49160];
    let length = put_file(text, &mut bytes);
    cut(out, name, numbers, &other, &bytes, length)
}

// The first `length` bytes are the row's file.
fn cut<'a>(
    out: &impl Print,
    name: &[u8],
    numbers: &[u8],
    other: &'a [u8],
    bytes: &'a [u8],
    length: usize,
) -> io::Result<()> {
    if length > bytes.len() {
        return Ok(());
    }
    with_arrays(out, name, numbers, other, &bytes[0..length])
}

// Makes the arrays, longer than any that a row asks for, and the calls: where it is asked for, one that
// takes much of the stores; the row's; and the row's on what that left. Each call has an output of its
// own, so that what is told of it is what the call wrote.
fn with_arrays<'a>(
    out: &impl Print,
    name: &[u8],
    numbers: &[u8],
    other: &'a [u8],
    file: &'a [u8],
) -> io::Result<()> {
    let fill = fill_of(numbers);
    let word = fill.word;
    let byte = fill.byte;
    let mut tags = [byte; 33000];
    let mut args = [word; 33000];
    let mut codes = [word; 33000];
    let mut owns = [word; 33000];
    let mut nexts = [word; 33000];
    let mut places = [word; 33000];
    let mut renumber = [word; 33000];
    let mut round = first_round(fill.dirty);
    while round < 3 {
        let mut out_tags = [byte; 33000];
        let mut out_args = [word; 33000];
        let a = length_in(round, numbers, 2);
        let b = length_in(round, numbers, 3);
        let c = length_in(round, numbers, 4);
        let d = length_in(round, numbers, 5);
        let e = length_in(round, numbers, 6);
        let g = length_in(round, numbers, 7);
        let h = length_in(round, numbers, 8);
        let i = length_in(round, numbers, 9);
        let j = length_in(round, numbers, 10);
        let answer = evaluator::evaluate(
            machine::Machine::First,
            file_of(round, other, file),
            budget_of(round, numbers),
            &mut tags[..a],
            &mut args[..b],
            &mut codes[..c],
            &mut owns[..d],
            &mut nexts[..e],
            &mut places[..g],
            &mut renumber[..h],
            &mut out_tags[..i],
            &mut out_args[..j],
        );
        let stores = stores_kept(&tags, &args, &codes, &owns, &nexts, &places, word, byte);
        let same = kept_words(&renumber, 0, word);
        write_line(
            out, round, name, fill, answer, stores, same, &out_tags, &out_args,
        )?;
        round += 1;
    }
    Ok(())
}
