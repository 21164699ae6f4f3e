// Runs `termfile::check` on files whose answers follow from the paper, and writes a line for each.
//
// The small files stand in `stdin`, a row for each: the number that refuses it, or 0 where it is
// accepted; its name; and after a colon the file, either x and its bytes, or f and its nodes as the
// paper writes them, where beyond the paper's letters x stands for the tag 3 and z for the tag 255.
// The large files are made here. `expected.py` works `stdout` out from the paper.
#![tactic(auto)]

mod build;
mod report;

ghost use Rattle.std.specs.Prelude.{◌≤◌, length};

use build::{Nest, count_letters, put_hex, put_nest, put_node, put_term};
use std::io;
use std::io::Read;

fn main(rt: HostRuntime) -> io::Result<()> {
    let mut text = [0u8; 8192];
    let n = rt.stdin().read(&mut text)?;
    rows(&rt, &text[..n])?;
    middling(&rt)?;
    large(&rt)?;
    large_defects(&rt)
}

// A line for each row of a text.
fn rows(out: &impl Print, text: &[u8]) -> io::Result<()> {
    let mut at = 0;
    while at < text.len() {
        let end = find(text, at, b'\n');
        row(out, &text[at..end])?;
        at = end + 1;
    }
    Ok(())
}

// Where a byte first stands from `from` on, or the text's end.
fn find(text: &[u8], from: usize, byte: u8) -> usize
    requires { from ≤ length text.now }
    ensures { (from ≤ result) × (result ≤ length text.now) }
{
    let mut i = from;
    while i < text.len() {
        if text[i] == byte {
            return i;
        }
        i += 1;
    }
    i
}

fn row(out: &impl Print, text: &[u8]) -> io::Result<()> {
    let colon = find(text, 0, b':');
    file(out, &text[0..colon], &text[colon..])
}

// A file of at most 64 bytes.
fn file(out: &impl Print, name: &[u8], text: &[u8]) -> io::Result<()> {
    let mut bytes = [0u8; 64];
    if text.len() > 2 {
        if text[2] == b'x' {
            let length = put_hex(text, &mut bytes);
            return report::line(out, name, &bytes, length);
        }
    }
    let letters = count_letters(text);
    if 1 <= letters {
        if letters <= 21 {
            put_term(text, letters - 1, &mut bytes);
            return report::line(out, name, &bytes, 1 + 3 * letters);
        }
    }
    Ok(())
}

// A file of n nodes that nest, over f free names.
fn nest(out: &impl Print, name: &[u8], nest: Nest, f: usize, n: usize) -> io::Result<()> {
    let mut file = [0u8; 49160];
    put_nest(&mut file, nest, f, n);
    if n > 16385 {
        return Ok(());
    }
    report::line(out, name, &file, 4 + 3 * n)
}

// The first `length` bytes of the file of 16383 abstractions and a variable, with another node i.
fn changed(
    out: &impl Print,
    name: &[u8],
    i: usize,
    tag: u8,
    argument: usize,
    length: usize,
) -> io::Result<()> {
    let mut file = [0u8; 49160];
    put_nest(&mut file, Nest::Abstractions, 0, 16384);
    put_node(&mut file, 16384, i, tag, argument);
    report::line(out, name, &file, length)
}

// Files of about 64 and about 1,024 nodes, the most for which `check` takes its small and its middle array.
fn middling(out: &impl Print) -> io::Result<()> {
    nest(out, b"0 63 abstractions", Nest::Abstractions, 0, 64)?;
    nest(out, b"0 64 abstractions", Nest::Abstractions, 0, 65)?;
    nest(out, b"0 left parts, 64 nodes", Nest::Left, 0, 64)?;
    nest(out, b"0 left parts, 65 nodes", Nest::Left, 1, 65)?;
    nest(out, b"0 right parts, 64 nodes", Nest::Right, 0, 64)?;
    nest(out, b"0 right parts, 65 nodes", Nest::Right, 1, 65)?;
    nest(out, b"5 left parts, one missing of 65", Nest::Left, 1, 64)?;
    nest(out, b"5 right parts, one missing of 67", Nest::Right, 1, 66)?;
    nest(out, b"0 1023 abstractions", Nest::Abstractions, 0, 1024)?;
    nest(out, b"0 1024 abstractions", Nest::Abstractions, 0, 1025)?;
    nest(out, b"0 left parts, 1024 nodes", Nest::Left, 0, 1024)?;
    nest(out, b"0 left parts, 1025 nodes", Nest::Left, 1, 1025)?;
    nest(out, b"0 right parts, 1024 nodes", Nest::Right, 0, 1024)?;
    nest(out, b"0 right parts, 1025 nodes", Nest::Right, 1, 1025)?;
    nest(
        out,
        b"5 left parts, one missing of 1025",
        Nest::Left,
        1,
        1024,
    )?;
    nest(
        out,
        b"5 right parts, one missing of 1027",
        Nest::Right,
        1,
        1026,
    )?;
    Ok(())
}

// The largest files, one that is larger, and some with a defect.
fn large(out: &impl Print) -> io::Result<()> {
    nest(out, b"0 16383 abstractions", Nest::Abstractions, 0, 16384)?;
    nest(
        out,
        b"0 16383 abstractions, f 16384",
        Nest::Abstractions,
        16384,
        16384,
    )?;
    nest(out, b"0 left parts, 16383 nodes", Nest::Left, 1, 16383)?;
    nest(out, b"0 left parts, 16384 nodes", Nest::Left, 0, 16384)?;
    nest(out, b"0 right parts, 16383 nodes", Nest::Right, 1, 16383)?;
    nest(out, b"0 right parts, 16384 nodes", Nest::Right, 0, 16384)?;
    nest(out, b"2 16385 nodes", Nest::Abstractions, 1, 16385)?;
    nest(out, b"5 left parts, one missing", Nest::Left, 1, 16384)?;
    nest(out, b"5 right parts, one missing", Nest::Right, 1, 16384)?;
    Ok(())
}

// The file of 16383 abstractions with another node, or another length.
fn large_defects(out: &impl Print) -> io::Result<()> {
    changed(out, b"3 16384 nodes, a byte too few", 16383, 0, 0, 49155)?;
    changed(out, b"3 16384 nodes, a byte too many", 16383, 0, 0, 49157)?;
    changed(out, b"4 16384 nodes, the first tag 3", 0, 3, 0, 49156)?;
    changed(out, b"4 16384 nodes, the last tag 3", 16383, 3, 0, 49156)?;
    changed(out, b"5 16384 nodes, no body", 16383, 1, 16383, 49156)?;
    changed(
        out,
        b"6 16384 nodes, the first binder wrong",
        0,
        1,
        1,
        49156,
    )?;
    changed(
        out,
        b"6 16384 nodes, the last binder wrong",
        16382,
        1,
        16381,
        49156,
    )?;
    changed(
        out,
        b"7 16384 nodes, the last variable not bound",
        16383,
        0,
        16383,
        49156,
    )?;
    changed(
        out,
        b"0 16384 nodes, bound by the last binder",
        16383,
        0,
        16382,
        49156,
    )?;
    Ok(())
}
