// What the program glow does: reads one term file from standard input, evaluates it, and writes the answer's lines to standard output.
//
// At most 49,157 bytes are read: one more than the largest term file has, so that a longer one is refused.
#![tactic(auto)]

mod telling;

ghost use Rattle.std.specs.Prelude.{◌≤◌, length};
ghost use Rattle.rendering.specs.Promise.{longest_text};
ghost use Rattle.command.specs.ExitStatus.{ExitStatus};

use input::read_input;
use std::fmt::InlineText;
use std::io;
use std::io::Read;
use telling::tell;

// The most bytes that are read, and room for the longest text.
const MOST_READ: usize = 49157;

const TEXT_ROOM: usize = 115000;

// The exit statuses: the answer is written out; the input cannot be read or the output not be written. They stay numbers, since
// `glow_command` answers an i32.
const DONE: i32 = 0;

const FAILED: i32 = 1;

// The system's words in an error's text, without its number behind them.
fn reason_in(text: &str) -> &str {
    match text.split_once(" (os error ") {
        Some((words, _)) => words,
        None => text,
    }
}

// Tells on standard error what cannot be done and the system's reason, and answers the status. Where the line cannot be written
// either, the status tells.
fn fail(rt: &impl Eprint, tried: &str, why: io::Error) -> i32
    ensures { ExitStatus result }
{
    let said = InlineText::<256>::of(why);
    let reason = reason_in(said.as_str());
    let _ = eprintln!(rt; "glow: cannot {tried}: {reason}");
    FAILED
}

// Reads the file into `buf`, has its lines put into `text`, and writes them at once. As `text` has room for every text, `tell`
// always writes one.
fn respond<R: Print + Eprint, I: Read>(
    rt: &R,
    input: &mut I,
    buf: &mut [u8],
    text: &mut [u8],
) -> i32
    requires { longest_text ≤ length text.old }
    ensures { ExitStatus result }
{
    let length = match read_input(input, buf) {
        Ok(length) => length,
        Err(why) => return fail(rt, "read the input", why),
    };
    let Ok(n) = tell(&buf[..length], text) else {
        return FAILED;
    };
    match rt.write_all(&text[..n]) {
        Ok(()) => DONE,
        Err(why) => fail(rt, "write the output", why),
    }
}

// The program: what it answers is the exit status.
pub fn glow_command<R: Input + Print + Eprint>(rt: &R) -> i32
    ensures { ExitStatus result }
{
    let mut file = [0u8; MOST_READ];
    let mut text = [0u8; TEXT_ROOM];
    respond(rt, &mut rt.reader(), &mut file, &mut text)
}
