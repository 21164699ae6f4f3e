// A line for each file checked: its name and the answer.
use std::io;
use termfile::Counts;

// Checks the first `length` bytes as a file and writes the line.
pub fn line(out: &impl Print, name: &[u8], bytes: &[u8], length: usize) -> io::Result<()> {
    out.write_all(name)?;
    if length > bytes.len() {
        return Ok(());
    }
    answer(out, &bytes[..length])
}

fn answer(out: &impl Print, file: &[u8]) -> io::Result<()> {
    match termfile::check(file) {
        Ok(counts) => write_counts(out, counts)?,
        Err(refusal) => write_number(out, ": refused ", refusal.number())?,
    }
    out.print("\n")
}

fn write_counts(out: &impl Print, counts: Counts) -> io::Result<()> {
    write_number(out, ": accepted, f ", counts.free as u64)?;
    write_number(out, ", n ", counts.nodes as u64)?;
    write_number(out, ", abstractions ", counts.abstractions as u64)?;
    write_number(out, ", variables ", counts.variables as u64)?;
    write_number(out, ", applications ", counts.applications as u64)
}

fn write_number(out: &impl Print, before: &str, number: u64) -> io::Result<()> {
    out.print(before)?;
    out.print(number)
}
