// Import and export of binary lambda calculus for programs in other languages.
//
// `glow_import` makes a term file from bits, and `glow_export` bits from a term file. Each returns a
// status: 0 the result is written at the front of `out`, 3 it is refused and `out` is as it was, 4 the
// report array has fewer than 2 elements, and nothing is touched. The report array then begins with the
// refusal's number or 0, and the bytes written or 0.
#![tactic(auto)]

ghost use Rattle.std.specs.Prelude.{◌≡◌, ◌≤◌, length};
ghost use Rattle.termfile.specs.Output.{overlay};
ghost use Rattle.binary.specs.Answer.{imported, exported, told};
ghost use Rattle.exchange.specs.Exchange.{exchange_status, exchange_numbers, Exchanged};

use binary::Refusal;

// Writes the numbers of an answer, and answers its status.
fn write_answer(answer: Result<usize, Refusal>, report: &mut [u64]) -> u32
    requires { 2 ≤ length report.old }
    ensures status { result ≡ exchange_status (told answer) }
    ensures numbers { report.new ≡ overlay (exchange_numbers (told answer)) report.old }
{
    match answer {
        Ok(n) => {
            report[0] = 0;
            report[1] = n as u64;
            0
        }
        Err(why) => {
            report[0] = why.number();
            report[1] = 0;
            3
        }
    }
}

// Makes a term file from bits. `glow_export` differs in what it is given and what it calls: one function
// for both would take a closure that is longer than what they share.
pub fn glow_import(bits: &[u8], f: u32, out: &mut [u8], report: &mut [u64]) -> u32
    ensures { Exchanged (imported f bits.now) result out.old out.new report.old report.new }
{
    if report.len() < 2 {
        return 4;
    }
    let answer = importing::import(bits, f as usize, out);
    write_answer(answer, report)
}

// Makes bits from a term file.
pub fn glow_export(file: &[u8], out: &mut [u8], report: &mut [u64]) -> u32
    ensures { Exchanged (exported file.now) result out.old out.new report.old report.new }
{
    if report.len() < 2 {
        return 4;
    }
    let answer = exporting::export(file, out);
    write_answer(answer, report)
}
