// The library for other languages: import and export of binary lambda calculus, `exchange`'s two calls under
// their names in C.
//
// Each takes a slice as a pointer and a length, and returns the status that `exchange` does: see there what the
// statuses and the numbers in the report array are, and `embed/glow.h` for what C passes.
#![tactic(auto)]

ghost use Rattle.binary.specs.Answer.{imported, exported};
ghost use Rattle.exchange.specs.Exchange.{Exchanged};

// Makes a term file from bits.
#[unsafe(no_mangle)]
pub extern "C" fn glow_import(bits: &[u8], f: u32, out: &mut [u8], report: &mut [u64]) -> u32
    ensures { Exchanged (imported f bits.now) result out.old out.new report.old report.new }
{
    exchange::glow_import(bits, f, out, report)
}

// Makes bits from a term file.
#[unsafe(no_mangle)]
pub extern "C" fn glow_export(file: &[u8], out: &mut [u8], report: &mut [u64]) -> u32
    ensures { Exchanged (exported file.now) result out.old out.new report.old report.new }
{
    exchange::glow_export(file, out, report)
}
