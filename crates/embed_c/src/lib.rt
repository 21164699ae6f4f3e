// The library for other languages: `embed`'s two calls under their names in C.
//
// Each takes a slice as a pointer and a length, and returns the status that `embed` does: see there what the
// statuses and the numbers in the report array are, and `embed/glow.h` for what C passes.
#![tactic(auto)]

ghost use Rattle.machine.specs.Answer.{given, file_given};
ghost use Rattle.evaluator.specs.Promise.{memory};
ghost use Rattle.embed.specs.Embedding.{Embedded};

// Evaluates a term file with the definitions of a prelude, on the machine of this number.
#[unsafe(no_mangle)]
pub extern "C" fn glow_evaluate_with(
    machine: u32,
    prelude: &[u8],
    file: &[u8],
    budget: u32,
    tags: &mut [u8],
    args: &mut [u16],
    codes: &mut [u16],
    owns: &mut [u16],
    nexts: &mut [u16],
    places: &mut [u16],
    renumber: &mut [u16],
    out_tags: &mut [u8],
    out_args: &mut [u16],
    report: &mut [u64],
) -> u32
    ensures { Embedded machine (given prelude.now file.now) budget result
        (memory tags.old args.old codes.old owns.old nexts.old places.old renumber.old out_tags.old out_args.old)
        (memory tags.new args.new codes.new owns.new nexts.new places.new renumber.new out_tags.new out_args.new)
        report.old report.new }
{
    embed::glow_evaluate_with(
        machine, prelude, file, budget, tags, args, codes, owns, nexts, places, renumber, out_tags,
        out_args, report,
    )
}

// Evaluates a term file without definitions.
#[unsafe(no_mangle)]
pub extern "C" fn glow_evaluate(
    machine: u32,
    file: &[u8],
    budget: u32,
    tags: &mut [u8],
    args: &mut [u16],
    codes: &mut [u16],
    owns: &mut [u16],
    nexts: &mut [u16],
    places: &mut [u16],
    renumber: &mut [u16],
    out_tags: &mut [u8],
    out_args: &mut [u16],
    report: &mut [u64],
) -> u32
    ensures { Embedded machine (file_given file.now) budget result
        (memory tags.old args.old codes.old owns.old nexts.old places.old renumber.old out_tags.old out_args.old)
        (memory tags.new args.new codes.new owns.new nexts.new places.new renumber.new out_tags.new out_args.new)
        report.old report.new }
{
    embed::glow_evaluate(
        machine, file, budget, tags, args, codes, owns, nexts, places, renumber, out_tags,
        out_args, report,
    )
}
