// What glow prints, written into a lent array.
ghost use Rattle.command.specs.Telling.{Tells};

use machine::Machine;
use rendering::Unrendered;

// The beta steps that a run may make.
const BUDGET: u32 = 1000000;

// The lengths of its stores: nodes and cells, and names.
const NODES: usize = 16384;

const NAMES: usize = 32768;

// Evaluates the term file `file` on the first machine with glow's budget and stores, and writes what glow
// prints for it at the front of `text`. Wrong texts that the contract rules out, each tried in must-fail/:
// that of a run with another budget, with fewer nodes, and on demand.
pub fn tell(file: &[u8], text: &mut [u8]) -> Result<usize, Unrendered>
    ensures { Tells file.now result text.old text.new }
{
    let mut tags = [0u8; NODES];
    let mut args = [0u16; NODES];
    let mut codes = [0u16; NODES];
    let mut owns = [0u16; NODES];
    let mut nexts = [0u16; NODES];
    let mut places = [0u16; NAMES];
    let mut renumber = [0u16; NAMES];
    let mut out_tags = [0u8; NODES];
    let mut out_args = [0u16; NODES];
    let answer = evaluator::evaluate(
        Machine::First,
        file,
        BUDGET,
        &mut tags,
        &mut args,
        &mut codes,
        &mut owns,
        &mut nexts,
        &mut places,
        &mut renumber,
        &mut out_tags,
        &mut out_args,
    );
    rendering::render(answer, &out_tags, &out_args, text)
}
