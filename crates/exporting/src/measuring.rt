// The pass over the nodes that counts the bits, and finds the index of each variable.
ghost use Rattle.std.specs.Prelude.{◌≡◌, ◌+◌, ◌-◌, ◌≤◌, ◌<◌, length, get_or, set};
ghost use Rattle.termfile.specs.Code.{Code};
ghost use Rattle.termfile.specs.File.{arguments};
ghost use Rattle.termfile.specs.Passes.{Framed};
ghost use Rattle.exporting.specs.Tokens.{Coded};
ghost use Rattle.exporting.specs.Measuring.{index_of, passed_variable, passed_abstraction, passed_application, Small, Indexable, Measurable, Measures};

use termfile::word;

// How far the walk over the nodes is: the abstractions around the next node, the right parts that
// are to come, and the bits of the nodes so far.
#[derive(Clone, Copy)]
pub struct Walk {
    pub depth: usize,
    pub pending: usize,
    pub total: usize,
}

// Arrays for an export's own use, with room for N nodes: the index of each variable, the level of each
// abstraction by its number, and the depths of the right parts that are to come.
#[derive(Drop)]
pub struct Scratch<const N: usize> {
    pub indices: [u16; N],
    pub levels: [u16; N],
    pub depths: [u16; N],
}

// The argument of node i. The layout is termfile's own, and it has no public function for it, since that would
// ask its callers for a file that is framed.
fn argument_at(file: &[u8], n: usize, i: usize) -> usize
    requires framed { Framed file.now n }
    requires i_lt_n { i < n }
    ensures { result ≡ get_or (arguments file.now) i 0 }
{
    let at = 4 + n + 2 * i;
    word(file[at], file[at + 1])
}

// The index of the name x: a free name is counted from outside all abstractions, and any other from
// the level of the one that binds it.
fn index_of(levels: &[u16], f: usize, depth: usize, x: usize) -> usize
    requires { Indexable f levels.now depth x }
    ensures { result ≡ index_of levels.now f depth x }
{
    if x < f {
        depth + x
    } else {
        depth - 1 - levels[x - f] as usize
    }
}

// Behind a variable with the index k.
fn pass_variable(depths: &[u16], walk: Walk, k: usize) -> Walk
    requires pending_in_bounds { walk.pending ≤ length depths.now }
    requires few_bits { walk.total + (k + 2) < 4294967296 }
    ensures { result ≡ passed_variable depths.now walk k }
{
    let total = walk.total + (k + 2);
    let pending = walk.pending;
    if 0 < pending {
        let next = pending - 1;
        return Walk {
            depth: depths[next] as usize,
            pending: next,
            total,
        };
    }
    Walk {
        depth: walk.depth,
        pending,
        total,
    }
}

// Into the abstraction with this number.
fn pass_abstraction(levels: &mut [u16], walk: Walk, number: usize) -> Walk
    requires number_in_bounds { number < length levels.old }
    requires small { Small walk 16384 }
    ensures onward { result ≡ passed_abstraction walk }
    ensures kept { levels.new ≡ set levels.old number walk.depth }
{
    levels[number] = walk.depth as u16;
    Walk {
        depth: walk.depth + 1,
        pending: walk.pending,
        total: walk.total + 2,
    }
}

// Into the left part of an application.
fn pass_application(depths: &mut [u16], walk: Walk) -> Walk
    requires pending_in_bounds { walk.pending < length depths.old }
    requires small { Small walk 16384 }
    ensures onward { result ≡ passed_application walk }
    ensures kept { depths.new ≡ set depths.old walk.pending walk.depth }
{
    let pending = walk.pending;
    depths[pending] = walk.depth as u16;
    Walk {
        depth: walk.depth,
        pending: pending + 1,
        total: walk.total + 2,
    }
}

// Counts the bits of a term, and leaves the index of each variable in the array of indices. At each turn
// the first i nodes are passed. A tag is a number and no enum, since it is a byte of the file.
pub fn measure<const N: usize>(file: &[u8], n: usize, f: usize, scratch: &mut Scratch<N>) -> usize
    requires measurable { Measurable file.now n f }
    requires room { n ≤ N }
    ensures { (c : Code) → Coded file.now n f c → Measures file.now n scratch.new.indices c result }
{
    let mut walk = Walk {
        depth: 0,
        pending: 0,
        total: 0,
    };
    for i in 0..n {
        let tag = file[4 + i];
        match tag {
            0 => {
                let name = argument_at(file, n, i);
                let k = index_of(&scratch.levels, f, walk.depth, name);
                scratch.indices[i] = k as u16;
                walk = pass_variable(&scratch.depths, walk, k);
            }
            1 => {
                let name = argument_at(file, n, i);
                walk = pass_abstraction(&mut scratch.levels, walk, name - f);
            }
            _ => {
                walk = pass_application(&mut scratch.depths, walk);
            }
        }
    }
    walk.total
}
