// The term file: whether a byte string is one; `word`, the number of two of its bytes; and `file_length`,
// the length that its count of nodes asks for. `check` takes any byte string and promises the counts of
// an accepted file, or the first refusal of this list that the file meets, each tested over the whole
// file before the next. It writes to nothing that is lent to it, and takes time linear in the file; over
// the nodes of an accepted file it goes once. Refused are:
//
//   1 Short     fewer than 4 bytes
//   2 Limits    above 16,384 free names, no node, or above 16,384 nodes
//   3 Length    another length than 4 bytes, and 3 for each node
//   4 Tag       a tag above 2
//   5 Shape     nodes that are not one whole term using all of them, or an application whose
//               argument is not its left part's size
//   6 Binder    an abstraction that binds another name than its place gives
//   7 Variable  a variable that is neither free nor bound by an abstraction around it
#![tactic(auto)]

mod binders;
mod parts;
mod pass;
mod shape;
mod tags;

ghost use Rattle.std.specs.Prelude.{◌≡◌, ◌+◌, ◌*◌, ◌≤◌, ◌<◌, length, None};
ghost use Rattle.std.proofs.Math.Option.{some};
ghost use Rattle.termfile.specs.Answer.{answer, told, number};
ghost use Rattle.termfile.specs.File.{word, max_nodes};
ghost use Rattle.termfile.specs.Passes.{code_in, refusal_in, answer_in, tested, counts_from};

use binders::in_order;
use parts::Parts;
use pass::test_nodes;
use shape::is_term;
use tags::tags_known;

// Why a byte string is not a term file, in the order in which the tests are made.
#[derive(Clone, Copy, Debug, PartialEq, Eq)]
pub enum Refusal {
    Short,
    Limits,
    Length,
    Tag,
    Shape,
    Binder,
    Variable,
}

// What is told of an accepted file.
#[derive(Clone, Copy, Debug, PartialEq, Eq)]
pub struct Counts {
    pub free: usize,
    pub nodes: usize,
    pub abstractions: usize,
    pub variables: usize,
    pub applications: usize,
}

impl Refusal {
    // The number of a refusal. Ruled out, for instance: 7 for a binder in the wrong place
    // (must-fail/binder_is_seven.edit).
    pub fn number(self) -> u64
        ensures { result ≡ number self }
    {
        match self {
            Refusal::Short => 1,
            Refusal::Limits => 2,
            Refusal::Length => 3,
            Refusal::Tag => 4,
            Refusal::Shape => 5,
            Refusal::Binder => 6,
            Refusal::Variable => 7,
        }
    }
}

// The 16-bit number of two bytes. Ruled out, for instance: the bytes in the other order, and the lower
// byte alone (must-fail/word_swapped.edit, word_low_alone.edit).
pub fn word(low: u8, high: u8) -> usize
    ensures { result ≡ word low high }
{
    (low as usize) + 256 * (high as usize)
}

// How many bytes a file has whose count of nodes is the number of these two bytes. Ruled out, for
// instance: a length with one byte for each argument (must-fail/file_of_single_bytes.edit).
pub fn file_length(low: u8, high: u8) -> usize
    ensures { result ≡ 4 + 3 * word low high }
{
    // In 32 bits, for machines without a wide multiply.
    (4 + 3 * (word(low, high) as u32)) as usize
}

// The most free names, and the most nodes, that a term file has.
pub const MAX_FREE: usize = 16384;

pub const MAX_NODES: usize = 16384;

// The lengths of the arrays that files are checked in, the smallest with more numbers than the file has
// nodes: to zero a larger one takes long beside all else that a small file asks for.
const SMALL: usize = 65;

const MIDDLE: usize = 1025;

const LARGE: usize = MAX_NODES + 1;

// The refusal of a file that is known not to pass all tests: the first of the last four that it does not
// pass, and the last where it passes those before. `sizes` is for its own use.
fn first_refusal(parts: Parts, sizes: &mut [u16]) -> Refusal
    requires n_in_bounds { length parts.tags.now ≤ length sizes.old }
    requires fails { tested parts.free (code_in parts) ≡ None }
    ensures { refusal_in parts.entry ≡ some (number result) }
{
    if !tags_known(parts) {
        return Refusal::Tag;
    }
    if !is_term(parts, sizes) {
        return Refusal::Shape;
    }
    if !in_order(parts) {
        return Refusal::Binder;
    }
    Refusal::Variable
}

// The counts of a term with `seen` abstractions: of the other nodes, one more is a variable than is an
// application.
fn counted(parts: Parts, seen: usize) -> Counts
    requires { seen < length parts.tags.now }
    ensures { result ≡ counts_from parts.entry.free (length parts.entry.tags.now) seen }
{
    let nodes = parts.len();
    let variables = (nodes - seen + 1) / 2;
    Counts {
        free: parts.free,
        nodes,
        abstractions: seen,
        variables,
        applications: variables - 1,
    }
}

// The answer for a file, found in an array of N numbers: one pass over the nodes tells whether it passes
// the last four tests, and only where it does not are these made one by one.
fn check_parts<const N: usize>(parts: Parts) -> Result<Counts, Refusal>
    requires n_in_bounds { length parts.tags.now < N }
    requires small_array { N ≤ max_nodes + 1 }
    ensures { told result ≡ answer_in parts.entry }
{
    let mut ends = [0u16; N];
    let Some(seen) = test_nodes(parts, &mut ends) else {
        return Err(first_refusal(parts, &mut ends));
    };
    Ok(counted(parts, seen))
}

// Whether a byte string is a term file: its counts, or the first of the seven refusals that it
// meets. The answer is an equation with its definition, for every byte string; only an array of the
// function's own is written.
//
// Ruled out, for instance: accepting `a2 l0 v0 v0` with f = 0, whose last variable is bound by a
// neighbouring abstraction and not by one around it (must-fail/scope_past_end.edit); and answering
// 7 for a file in which an abstraction also binds a wrong name, which is 6
// (must-fail/binder_as_variable.edit).
pub fn check(file: &[u8]) -> Result<Counts, Refusal>
    ensures { told result ≡ answer file.now }
{
    let parts = Parts::read(file)?;
    let n = parts.len();
    if n < SMALL {
        return check_parts::<SMALL>(parts);
    }
    if n < MIDDLE {
        return check_parts::<MIDDLE>(parts);
    }
    check_parts::<LARGE>(parts)
}
