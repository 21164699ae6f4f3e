// The parts of a term file, as a file that passes the refusals 1 to 3 has them: f at byte 0 and n at
// byte 2, then n tags, a byte each, and then n arguments. Numbers but the tags are of two bytes.
ghost use Rattle.std.specs.Prelude.{◌≡◌, ◌+◌, ◌*◌, ◌≤◌, ◌<◌, length, get_or};
ghost use Rattle.termfile.specs.File.{word, words, max_free, max_nodes};

use crate::{MAX_FREE, MAX_NODES, Refusal, file_length, word};

// The 16-bit number at `at`, the lower byte first.
fn word_at(bytes: &[u8], at: usize) -> usize
    requires { at + 1 < length bytes.now }
    ensures value { result ≡ word (get_or bytes.now at 0) (get_or bytes.now (at + 1) 0) }
    ensures two_bytes { result < 65536 }
{
    word(bytes[at], bytes[at + 1])
}

// The count of free names, the tags of the nodes, and the bytes of their arguments.
#[derive(Clone, Copy)]
pub struct Parts<'a> {
    pub free: usize,
    pub tags: &'a [u8],
    pub arguments: &'a [u8],

    ghost few_names: { free ≤ max_free },
    ghost some_node: { 1 ≤ length tags.now },
    ghost few_nodes: { length tags.now ≤ max_nodes },
    ghost paired: { length arguments.now ≡ 2 * length tags.now },
}

impl<'a> Parts<'a> {
    ghost use Rattle.std.specs.Prelude.{◌≡◌, ◌<◌, length, get_or, MatchResult, IfOk};
    ghost use Rattle.std.proofs.Math.Option.{some};
    ghost use Rattle.termfile.specs.Answer.{answer, number};
    ghost use Rattle.termfile.specs.File.{words, free_names, tags, arguments, refusal};
    ghost use Rattle.termfile.specs.Passes.{answer_in};

    // The parts of a file, or the first of the refusals 1 to 3 that it meets.
    pub fn read(file: &'a [u8]) -> Result<Parts<'a>, Refusal>
        ensures answer { MatchResult result (λ parts. answer_in parts ≡ answer file.now) (λ why. refusal file.now ≡ some (number why)) }
        ensures parts { IfOk result (λ parts. (parts.free ≡ free_names file.now) × (parts.tags.now ≡ tags file.now) × (words parts.arguments.now ≡ arguments file.now)) }
    {
        if file.len() < 4 {
            return Err(Refusal::Short);
        }
        let free = word_at(file, 0);
        let n = word_at(file, 2);
        if free > MAX_FREE || n < 1 || n > MAX_NODES {
            return Err(Refusal::Limits);
        }
        if file.len() != file_length(file[2], file[3]) {
            return Err(Refusal::Length);
        }
        let behind = 4 + n;
        Ok(Parts {
            free,
            tags: &file[4..behind],
            arguments: &file[behind..],
        })
    }

    // How many nodes there are.
    pub fn len(self) -> usize
        ensures { result ≡ length self.entry.tags.now }
    {
        self.tags.len()
    }

    // The argument of node i.
    pub fn argument(self, i: usize) -> usize
        requires { i < length self.tags.now }
        ensures value { result ≡ get_or (words self.entry.arguments.now) i 0 }
        ensures two_bytes { result < 65536 }
    {
        word_at(self.arguments, 2 * i)
    }
}
