// Refusal 17: whether the bytes behind the count are the definitions, each as long as its own n says; and
// the definitions of a prelude that passes it, one after the other.
ghost use Rattle.std.specs.Prelude.{◌≡◌, ◌<◌, true};
ghost use Rattle.prelude.specs.Prelude.{cut, are_cut};

use termfile::{file_length, word};

// Whether the bytes are so many definitions with no byte left over or missing.
fn is_cut(count: usize, bytes: &[u8]) -> bool
    ensures { result ≡ are_cut (cut count bytes.now) }
{
    // Behind the definitions so far stands the rest.
    let mut rest = bytes;
    for _ in 0..count {
        if rest.len() < 4 {
            return false;
        }
        let length = file_length(rest[2], rest[3]);
        if rest.len() < length {
            return false;
        }
        rest = &rest[length..];
    }
    rest.is_empty()
}

// The definitions of a prelude, or those that are to come: how many they are, and their bytes.
#[derive(Clone, Copy)]
pub struct Definitions<'a> {
    count: usize,
    bytes: &'a [u8],

    ghost few: { count < 65536 },
    ghost whole: { are_cut (cut count bytes.now) ≡ true },
}

impl<'a> Definitions<'a> {
    ghost use Rattle.std.specs.Prelude.{◌≡◌, true, false, MatchOption};
    ghost use Rattle.prelude.specs.Prelude.{definition_files, whole_for};
    ghost use Rattle.prelude.specs.Passes.{files_in};

    // The definitions of a prelude for a term with `free` free names, unless 17 refuses it.
    pub fn of(prelude: &'a [u8], free: usize) -> Option<Definitions<'a>>
        ensures { MatchOption result (whole_for free prelude.now ≡ false)
            (λ ds. (whole_for free prelude.now ≡ true) × (files_in ds ≡ definition_files prelude.now)) }
    {
        if prelude.len() < 2 {
            return None;
        }
        let count = word(prelude[0], prelude[1]);
        let bytes = &prelude[2..];
        if free < count || !is_cut(count, bytes) {
            return None;
        }
        Some(Definitions { count, bytes })
    }
}

impl<'a> Iterator for Definitions<'a> {
    ghost use Rattle.std.specs.Iterator.{YieldsFirstRef, item_count};
    ghost use Rattle.prelude.specs.Passes.{files_in};

    type Item = &'a [u8];

    ghost next_gives = { YieldsFirstRef files_in };

    ghost remaining = { item_count files_in };

    // The file of the next definition, where one is to come.
    fn next(&mut self) -> Option<&'a [u8]> {
        if self.count == 0 {
            return None;
        }
        let length = file_length(self.bytes[2], self.bytes[3]);
        let (file, later) = self.bytes.split_at(length);
        self.count -= 1;
        self.bytes = later;
        Some(file)
    }
}
