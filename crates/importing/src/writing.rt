// The bytes of a term file, written at the front of an array.
ghost use Rattle.std.specs.Prelude.{◌≡◌, ◌+◌, ◌*◌, ◌≤◌, length};
ghost use Rattle.std.proofs.lemmas.List.Edits.{sets};
ghost use Rattle.termfile.specs.File.{max_free, max_nodes};
ghost use Rattle.termfile.specs.Canonical.{words_bytes};
ghost use Rattle.termfile.specs.Output.{overlay};
ghost use Rattle.importing.specs.Writing.{file_bytes};

// Writes 16-bit numbers from `at` on, the lower byte of each first. At each turn the first i of them are
// written.
fn write_words(out: &mut [u8], at: usize, words: &[u16])
    requires in_bounds { at + 2 * length words.now ≤ length out.old }
    ensures { out.new ≡ sets out.old at (words_bytes words.now) }
{
    for (i, word) in words.iter().enumerate() {
        out[at + 2 * i] = (*word % 256) as u8;
        out[at + 2 * i + 1] = (*word / 256) as u8;
    }
}

// Writes the tags and the arguments. At each turn those of the first i nodes are written. One loop for both: of either alone the compiler
// makes a call of `memcpy`, and of functions outside it the library calls `memset` alone.
fn write_nodes(out: &mut [u8], tags: &[u8], args: &[u16])
    requires same_length { length tags.now ≡ length args.now }
    requires in_bounds { 4 + 3 * length tags.now ≤ length out.old }
    ensures { out.new ≡ sets (sets out.old 4 tags.now) (4 + length tags.now) (words_bytes args.now) }
{
    let n = tags.len();
    for i in 0..n {
        let argument = args[i];
        out[4 + i] = tags[i];
        out[4 + n + 2 * i] = (argument % 256) as u8;
        out[4 + n + 2 * i + 1] = (argument / 256) as u8;
    }
}

// Writes a whole file: the counts of free names and of nodes, then the tags, then the arguments.
pub fn write_file(out: &mut [u8], f: usize, tags: &[u8], args: &[u16])
    requires few_free { f ≤ max_free }
    requires same_length { length tags.now ≡ length args.now }
    requires few_nodes { length tags.now ≤ max_nodes }
    requires in_bounds { 4 + 3 * length tags.now ≤ length out.old }
    ensures { out.new ≡ overlay (file_bytes f tags.now args.now) out.old }
{
    write_words(out, 0, &[f as u16, tags.len() as u16]);
    write_nodes(out, tags, args);
}
