// Refusals 4 to 7 in one pass over the nodes, left to right: whether a file meets none of them. At each
// node it is known where the subterm that starts there has to end: the whole at n, a body where its
// abstraction ends, a left part where the application's argument says, and a right part where its
// application ends. So each variable has to stand at such an end, and the last of them at n.
ghost use Rattle.std.specs.Prelude.{◌≡◌, ◌<◌, ◌-◌, ◌||◌, ltb, length, get_or};
ghost use Rattle.termfile.specs.Passes.{code_in, tested};

use crate::parts::Parts;

// Whether the name x is free, or is that of an abstraction passed and node i lies in its subterm. The
// abstractions bind f, f + 1 and so on, so the name f + k is that of the k-th; ends[k] is the position
// just past its subterm.
fn visible(x: usize, f: usize, i: usize, ends: &[u16]) -> bool
    ensures { result ≡ ltb x f || ltb i (get_or ends.now (x - f) 0) }
{
    x < f || ends.get(x - f).is_some_and(|end| i < *end as usize)
}

// How many abstractions the nodes have, where they are one whole term with its abstractions in order and
// its variables in scope. `ends` is for its own use.
pub fn test_nodes(parts: Parts, ends: &mut [u16]) -> Option<usize>
    requires { length parts.tags.now < length ends.old }
    ensures { result ≡ tested parts.entry.free (code_in parts.entry) }
{
    let f = parts.free;
    // In the nodes so far there is nothing to refuse, and `seen` of them are abstractions. The subterm
    // that starts at node i has to end at `end`. The array has in front where the abstractions end,
    // and from `top` on where the right parts to come have to end, the next first, and then a 0:
    // nothing is left. The two do not meet, as each node adds one at most. Memory is fixed, so one array
    // serves both.
    let mut top = ends.len() - 1;
    ends[top] = 0;
    let mut end = parts.len();
    let mut seen = 0;
    for (i, &tag) in parts.tags.iter().enumerate() {
        let argument = parts.argument(i);
        // The file's byte is matched as it stands: an enum of the three kinds is one more match at each node.
        match tag {
            0 => {
                if end != i + 1 {
                    return None;
                }
                if !visible(argument, f, i, &ends[..seen]) {
                    return None;
                }
                end = ends[top] as usize;
                top += 1;
            }
            1 => {
                if argument != f + seen {
                    return None;
                }
                ends[seen] = end as u16;
                seen += 1;
            }
            2 => {
                let left = i + 1 + argument;
                if end <= left {
                    return None;
                }
                top -= 1;
                ends[top] = end as u16;
                end = left;
            }
            _ => return None,
        }
    }
    if end != 0 {
        return None;
    }
    Some(seen)
}
