// Refusal 5: whether the nodes are one whole term. They are read right to left, as each node takes
// the codes that stand behind it. Of a code only its size is kept, at the position where it starts:
// the codes behind node i start at i + 1, at i + 1 + sizes[i + 1] and so on up to n.
ghost use Rattle.std.specs.Prelude.{◌≡◌, ◌≤◌, true, List, length};
ghost use Rattle.termfile.specs.Code.{Code};
ghost use Rattle.termfile.specs.Nodes.{read_node};
ghost use Rattle.termfile.specs.File.{holds};
ghost use Rattle.termfile.specs.Passes.{code_in, sizes_of, joined};

use crate::parts::Parts;

// The size of the code that a node with this tag and argument makes of the codes behind it, if it makes
// one. `behind` has their sizes and those of their subterms, in prefix order, so the second code's size
// stands where the first ends.
fn join(tag: u8, argument: usize, behind: &[u16]) -> Option<usize>
    ensures { (cs : List Code) → behind.now ≡ sizes_of cs → result ≡ joined (read_node tag argument cs) }
{
    // The file's byte is matched as it stands: an enum of the three kinds is one more match at each node.
    match tag {
        0 => Some(1),
        1 => {
            let body = *behind.first()? as usize;
            Some(1 + body)
        }
        2 => {
            let right = *behind.get(argument)? as usize;
            if behind[0] as usize != argument {
                return None;
            }
            Some(1 + argument + right)
        }
        _ => None,
    }
}

// Whether the nodes are one whole term: whether the code that starts at node 0 has all n nodes.
// `sizes` is for its own use.
pub fn is_term(parts: Parts, sizes: &mut [u16]) -> bool
    requires { length parts.tags.now ≤ length sizes.old }
    ensures { result ≡ holds (λ c. true) (code_in parts.entry) }
{
    // The nodes from i on are codes one after the other, and their sizes are stored.
    let n = parts.len();
    for i in (0..n).rev() {
        let behind = &sizes[i + 1..n];
        let Some(size) = join(parts.tags[i], parts.argument(i), behind) else {
            return false;
        };
        sizes[i] = size as u16;
    }
    sizes[0] as usize == n
}
