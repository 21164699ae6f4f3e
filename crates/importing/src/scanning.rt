// The one pass over the bits: it checks them, and puts the nodes of the term into arrays.
ghost use Rattle.std.specs.Prelude.{◌≤◌, length};
ghost use Rattle.termfile.specs.File.{max_free, max_nodes};
ghost use Rattle.importing.specs.Scanning.{Roomy, Scans};

use crate::cursor::Cursor;
use crate::node::{Node, read_node};
use crate::placing::{Scratch, Spot};
use binary::Refusal;
use termfile::MAX_NODES;

// Scans the bits: the number of nodes of the term that is read, with the cursor behind it, or the refusal
// `Ends` or `Range`. At each turn the nodes up to a place have been put, and what is left to be read
// there is ahead of the cursor.
pub fn scan<const N: usize>(
    bits: &[u8],
    f: usize,
    scratch: &mut Scratch<N>,
) -> Result<(usize, Cursor), Refusal>
    requires few_free { f ≤ max_free }
    requires few_nodes { N ≤ max_nodes }
    requires roomy { Roomy (length bits.now) N }
    ensures { Scans f bits.now scratch.new result }
{
    let mut c = Cursor::start();
    let mut spot = Spot {
        nodes: 0,
        depth: 0,
        pending: 0,
        name: f,
    };
    while spot.nodes < MAX_NODES {
        let (node, next) = read_node(bits, c).ok_or(Refusal::Ends)?;
        match node {
            Node::Abstraction => {
                spot = scratch.put_abstraction(spot);
            }
            Node::Application => {
                spot = scratch.put_application(spot);
            }
            Node::Variable(k) => {
                if k >= spot.depth + f {
                    return Err(Refusal::Range);
                }
                spot = scratch.put_variable(spot, k);
                if spot.pending == 0 {
                    return Ok((spot.nodes, next));
                }
                spot = scratch.close_left(spot);
            }
        }
        c = next;
    }
    // A node beyond the last, if the bits do not end before its own end.
    read_node(bits, c).ok_or(Refusal::Ends)?;
    Err(Refusal::Range)
}
