// One node of a term: 00, 01, or ones up to a zero.
ghost use Rattle.binary.specs.Reading.{nothing, ones};
ghost use Rattle.importing.specs.Ahead.{Run, NodeAt};

use crate::cursor::Cursor;

// A node as its bits tell it. A variable has its index; where that is 65,535 or more, which none in
// range is, it may have another such number.
#[derive(Clone, Copy)]
pub enum Node {
    Abstraction,
    Application,
    Variable(usize),
}

// The cursor behind ones and the zero that ends them, or that the bits end before it. At each turn all
// bits from the start up to the cursor are ones.
fn pass_ones(bits: &[u8], start: Cursor) -> Option<Cursor>
    ensures { Run bits.now start result }
{
    let mut c = start;
    loop {
        let (one, next) = c.next(bits)?;
        if !one {
            return Some(next);
        }
        c = next;
    }
}

// The variable whose first one stands before the cursor, with the cursor behind it, or that the bits end
// before its end.
fn read_index(bits: &[u8], c: Cursor) -> Option<(Node, Cursor)>
    ensures { NodeAt (ones 0) 1 bits.now c result }
{
    let next = pass_ones(bits, c)?;
    let bytes = next.at - c.at;
    if bytes > 8192 {
        return Some((Node::Variable(65535), next));
    }
    let k = 8 * bytes + (c.left as usize) - (next.left as usize) - 1;
    Some((Node::Variable(k), next))
}

// The node at a cursor, with the cursor behind it, or that the bits end before its end.
pub fn read_node(bits: &[u8], c: Cursor) -> Option<(Node, Cursor)>
    ensures { NodeAt nothing 2 bits.now c result }
{
    let (one, first) = c.next(bits)?;
    if one {
        return read_index(bits, first);
    }
    let (second, next) = first.next(bits)?;
    if second {
        Some((Node::Application, next))
    } else {
        Some((Node::Abstraction, next))
    }
}
