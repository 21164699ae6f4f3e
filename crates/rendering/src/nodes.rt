// The nodes of a term line.
ghost use Rattle.std.specs.Prelude.{◌≡◌, ◌∷◌, ◌*◌, ◌≤◌, length};
ghost use Rattle.machine.specs.Answer.{output_limit};
ghost use Rattle.rendering.specs.Decimal.{decimal};
ghost use Rattle.rendering.specs.Lines.{letter};
ghost use Rattle.rendering.specs.Putting.{Room, Put, nodes_text, nodes_bytes};

use crate::digits::width;
use crate::words::Text;

// The letter of a tag.
fn letter_of(tag: u8) -> u8
    ensures { result ≡ letter tag }
{
    // By its number: a tag is a byte of the output, and no enum.
    match tag {
        0 => b'v',
        1 => b'l',
        _ => b'a',
    }
}

// Puts a space and a node.
fn put_node(text: &mut Text, tag: u8, argument: u16)
    requires { Room (32 ∷ letter tag ∷ decimal argument) text.old }
    ensures { Put (32 ∷ letter tag ∷ decimal argument) text.old text.new }
{
    text.put_byte(b' ');
    text.put_byte(letter_of(tag));
    text.put_decimal(u64::from(argument));
}

// Puts nodes, each with a space before it.
pub fn put_nodes(text: &mut Text, tags: &[u8], args: &[u16])
    requires tags_len { length tags.now ≡ length args.now }
    requires room { Room (nodes_text tags.now args.now) text.old }
    ensures { Put (nodes_text tags.now args.now) text.old text.new }
{
    for (tag, argument) in tags.iter().zip(args) {
        put_node(text, *tag, *argument);
    }
}

// How many bytes nodes with these arguments take.
pub fn nodes_bytes(args: &[u16]) -> usize
    requires { length args.now ≤ output_limit }
    ensures exact { result ≡ nodes_bytes args.now }
    ensures few { result ≤ 7 * output_limit }
{
    let mut bytes = 0;
    for argument in args {
        bytes += 2 + width(u64::from(*argument));
    }
    bytes
}
