// Files made from text: from hexadecimal digits, and from f and the nodes as the paper writes them;
// and families of files, made from a letter and a size.
ghost use Rattle.std.specs.Prelude.{◌≤◌, length};

use crate::families::{node_in, nodes_in};
use crate::text::{least, number};

// Stores the file of a row's last part, and answers its length.
pub fn put_file(text: &[u8], file: &mut [u8]) -> usize
    ensures { result ≤ length file.new }
{
    let length = put_kind(text, kind_of(text), file);
    least(length, file.len())
}

// The letter that tells how the file is given.
fn kind_of(text: &[u8]) -> u8 {
    if text.len() > 2 { text[2] } else { b'x' }
}

fn put_kind(text: &[u8], kind: u8, file: &mut [u8]) -> usize {
    if kind == b'x' {
        return put_hex(text, file);
    }
    if kind == b'f' {
        let letters = count_letters(text);
        if 1 <= letters {
            if letters < 1000 {
                put_term(text, letters - 1, file);
                return 1 + 3 * letters;
            }
        }
        return 0;
    }
    put_family(file, kind, number(text, 2))
}

// Stores a byte, if there is room for it.
fn put(file: &mut [u8], at: usize, byte: u8) {
    if at < file.len() {
        file[at] = byte;
    }
}

// Stores a 16-bit number, the lower byte first, if there is room for it.
fn put_word(file: &mut [u8], at: usize, number: usize) {
    if at < file.len() {
        put(file, at, (number % 256) as u8);
        put(file, at + 1, (number / 256 % 256) as u8);
    }
}

// Stores f and n.
fn put_sizes(file: &mut [u8], f: usize, n: usize) {
    put_word(file, 0, f);
    put_word(file, 2, n);
}

// Stores node i of n.
fn put_node(file: &mut [u8], n: usize, i: usize, tag: u8, argument: usize) {
    if n < 20000 {
        if i < n {
            put(file, 4 + i, tag);
            put_word(file, 4 + n + 2 * i, argument);
        }
    }
}

// The value of a hexadecimal digit, or 16 for any other byte.
fn digit(byte: u8) -> u8 {
    match byte {
        48..=57 => byte - 48,
        97..=102 => byte - 87,
        _ => 16,
    }
}

// Stores the bytes that a text of hexadecimal digits stands for, two digits to a byte, and answers
// how many they are. Other bytes of the text are passed over.
fn put_hex(text: &[u8], file: &mut [u8]) -> usize {
    let mut digits: usize = 0;
    let mut high: u8 = 0;
    let mut i = 0;
    while i < text.len() {
        let value = digit(text[i]);
        i += 1;
        if value < 16 {
            let at = digits / 2;
            digits += 1;
            if digits % 2 == 1 {
                high = value;
            } else {
                put(file, at, high * 16 + value);
            }
        }
    }
    digits / 2
}

// How many letters a text has.
fn count_letters(text: &[u8]) -> usize {
    let mut letters: usize = 0;
    let mut i = 0;
    while i < text.len() {
        let byte = text[i];
        i += 1;
        if byte >= 97 {
            letters += 1;
        }
    }
    letters
}

// The tag that a letter stands for: v, l and a as in the paper, and any other for 3.
fn tag_of(letter: u8) -> u8 {
    match letter {
        118 => 0,
        108 => 1,
        97 => 2,
        _ => 3,
    }
}

// Stores f where `letters` is 1, and else the node that the last of the letters stands for.
fn put_item(file: &mut [u8], n: usize, letters: usize, tag: u8, number: usize) {
    if letters == 1 {
        put_sizes(file, number, n);
    } else if letters > 1 {
        put_node(file, n, letters - 2, tag, number);
    }
}

// Stores a text such as `f1 a2 l1 v1 v0`, of n nodes. An item is stored at each digit of its number.
fn put_term(text: &[u8], n: usize, file: &mut [u8]) {
    let mut letters: usize = 0;
    let mut tag: u8 = 0;
    let mut number: usize = 0;
    let mut i = 0;
    while i < text.len() {
        let byte = text[i];
        i += 1;
        if byte >= 97 {
            letters += 1;
            tag = tag_of(byte);
            number = 0;
        } else if byte >= 48 {
            number = (number * 10 + (byte as usize - 48)) % 65536;
            put_item(file, n, letters, tag, number);
        }
    }
}

// Stores the member k of a family, and answers its length.
fn put_family(file: &mut [u8], family: u8, k: usize) -> usize {
    let n = nodes_in(family, k);
    if n > 16384 {
        return 0;
    }
    let free = if family == 65 { 0 } else { 1 };
    put_sizes(file, free, n);
    let mut i = 0;
    while i < n {
        let node = node_in(family, k, i);
        put_node(file, n, i, node.tag, node.argument);
        i += 1;
    }
    4 + 3 * n
}
