// Files made from text: from hexadecimal digits, and from f and the nodes as the paper writes them;
// and files too large to write out.

// Stores a byte, if there is room for it.
fn put(file: &mut [u8], at: usize, byte: u8) {
    if at < file.len() {
        file[at] = byte;
    }
}

// Stores a 16-bit number, the lower byte first, if there is room for it.
fn put_word(file: &mut [u8], at: usize, number: usize) {
    if at < file.len() {
        put(file, at, (number % 256) as u8);
        put(file, at + 1, (number / 256 % 256) as u8);
    }
}

// Stores f and n.
fn put_sizes(file: &mut [u8], f: usize, n: usize) {
    put_word(file, 0, f);
    put_word(file, 2, n);
}

// Stores node i of n.
pub fn put_node(file: &mut [u8], n: usize, i: usize, tag: u8, argument: usize) {
    if n < 20000 {
        if i < n {
            put(file, 4 + i, tag);
            put_word(file, 4 + n + 2 * i, argument);
        }
    }
}

// The value of a hexadecimal digit, or 16 for any other byte.
fn digit(byte: u8) -> u8 {
    match byte {
        48..=57 => byte - 48,
        97..=102 => byte - 87,
        _ => 16,
    }
}

// Stores the bytes that a text of hexadecimal digits stands for, two digits to a byte, and answers
// how many they are. Other bytes of the text are passed over.
pub fn put_hex(text: &[u8], file: &mut [u8]) -> usize {
    let mut digits: usize = 0;
    let mut high: u8 = 0;
    let mut i = 0;
    while i < text.len() {
        let value = digit(text[i]);
        i += 1;
        if value < 16 {
            let at = digits / 2;
            digits += 1;
            if digits % 2 == 1 {
                high = value;
            } else {
                put(file, at, high * 16 + value);
            }
        }
    }
    digits / 2
}

// How many letters a text has.
pub fn count_letters(text: &[u8]) -> usize {
    let mut letters: usize = 0;
    let mut i = 0;
    while i < text.len() {
        let byte = text[i];
        i += 1;
        if byte >= 97 {
            letters += 1;
        }
    }
    letters
}

// The tag that a letter stands for: v, l and a as in the paper, x for 3 and any other for 255.
fn tag_of(letter: u8) -> u8 {
    match letter {
        118 => 0,
        108 => 1,
        97 => 2,
        120 => 3,
        _ => 255,
    }
}

// Stores f where `letters` is 1, and else the node that the last of the letters stands for.
fn put_item(file: &mut [u8], n: usize, letters: usize, tag: u8, number: usize) {
    if letters == 1 {
        put_sizes(file, number, n);
    } else if letters > 1 {
        put_node(file, n, letters - 2, tag, number);
    }
}

// Stores a text such as `f1 a2 l1 v1 v0`, of n nodes. An item is stored at each digit of its number.
pub fn put_term(text: &[u8], n: usize, file: &mut [u8]) {
    let mut letters: usize = 0;
    let mut tag: u8 = 0;
    let mut number: usize = 0;
    let mut i = 0;
    while i < text.len() {
        let byte = text[i];
        i += 1;
        if byte >= 97 {
            letters += 1;
            tag = tag_of(byte);
            number = 0;
        } else if byte >= 48 {
            number = (number * 10 + (byte as usize - 48)) % 65536;
            put_item(file, n, letters, tag, number);
        }
    }
}

// The three ways to nest deeply.
#[derive(Clone, Copy)]
pub enum Nest {
    Abstractions,
    Left,
    Right,
}

#[derive(Clone, Copy)]
pub struct Node {
    pub tag: u8,
    pub argument: usize,
}

// Node i of n nodes that nest over the variable 0: abstractions that bind `first` and on, or
// applications whose left or right parts are applications.
fn node_in(nest: Nest, first: usize, n: usize, i: usize) -> Node {
    let variable = Node {
        tag: 0,
        argument: 0,
    };
    if n > 20000 {
        return variable;
    }
    if first > 20000 {
        return variable;
    }
    if i >= n {
        return variable;
    }
    match nest {
        Nest::Abstractions => {
            if i + 1 < n {
                return Node {
                    tag: 1,
                    argument: first + i,
                };
            }
        }
        Nest::Left => {
            if i < n / 2 {
                return Node {
                    tag: 2,
                    argument: n - 2 - 2 * i,
                };
            }
        }
        Nest::Right => {
            if i % 2 == 0 {
                if i + 1 < n {
                    return Node {
                        tag: 2,
                        argument: 1,
                    };
                }
            }
        }
    }
    variable
}

// Stores a nest of n nodes. Its variable is free where f is not 0, and else bound by an abstraction
// in front.
pub fn put_nest(file: &mut [u8], nest: Nest, f: usize, n: usize) {
    put_sizes(file, f, n);
    if f == 0 {
        put_node(file, n, 0, 1, 0);
        put_from(file, nest, 1, 1, n);
    } else {
        put_from(file, nest, f, 0, n);
    }
}

// Stores the nodes from `front` on.
fn put_from(file: &mut [u8], nest: Nest, first: usize, front: usize, n: usize) {
    let mut i = front;
    while i < n {
        let node = node_in(nest, first, n - front, i - front);
        put_node(file, n, i, node.tag, node.argument);
        i += 1;
    }
}
