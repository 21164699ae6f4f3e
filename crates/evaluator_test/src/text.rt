// Reading a row.
ghost use Rattle.std.specs.Prelude.{◌≤◌, ◌<◌, length};

// The smaller of two numbers.
pub fn least(a: usize, b: usize) -> usize
    ensures { result ≤ b }
{
    if a < b { a } else { b }
}

// Where a byte first stands from `from` on, or the text's end.
pub fn find(text: &[u8], from: usize, byte: u8) -> usize
    requires { from ≤ length text.now }
    ensures { (from ≤ result) × (result ≤ length text.now) }
{
    let mut i = from;
    while i < text.len() {
        if text[i] == byte {
            return i;
        }
        i += 1;
    }
    i
}

// The value of a decimal digit.
fn value_of(byte: u8) -> usize
    ensures { result < 256 }
{
    if byte < 48 { 0 } else { byte as usize - 48 }
}

// The number after so many spaces.
pub fn number(text: &[u8], spaces: usize) -> usize
    ensures { result < 4294967296 }
{
    let mut passed: usize = 0;
    let mut value: usize = 0;
    let mut i = 0;
    while i < text.len() {
        let byte = text[i];
        i += 1;
        if byte < 48 {
            passed += 1;
        } else if passed == spaces {
            value = (value * 10 + value_of(byte)) % 4294967296;
        }
    }
    value
}

// What fills the arrays, and whether another run is made first.
#[derive(Clone, Copy)]
pub struct Fill {
    pub word: u16,
    pub byte: u8,
    pub dirty: bool,
}

pub fn fill_of(numbers: &[u8]) -> Fill {
    let fill = number(numbers, 11);
    Fill {
        word: (fill % 65536) as u16,
        byte: (fill % 256) as u8,
        dirty: fill >= 65536,
    }
}

// The calls of a row are numbered: 0 is the other run, 1 and 2 are the row's own.
pub fn first_round(dirty: bool) -> usize {
    if dirty { 0 } else { 1 }
}

// The length of an array: all of it for the other run, or the number after so many spaces.
pub fn length_in(round: usize, numbers: &[u8], spaces: usize) -> usize
    ensures { result ≤ 33000 }
{
    if round == 0 {
        return 33000;
    }
    least(number(numbers, spaces), 33000)
}

pub fn budget_of(round: usize, numbers: &[u8]) -> u32 {
    if round == 0 {
        return 1000;
    }
    number(numbers, 1) as u32
}

// The file of a call.
pub fn file_of<'a>(round: usize, other: &'a [u8], file: &'a [u8]) -> &'a [u8] {
    if round == 0 {
        return other;
    }
    file
}
