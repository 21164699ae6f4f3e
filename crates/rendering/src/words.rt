// Words and lines.
ghost use Rattle.std.specs.Prelude.{◌≡◌, [], ◌∷◌, ◌++◌};
ghost use Rattle.rendering.specs.Decimal.{decimal};
ghost use Rattle.rendering.specs.Lines.{count_line, allowed_line, leave_line, store_line};
ghost use Rattle.rendering.specs.Putting.{Room, Put};

use crate::digits::{fill_decimal, width};

// A text at the front of an array that is lent, of which so many bytes are written.
#[derive(Drop)]
pub struct Text<'a> {
    out: &'a mut [u8],
    len: usize,
}

impl<'a> Text<'a> {
    // A text of no bytes.
    pub fn new(out: &'a mut [u8]) -> Text<'a>
        ensures same_array { result.out.ghost_name ≡ out.entry.ghost_name }
        ensures as_it_was { result.out.now ≡ out.old }
        ensures empty { result.len ≡ 0 }
    {
        Text { out, len: 0 }
    }
}

impl Text<'_> {
    // Puts bytes.
    pub fn put_bytes(&mut self, bytes: &[u8])
        requires { Room bytes.now self.old }
        ensures { Put bytes.now self.old self.new }
    {
        let end = self.len + bytes.len();
        self.out[self.len..end].copy_from_slice(bytes);
        self.len = end;
    }

    // Puts one byte.
    pub fn put_byte(&mut self, byte: u8)
        requires { Room (byte ∷ []) self.old }
        ensures { Put (byte ∷ []) self.old self.new }
    {
        self.out[self.len] = byte;
        self.len += 1;
    }

    // Puts a number.
    pub fn put_decimal(&mut self, n: u64)
        requires { Room (decimal n) self.old }
        ensures { Put (decimal n) self.old self.new }
    {
        let end = self.len + width(n);
        fill_decimal(&mut self.out[self.len..end], n);
        self.len = end;
    }

    // Puts a space and a number.
    fn put_number(&mut self, n: u64)
        requires { Room (32 ∷ decimal n) self.old }
        ensures { Put (32 ∷ decimal n) self.old self.new }
    {
        self.put_byte(b' ');
        self.put_decimal(n);
    }

    // Puts a word, a space and a number.
    fn put_named(&mut self, word: &[u8], n: u64)
        requires { Room (word.now ++ (32 ∷ decimal n)) self.old }
        ensures { Put (word.now ++ (32 ∷ decimal n)) self.old self.new }
    {
        self.put_bytes(word);
        self.put_number(n);
    }

    // Puts the line of a count.
    pub fn put_count(&mut self, word: &[u8], n: u64)
        requires { Room (count_line word.now n) self.old }
        ensures { Put (count_line word.now n) self.old self.new }
    {
        self.put_named(word, n);
        self.put_byte(b'\n');
    }

    // Puts the line of a count and its allowance.
    pub fn put_allowed(&mut self, word: &[u8], n: u64, allowance: u64)
        requires { Room (allowed_line word.now n allowance) self.old }
        ensures { Put (allowed_line word.now n allowance) self.old self.new }
    {
        self.put_named(word, n);
        self.put_named(b" of", allowance);
        self.put_byte(b'\n');
    }

    // Puts the line of the two kinds of leaving.
    pub fn put_leave(&mut self, fun: u64, inert: u64)
        requires { Room (leave_line fun inert) self.old }
        ensures { Put (leave_line fun inert) self.old self.new }
    {
        self.put_named(b"leave", fun);
        self.put_number(inert);
        self.put_byte(b'\n');
    }

    // Puts the line of what is taken of the stores.
    pub fn put_store(&mut self, nodes: u64, cells: u64, names: u64)
        requires { Room (store_line nodes cells names) self.old }
        ensures { Put (store_line nodes cells names) self.old self.new }
    {
        self.put_named(b"store", nodes);
        self.put_number(cells);
        self.put_number(names);
        self.put_byte(b'\n');
    }
}
