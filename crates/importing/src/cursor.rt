// A place in the bits: how many bytes have been taken, and of the last of them the bits that are left.
ghost use Rattle.std.specs.Prelude.{◌<◌};

#[derive(Clone, Copy)]
pub struct Cursor {
    pub at: usize,
    pub byte: u32,
    pub left: u32,
    // The byte is begun.
    ghost begun: { left < 8 },
}

impl Cursor {
    ghost use Rattle.std.specs.Prelude.{◌≡◌, ℕ, List};
    ghost use Rattle.binary.specs.Bits.{bits_in};
    ghost use Rattle.importing.specs.Ahead.{ahead, taken, Bitwise, Begins};

    // The cursor before the first bit.
    pub fn start() -> Cursor
        ensures { (s : List ℕ) → ahead s result ≡ bits_in s }
    {
        Cursor {
            at: 0,
            byte: 0,
            left: 0,
        }
    }

    // The byte that has the next bit, with how many bytes are taken then, and how many bits it has left.
    fn begin(self, bits: &[u8]) -> Option<(usize, u32, u32)>
        ensures { Begins bits.now self result }
    {
        if self.left != 0 {
            return Some((self.at, self.byte, self.left));
        }
        if self.at >= bits.len() {
            return None;
        }
        Some((self.at + 1, bits[self.at] as u32, 8))
    }

    // The next bit, and the cursor behind it; or that there is none.
    pub fn next(self, bits: &[u8]) -> Option<(bool, Cursor)>
        ensures exact { ahead bits.now self ≡ taken bits.now result }
        ensures further { Bitwise self result }
    {
        let (at, byte, left) = self.begin(bits)?;
        let rest = left - 1;
        let next = Cursor {
            at,
            byte,
            left: rest,
        };
        Some(((byte >> rest) % 2 == 1, next))
    }
}
