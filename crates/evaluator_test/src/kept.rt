// Whether arrays hold what they were filled with.

// Whether the bytes from `from` on are all the value.
pub fn kept_bytes(s: &[u8; 33000], from: usize, value: u8) -> bool {
    let mut i = from;
    while i < 33000 {
        if s[i] != value {
            return false;
        }
        i += 1;
    }
    true
}

pub fn kept_words(s: &[u16; 33000], from: usize, value: u16) -> bool {
    let mut i = from;
    while i < 33000 {
        if s[i] != value {
            return false;
        }
        i += 1;
    }
    true
}

pub fn stores_kept(
    tags: &[u8; 33000],
    args: &[u16; 33000],
    codes: &[u16; 33000],
    owns: &[u16; 33000],
    nexts: &[u16; 33000],
    places: &[u16; 33000],
    word: u16,
    byte: u8,
) -> bool {
    let nodes = kept_bytes(tags, 0, byte) & kept_words(args, 0, word);
    let items = kept_words(codes, 0, word) & kept_words(owns, 0, word);
    let rest = kept_words(nexts, 0, word) & kept_words(places, 0, word);
    nodes & items & rest
}
