// What the search records of a line, and the key under which it is recorded.

// A position under a context word, and the floor that was asked for.
#[derive(Clone, Copy, Default, PartialEq, Eq, Debug)]
pub struct Key {
    pub a: u64,
    pub b: u64,
    pub context: u64,
    pub floor: u8,
}

// A verdict with its move, marked where the line was path-independent; or open, with the proof and disproof number.
#[derive(Clone, Copy, PartialEq, Eq, Debug)]
pub enum Finding {
    Verdict {
        yes: bool,
        independent: bool,
        // The winning move, or 255 where no one move wins. No `Option`: answers are promised and printed with that number, and as a
        // store may hand out any number here, its reader has to test it against the moves all the same.
        best: u8,
    },
    Open {
        pn: u32,
        dn: u32,
    },
}

#[derive(Clone, Copy, PartialEq, Eq, Debug)]
pub struct Entry {
    pub key: Key,
    pub finding: Finding,
}
