// What the search hands about: the pair of a move, what comes of a line, the answer, and why a call was refused.
ghost use Rattle.std.specs.Prelude.{◌≡◌};
ghost use Rattle.search_method.specs.Refusals.{refusal_number};

use store::entry::Finding;

// A proof number and a disproof number; also the two limits under which a line is expanded.
#[derive(Clone, Copy, Default, PartialEq, Eq, Debug)]
pub struct Pair {
    pub pn: u32,
    pub dn: u32,
}

// What comes of a line that was expanded: the pair handed up, and what was recorded of the line.
#[derive(Clone, Copy, PartialEq, Eq, Debug)]
pub struct Worked {
    pub pair: Pair,
    pub finding: Finding,
}

// What a search answers: a verdict with its move, or that the budget did not suffice; each with the plays made. The move is
// promised and printed as 255 where there is none to show, so that it is a number here too, as in a `Finding`.
#[derive(Clone, Copy, PartialEq, Eq, Debug)]
pub enum Answer {
    Solved { yes: bool, best: u8, count: u32 },
    OutOfBudget { count: u32 },
}

// Why a search was refused: the floor is not 1 or 2, or there is too little work memory.
#[derive(Clone, Copy, PartialEq, Eq, Debug)]
pub enum SolveRefusal {
    Floor = 5,
    Memory = 6,
}

impl SolveRefusal {
    pub fn number(self) -> u8
        ensures { result ≡ refusal_number self }
    {
        self as u8
    }
}
