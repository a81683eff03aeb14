// Why a call was refused. docs/REFUSALS.md has every number.
ghost use Rattle.std.specs.Prelude.{◌≡◌, ℕ};
ghost use Rattle.game.specs.Refusals.{refusal_number, position_refused};

// Why a play or a take back was refused.
#[derive(Clone, Copy, PartialEq, Eq, Debug)]
pub enum Refusal {
    NoSuchMove = 1,
    LineOver = 2,
    LineFull = 3,
    AtStart = 4,
}

impl Refusal {
    pub fn number(self) -> u8
        ensures { result ≡ refusal_number self }
    {
        self as u8
    }
}

// Why no game was made of a position: its text is out of form at a byte, or it is not allowed, which shows at a place.
#[derive(Clone, Copy, PartialEq, Eq, Debug)]
pub enum PositionRefusal {
    OutOfForm { place: usize },
    NotAllowed { place: usize },
}

impl PositionRefusal {
    pub fn number(self) -> u8
        ensures { result ≡ (position_refused self).number }
    {
        match self {
            PositionRefusal::OutOfForm { .. } => 14,
            PositionRefusal::NotAllowed { .. } => 15,
        }
    }

    pub fn place(self) -> usize
        ensures { result ≡ (position_refused self).place }
    {
        match self {
            PositionRefusal::OutOfForm { place } | PositionRefusal::NotAllowed { place } => place,
        }
    }
}
