// The plain values that games exchange with everything above them.
ghost use Rattle.std.specs.Prelude.{◌≡◌};
ghost use Rattle.game.specs.Kinds.{is_black, number_of, points, other as other_of};

// The side on turn.
#[derive(Clone, Copy, PartialEq, Eq, Debug)]
pub enum Side {
    Black,
    White,
}

impl Side {
    // Black is side 0, White side 1.
    pub fn number(self) -> u8
        ensures { result ≡ number_of self }
    {
        u8::from(self == Side::White)
    }

    pub fn is_black(self) -> bool
        ensures { result ≡ is_black self }
    {
        self == Side::Black
    }

    pub fn other(self) -> Side
        ensures { result ≡ other_of self }
    {
        match self {
            Side::Black => Side::White,
            Side::White => Side::Black,
        }
    }
}

// How a line that is over has ended.
#[derive(Clone, Copy, PartialEq, Eq, Debug)]
pub enum Score {
    WhiteWins = 0,
    Draw = 1,
    BlackWins = 2,
}

impl Score {
    // 2 where Black wins, 1 for a draw, 0 where White wins.
    pub fn points(self) -> u8
        ensures { result ≡ points self }
    {
        self as u8
    }
}

// The position words and the level of a line: what tells whether a position comes back.
#[derive(Clone, Copy, PartialEq, Eq, Debug)]
pub struct Words {
    pub a: u64,
    pub b: u64,
    pub level: u16,
}
