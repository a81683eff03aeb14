// Boards in words.
use game::interface::Game;
use game::kinds::{Score, Side};
use point_sets::points::has_point;
use std::fmt;

// What is shown of a present line: the board, and who is on turn or has won.
#[derive(Clone, Copy)]
pub(crate) struct Shown {
    size: u32,
    a: u64,
    b: u64,
    turn: Side,
    moves: u32,
    score: Option<Score>,
}

impl Shown {
    // The line of a game on a board of so many rows.
    pub(crate) fn of<G: Game>(size: u32, game: &G) -> Shown {
        Shown {
            size,
            a: game.a(),
            b: game.b(),
            turn: game.turn(),
            moves: game.moves(),
            score: game.score(),
        }
    }

    fn stone(&self, row: u32, column: u32) -> char {
        let point = row.saturating_mul(self.size).saturating_add(column);
        if has_point(self.a, point) {
            'B'
        } else if has_point(self.b, point) {
            'W'
        } else {
            '.'
        }
    }
}

// The rows of the board, as `  WB.`, and who is on turn, or how the line has ended.
impl fmt::Display for Shown {
    fn fmt<W: fmt::Write>(&self, f: &mut fmt::Formatter<W>) -> fmt::Result {
        for row in 0..self.size {
            write!(f, "  ")?;
            for column in 0..self.size {
                write!(f, "{}", self.stone(row, column))?;
            }
            writeln!(f)?;
        }
        let moves = self.moves;
        match (self.score, self.turn) {
            (Some(Score::BlackWins), _) => write!(f, "  over: Black has won"),
            (Some(Score::Draw), _) => write!(f, "  over: drawn"),
            (Some(Score::WhiteWins), _) => write!(f, "  over: White has won"),
            (None, Side::Black) => write!(f, "  Black on turn, moves {moves}"),
            (None, Side::White) => write!(f, "  White on turn, moves {moves}"),
        }
    }
}
