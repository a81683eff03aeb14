use game::kinds::Side;

// A position: the stones, the side on turn and the points of its legal moves. Its board is told beside it, since a game keeps
// 97 positions of one board.
#[derive(Clone, Copy)]
pub struct Place {
    pub black: u64,
    pub white: u64,
    pub side: Side,
    pub moves: u64,
}
