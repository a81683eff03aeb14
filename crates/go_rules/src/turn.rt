// Positions: of given stones, and one move on.
ghost use Rattle.std.specs.Prelude.{◌≡◌};
ghost use Rattle.go_rules.specs.Play.{place_of, after, empty_ones};

use crate::board::Board;
use crate::place::Place;
use crate::rules::{free_points, legal_moves, with_stone};
use game::kinds::Side;
use point_sets::points::{count_points, nth_point};

// The position of these stones.
pub fn place_of(board: &Board, black: u64, white: u64, side: Side) -> Place
    ensures { result ≡ place_of board.now.n black white side }
{
    let moves = match side {
        Side::Black => legal_moves(board, black, white),
        Side::White => legal_moves(board, white, black),
    };
    Place {
        black,
        white,
        side,
        moves,
    }
}

// The position after move k.
#[tactic(auto, using(point_sets::proofs::Lists::nth_low))]
pub fn place_after(board: &Board, x: Place, k: u32) -> Place
    ensures { result ≡ after board.now.n x k }
{
    let p = nth_point(x.moves, board.size(), k);
    match x.side {
        Side::Black => place_of(board, with_stone(x.black, p), x.white, Side::White),
        Side::White => place_of(board, x.black, with_stone(x.white, p), Side::Black),
    }
}

// The number of empty points.
#[tactic(auto, using(point_sets::proofs::Lists::length_le))]
pub fn empty_count(board: &Board, x: Place) -> u16
    ensures { result ≡ empty_ones board.now.n x }
{
    count_points(free_points(board, x.black, x.white), board.size()) as u16
}
