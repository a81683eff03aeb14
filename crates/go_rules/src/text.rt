// The text of a position: `G`, the number of lines, `:`, the side on turn, `:`, and a byte for each point.
ghost use Rattle.std.specs.Prelude.{◌≡◌, ◌<◌, slice_index, IfOk};
ghost use Rattle.go_rules.specs.Text.{fits_at, lines_of, text_fault, stones_of, side_of, dead_point, read_fault, Told};
ghost use Rattle.go_rules.specs.Play.{Position};
ghost use Rattle.game.specs.Refusals.{refused_at};

use crate::board::{Board, points_where};
use crate::place::Place;
use crate::rules::{free_points, living_stones};
use crate::turn::place_of;
use game::kinds::Side;
use game::refusal::PositionRefusal;
use point_sets::points::has_point;

// What a text tells: a board and the position on it.
#[derive(Clone, Copy)]
pub struct Opening {
    pub board: Board,
    pub place: Place,
}

// Byte i of the text, or 0 past its end.
fn byte_at(text: &[u8], i: usize) -> u8
    ensures { result ≡ slice_index text.now i }
{
    text.get(i).copied().unwrap_or(0)
}

// Whether b may stand at place i of the text of a board of n lines.
fn fits_at(n: usize, i: usize, b: u8) -> bool
    requires { n < 256 }
    ensures { result ≡ fits_at n i b }
{
    match i {
        0 => b == b'G',
        1 => matches!(b, b'3'..=b'7'),
        2 | 4 => b == b':',
        3 => matches!(b, b'B' | b'W'),
        _ => i < 5 + n * n && matches!(b, b'.' | b'B' | b'W'),
    }
}

// The number of lines that the text tells.
fn lines_of(text: &[u8]) -> u8
    ensures { result ≡ lines_of text.now }
{
    byte_at(text, 1).saturating_sub(b'0')
}

// Where the text is out of form.
fn text_fault(text: &[u8]) -> Option<usize>
    ensures { result ≡ text_fault text.now }
{
    let n = usize::from(lines_of(text));
    let unfit = text
        .iter()
        .enumerate()
        .position(|(i, b)| !fits_at(n, i, *b));
    let short = text.len() < 5 + n * n;
    unfit.or(short.then_some(text.len()))
}

// The stones of a colour.
#[tactic(auto, unfolding(crate::specs::Text::stones_of))]
fn stones_of(board: &Board, text: &[u8], colour: u8) -> u64
    ensures { result ≡ stones_of board.now.n colour text.now }
{
    points_where(board.size(), |p| byte_at(text, 5 + p as usize) == colour)
}

// The first point of a group without liberty.
fn dead_point(board: &Board, black: u64, white: u64) -> Option<u32>
    ensures { result ≡ dead_point board.now.n black white }
{
    let free = free_points(board, black, white);
    let dead = (black & !living_stones(board, black, free))
        | (white & !living_stones(board, white, free));
    (0..board.size()).find(|p| has_point(dead, *p))
}

// The side on turn.
fn side_of(text: &[u8]) -> Side
    ensures { result ≡ side_of text.now }
{
    match byte_at(text, 3) {
        b'B' => Side::Black,
        _ => Side::White,
    }
}

// The board and the position of a text. Refused with 14 at the first byte out of form, which is the length where the text
// ends early, then with 15 at the first point of a group without liberty.
pub fn read_position(text: &[u8]) -> Result<Opening, PositionRefusal>
    ensures answer { refused_at result ≡ read_fault text.now }
    ensures told { IfOk result (λ o. Told text.now o.board.n o.place) }
    ensures placed { IfOk result (λ o. Position o.board.n o.place) }
{
    if let Some(place) = text_fault(text) {
        return Err(PositionRefusal::OutOfForm { place });
    }
    // A text in form tells a size that there is. No `ok_or(..)?`: it was tried, and the proof that it never fails did not close.
    let Some(board) = Board::of(u32::from(lines_of(text))) else {
        return Err(PositionRefusal::OutOfForm { place: 1 });
    };
    let black = stones_of(&board, text, b'B');
    let white = stones_of(&board, text, b'W');
    if let Some(point) = dead_point(&board, black, white) {
        return Err(PositionRefusal::NotAllowed {
            place: point as usize,
        });
    }
    Ok(Opening {
        board,
        place: place_of(&board, black, white, side_of(text)),
    })
}
