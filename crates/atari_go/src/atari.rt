ghost use Rattle.std.specs.Prelude.{◌≡◌, ℕ, ◌+◌, ◌*◌, ◌^◌, ◌<◌, ◌≤◌, List, [], ◌∷◌, length, Ok, Err, cond, nat_le};
ghost use Rattle.game.specs.Kinds.{number_of, other};
ghost use Rattle.game.specs.Laws.{BoundedBy};
ghost use Rattle.game.specs.Meaning.{Reachable};
ghost use Rattle.game.specs.Prefixes.{prefix};
ghost use Rattle.game.specs.Refusals.{refused_at, refused_by, line_after};
ghost use Rattle.go_rules.specs.Play.{moves_at, after, standing, win_for, atari_go, Position, empty_ones};
ghost use Rattle.go_rules.specs.Text.{read_fault, game_of};
ghost use Rattle.go_rules.proofs.Laws.{placed_of, go_lawful, go_bounded};
ghost use Rattle.go_rules.proofs.Walks.{Place-set, walked_present, walked_room};
ghost use Rattle.history.specs.Walks.{line_of, Follows};
ghost use Rattle.history.proofs.Props.{Reachable-prop, Follows-prop};

use game::interface::{Bounded, Game};
use game::kinds::{Score, Side, Words};
use game::refusal::{PositionRefusal, Refusal};
use go_rules::board::Board;
use go_rules::place::Place;
use go_rules::text::{Opening, read_position};
use go_rules::turn::{empty_count, place_after};
use history::history::History;
use point_sets::points::count_points;

// A game of Atari Go: a board, and the positions that the present line has led through.
#[derive(Drop)]
pub struct AtariGo {
    board: Board,
    history: History<Place>,
    ghost good: { Position board.n history.start },
    ghost legal: { Reachable (atari_go board.n history.start) (line_of history) } by { Reachable-prop (atari_go board.n history.start) _ },
    ghost follows: { Follows (standing board.n history.start) history } by { Follows-prop Place-set (standing board.n history.start) history },
}

// White's stones, and the side on turn above them.
fn second_word(x: Place) -> u64
    requires { x.white < 2 ^ 49 }
    ensures { result ≡ x.white + 2 ^ 49 * number_of x.side }
{
    x.white + (u64::from(x.side.number()) << 49)
}

// The score of a line at which this side has lost.
fn lost(side: Side) -> Score
    ensures { result ≡ win_for (other side) }
{
    match side {
        Side::Black => Score::WhiteWins,
        Side::White => Score::BlackWins,
    }
}

impl AtariGo {
    // The game that starts at the position of the text, at its empty line. Refused with 14 at the first byte out of form, then
    // with 15 at the first point of a group without liberty.
    pub fn read(text: &[u8]) -> Result<AtariGo, PositionRefusal>
        ensures answer { refused_at result ≡ read_fault text.now }
        ensures made { elim result [ Ok g ↦ (atari_go g.board.n g.history.start ≡ game_of text.now) × (line_of g.history ≡ []) | Err e ↦ Unit {0} ] }
    {
        let Opening { board, place } = read_position(text)?;
        Ok(AtariGo {
            board,
            history: History::new(place),
        })
    }

    // The position of the present line.
    fn here(&self) -> Place
        ensures is { result ≡ standing self.now.board.n self.now.history.start (line_of self.now.history) }
        ensures few { length (moves_at self.now.board.n result) ≤ 49 }
        ensures white { result.white < 2 ^ 49 }
    {
        self.history.here()
    }

    // The position of the prefix of n moves, or of the present line where it has no more.
    fn stood_at(&self, n: u32) -> Place
        ensures is { result ≡ standing self.now.board.n self.now.history.start (prefix n (line_of self.now.history)) }
        ensures white { result.white < 2 ^ 49 }
    {
        self.history.at(n)
    }

    // Appends move k, which leads to the position next. Refused with 3 where the line has 96 moves.
    fn append(&mut self, k: u8, next: Place) -> Result<(), Refusal>
        requires legal { k < length (moves_at self.old.board.n (standing self.old.board.n self.old.history.start (line_of self.old.history))) }
        requires leads { next ≡ after self.old.board.n (standing self.old.board.n self.old.history.start (line_of self.old.history)) k }
        ensures board { self.new.board.n ≡ self.old.board.n }
        ensures start { self.new.history.start ≡ self.old.history.start }
        ensures answer { refused_by result ≡ cond (nat_le 96 (length (line_of self.old.history))) 3 0 }
        ensures moved { line_of self.new.history ≡ line_after (refused_by result) (k ∷ line_of self.old.history) (line_of self.old.history) }
    {
        self.history.push(k, next)
    }
}

impl Game for AtariGo {
    ghost means = { λ s. atari_go s.board.n s.history.start };

    ghost line = { λ s. line_of s.history };

    ghost lawful = { λ s. go_lawful s.board.n s.board.high s.history.start (placed_of s.board.n s.history.start s.good) };

    ghost present = { λ s. walked_present s.board.n s.board.high s.history.start s.good (line_of s.history) s.legal };

    fn turn(&self) -> Side {
        self.here().side
    }

    fn moves(&self) -> u32 {
        count_points(self.here().moves, self.board.size())
    }

    fn score(&self) -> Option<Score> {
        (self.moves() == 0).then(|| lost(self.turn()))
    }

    fn a(&self) -> u64 {
        self.here().black
    }

    fn b(&self) -> u64 {
        second_word(self.here())
    }

    fn context(&self) -> u64 {
        0
    }

    fn level(&self) -> u16 {
        empty_count(&self.board, self.here())
    }

    fn independent(&self) -> bool {
        true
    }

    fn played(&self) -> u32 {
        self.history.len()
    }

    fn earlier(&self, n: u32) -> Words {
        let x = self.stood_at(n);
        Words {
            a: x.black,
            b: second_word(x),
            level: empty_count(&self.board, x),
        }
    }

    fn play(&mut self, k: u32) -> Result<(), Refusal> {
        let moves = self.moves();
        if moves == 0 {
            return Err(Refusal::LineOver);
        }
        if k >= moves {
            return Err(Refusal::NoSuchMove);
        }
        let next = place_after(&self.board, self.here(), k);
        self.append(k as u8, next)
    }

    fn take_back(&mut self) -> Result<(), Refusal> {
        self.history.pop()
    }
}

impl Bounded for AtariGo {
    ghost bounded = { λ s. (empty_ones s.board.n s.history.start, go_bounded s.board.n s.board.high s.history.start (placed_of s.board.n s.history.start s.good)) };

    ghost room = { λ s. walked_room s.board.n s.board.high s.history.start s.good (line_of s.history) s.legal };

    // The empty points at the start, as many as the moves of a longest line may be.
    #[tactic(auto, using(go_rules::proofs::Laws::go_height))]
    fn height(&self) -> u32 {
        u32::from(empty_count(&self.board, self.history.start()))
    }
}
