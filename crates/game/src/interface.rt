// The traits that every game and every rule layer meets. No method asks anything of its caller.
ghost use Rattle.std.specs.Prelude.{◌≡◌, ℕ, List, [], length};
ghost use Rattle.game.specs.Meaning.{Meaning};
ghost use Rattle.game.specs.Laws.{Lawful, Present, BoundedBy, Bounded as IsBounded, Room};
ghost use Rattle.game.specs.Prefixes.{prefix, words_of};
ghost use Rattle.game.specs.Refusals.{refused_by, play_answer, played_line, back_answer, shorter};

use crate::kinds::{Score, Side, Words};
use crate::refusal::Refusal;

// A game at its present line.
pub trait Game {
    // What it tells of every line, and its fixed height where there is one.
    ghost means: { Self → Meaning };

    // The present line, the newest move first.
    ghost line: { Self → List ℕ };

    // The side on turn.
    fn turn(&self) -> Side
        ensures { result ≡ ((means self.now).view (line self.now)).turn };

    // The number of moves, which are numbered from 0.
    fn moves(&self) -> u32
        ensures { result ≡ ((means self.now).view (line self.now)).moves };

    // The score, where the line is over.
    fn score(&self) -> Option<Score>
        ensures { result ≡ ((means self.now).view (line self.now)).score };

    // The first and the second position word.
    fn a(&self) -> u64
        ensures { result ≡ ((means self.now).view (line self.now)).a };

    fn b(&self) -> u64
        ensures { result ≡ ((means self.now).view (line self.now)).b };

    // The context word.
    fn context(&self) -> u64
        ensures { result ≡ ((means self.now).view (line self.now)).context };

    // A number that never rises along a line.
    fn level(&self) -> u16
        ensures { result ≡ ((means self.now).view (line self.now)).level };

    // Whether the line is path-independent: how it goes on is told by its position words and its context word.
    fn independent(&self) -> bool
        ensures { result ≡ ((means self.now).view (line self.now)).independent };

    // The length of the present line.
    fn played(&self) -> u32
        ensures { result ≡ length (line self.now) };

    // The words of the prefix of n moves, or of the present line where it has no more.
    fn earlier(&self, n: u32) -> Words
        ensures { result ≡ words_of (means self.now) (prefix n (line self.now)) };

    // Appends move k. Refused with 2 where the line is over, 1 where there is no such move, 3 where it has 96 moves.
    fn play(&mut self, k: u32) -> Result<(), Refusal>
        ensures same { means self.new ≡ means self.old }
        ensures answer { refused_by result ≡ play_answer (means self.old) (line self.old) k }
        ensures moved { line self.new ≡ played_line (means self.old) (line self.old) k };

    // Removes the last move. Refused with 4 at the empty line.
    fn take_back(&mut self) -> Result<(), Refusal>
        ensures same { means self.new ≡ means self.old }
        ensures answer { refused_by result ≡ back_answer (line self.old) }
        ensures moved { line self.new ≡ shorter (line self.old) };

    // The laws over all reachable lines.
    ghost lawful: { (g : Self) → Lawful (means g) };

    // What holds at the present line.
    ghost present: { (g : Self) → Present (means g) (line g) };
}

// A game with a fixed height, at most 96.
pub trait Bounded: Game {
    // The height of the game: every reachable line of that length is over.
    fn height(&self) -> u32
        ensures { BoundedBy (Self.Game.means self.now) result };

    ghost bounded: { (g : Self) → IsBounded (Self.Game.means g) };

    // A present line that is not over is shorter than the height.
    ghost room: { (g : Self) → Room (Self.Game.means g) (Self.Game.line g) };
}

// A game under a rule layer. Making one takes the game below back to its empty line.
pub trait Layer<G: Game>: Game {
    // What the rule is made with.
    type Rule;

    // What the rule makes of a game.
    ghost under: { Self.Rule → Meaning → Meaning };

    fn over(game: G, rule: Self::Rule) -> Self
    where
        Self: Sized,
        ensures means { Self.Game.means result ≡ under rule (G.Game.means game) }
        ensures start { Self.Game.line result ≡ [] };
}

// Takes the game back to its empty line.
pub fn rewind<G: Game>(game: &mut G)
    ensures same { G.Game.means game.new ≡ G.Game.means game.old }
    ensures empty { G.Game.line game.new ≡ [] }
{
    while game.take_back().is_ok() {}
}
