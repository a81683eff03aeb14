// Repeat: a game in which a line that comes back to an earlier position is a draw.
ghost use Rattle.std.specs.Prelude.{◌≡◌, List, [], Bool, ℕ};
ghost use Rattle.game.specs.Prefixes.{any_prefix, words_of};
ghost use Rattle.game.specs.declared.kinds.Words.{Words};
ghost use Rattle.layer_rules.specs.Layers.{same_position, has_position, has_level, repeat_layer, repeated};
ghost use Rattle.layer_rules.proofs.Repeats.{repeated_lawful, repeated_present, repeated_height, repeated_room};

use crate::layered::{Layered, Rule};
use game::interface::{Bounded, Game};
use game::kinds::Words;

pub type Repeat<G> = Layered<G, Repetition>;

// The game below keeps the words of its prefixes itself, so the rule has nothing to keep.
#[derive(Drop)]
pub struct Repetition;

// Whether the words of a prefix of the present line pass a test, whatever the function p that it computes.
fn any_earlier<G: Game, F: Fn(Words) -> bool>(game: &G, test: F) -> bool
    requires { F.IsAlwaysCallable test }
    ensures { (p : Words → Bool) → ((w : Words) (b : Bool) → F.post test w b → b ≡ p w) →
        result ≡ any_prefix (λ l. p (words_of (G.Game.means game.now) l)) (G.Game.line game.now) }
{
    (0..game.played()).any(|n| test(game.earlier(n)))
}

// Whether both position words are these.
fn same_position(words: Words, a: u64, b: u64) -> bool
    ensures { result ≡ same_position words a b }
{
    (words.a, words.b) == (a, b)
}

// Whether a prefix of the present line has these position words.
fn seen<G: Game>(game: &G, a: u64, b: u64) -> bool
    ensures { result ≡ has_position (G.Game.means game.now) a b (G.Game.line game.now) }
{
    any_earlier(game, |w| same_position(w, a, b))
}

// Whether a prefix of the present line has this level.
fn stayed<G: Game>(game: &G, level: u16) -> bool
    ensures { result ≡ has_level (G.Game.means game.now) level (G.Game.line game.now) }
{
    any_earlier(game, |w| w.level == level)
}

impl Rule for Repetition {
    type Value = ();

    ghost adds = { λ _. repeat_layer };

    ghost under = { λ _. repeated };

    fn new(_value: ()) -> Repetition {
        Repetition
    }

    // Whether a prefix has the position words of the line.
    fn ends<G: Game>(&self, game: &G) -> bool {
        seen(game, game.a(), game.b())
    }

    fn context<G: Game>(&self, game: &G) -> u64 {
        game.context()
    }

    // Whether the line is so below, and no prefix has its level. It is kept out of line: a limit above asks this twice of
    // a line, and LLVM makes one call of two, but does not make one loop of two.
    #[inline(never)]
    fn independent<G: Game>(&self, game: &G) -> bool {
        game.independent() && !stayed(game, game.level())
    }

    ghost lawful = { λ _. repeated_lawful };

    ghost present = { λ _. repeated_present };
}

// The height of the game below is also the height under the rule.
impl<G: Bounded> Bounded for Layered<G, Repetition> {
    ghost bounded = { λ s. repeated_height (G.Game.means s.game) (G.Bounded.bounded s.game) };

    ghost room = { λ s. repeated_room (G.Game.means s.game) (G.Game.line s.game) (G.Bounded.room s.game) };

    #[tactic(auto, using(crate::proofs::Heights::over_repeated))]
    fn height(&self) -> u32 {
        self.game.height()
    }
}
