// Layered: a game under the rule of a layer, whatever the rule is.
ghost use Rattle.std.specs.Prelude.{◌≡◌, List, ℕ};
ghost use Rattle.game.specs.Meaning.{Line, Meaning};
ghost use Rattle.game.specs.Laws.{Lawful, Present};
ghost use Rattle.layer_rules.specs.Layers.{Layer as Added, layered};

use game::interface::{Game, Layer, rewind};
use game::kinds::{Score, Side, Words};
use game::refusal::Refusal;

// The rule of a layer: what it adds to the present line of any game.
pub trait Rule {
    // What the rule is made with.
    type Value;

    // What the rule adds to a game.
    ghost adds: { Self → Meaning → Added };

    // What a rule that was made with this value makes of a game.
    ghost under: { Self.Value → Meaning → Meaning };

    fn new(value: Self::Value) -> Self
    where
        Self: Sized,
        ensures { (m : Meaning) → layered m (adds result m) ≡ under value m };

    // Whether the rule ends the line.
    fn ends<G: Game>(&self, game: &G) -> bool
        ensures { result ≡ (adds self.now (G.Game.means game.now)).ends (G.Game.line game.now) };

    // The context word of the line.
    fn context<G: Game>(&self, game: &G) -> u64
        ensures { result ≡ (adds self.now (G.Game.means game.now)).context (G.Game.line game.now) };

    // Whether the line is path-independent.
    fn independent<G: Game>(&self, game: &G) -> bool
        ensures { result ≡ (adds self.now (G.Game.means game.now)).independent (G.Game.line game.now) };

    // Every game keeps its laws under the rule, and what holds at its present line.
    ghost lawful: { (r : Self) (m : Meaning) → Lawful m → Lawful (layered m (adds r m)) };

    ghost present: { (r : Self) (m : Meaning) (l : Line) → Present m l → Present (layered m (adds r m)) l };
}

// The game below and the rule. The line is the game's, so the layer has no state of its own.
#[derive(Drop)]
pub struct Layered<G: Game, R: Rule> {
    pub(crate) game: G,
    pub(crate) rule: R,
}

impl<G: Game, R: Rule> Game for Layered<G, R> {
    ghost means = { λ s. layered (G.Game.means s.game) (R.Rule.adds s.rule (G.Game.means s.game)) };

    ghost line = { λ s. G.Game.line s.game };

    ghost lawful = { λ s. R.Rule.lawful s.rule _ (G.Game.lawful s.game) };

    ghost present = { λ s. R.Rule.present s.rule _ _ (G.Game.present s.game) };

    fn turn(&self) -> Side {
        self.game.turn()
    }

    fn moves(&self) -> u32 {
        if self.rule.ends(&self.game) {
            0
        } else {
            self.game.moves()
        }
    }

    fn score(&self) -> Option<Score> {
        self.game
            .score()
            .or_else(|| self.rule.ends(&self.game).then_some(Score::Draw))
    }

    fn a(&self) -> u64 {
        self.game.a()
    }

    fn b(&self) -> u64 {
        self.game.b()
    }

    fn context(&self) -> u64 {
        self.rule.context(&self.game)
    }

    fn level(&self) -> u16 {
        self.game.level()
    }

    fn independent(&self) -> bool {
        self.rule.independent(&self.game)
    }

    fn played(&self) -> u32 {
        self.game.played()
    }

    fn earlier(&self, n: u32) -> Words {
        self.game.earlier(n)
    }

    fn play(&mut self, k: u32) -> Result<(), Refusal> {
        if self.rule.ends(&self.game) {
            return Err(Refusal::LineOver);
        }
        self.game.play(k)
    }

    fn take_back(&mut self) -> Result<(), Refusal> {
        self.game.take_back()
    }
}

impl<G: Game, R: Rule> Layer<G> for Layered<G, R> {
    type Rule = R::Value;

    ghost under = { R.Rule.under };

    fn over(mut game: G, rule: R::Value) -> Layered<G, R> {
        rewind(&mut game);
        Layered {
            game,
            rule: R::new(rule),
        }
    }
}
