// Limit: a game whose lines of a given number of moves are over.
ghost use Rattle.std.specs.Prelude.{◌≡◌, ℕ, ◌≤◌, min, length};
ghost use Rattle.layer_rules.specs.Layers.{limit_layer, limited};
ghost use Rattle.layer_rules.proofs.Limits.{limited_lawful, limited_present, limited_height, limited_room};

use crate::layered::{Layered, Rule};
use game::interface::{Bounded, Game};

pub type Limit<G> = Layered<G, MoveLimit>;

// The limit, which is the number that the rule is made with, cut down to 96.
#[derive(Drop)]
pub struct MoveLimit {
    limit: u32,
    ghost low: { limit ≤ 96 },
}

impl Rule for MoveLimit {
    type Value = u32;

    ghost adds = { λ r. limit_layer r.limit };

    ghost under = { λ n. limited (min n 96) };

    fn new(value: u32) -> MoveLimit {
        MoveLimit {
            limit: value.min(96),
        }
    }

    fn ends<G: Game>(&self, game: &G) -> bool {
        self.limit <= game.played()
    }

    fn context<G: Game>(&self, game: &G) -> u64 {
        let t = game.context();
        if game.independent() && t < 1 << 56 {
            256 * t + u64::from(self.limit.saturating_sub(game.played()))
        } else {
            t
        }
    }

    fn independent<G: Game>(&self, game: &G) -> bool {
        game.independent() && game.context() < 1 << 56
    }

    ghost lawful = { λ r m. limited_lawful r.limit m r.low };

    ghost present = { λ r m l. limited_present r.limit m l r.low };
}

// The limit is the height, whatever the height of the game below.
impl<G: Game> Bounded for Layered<G, MoveLimit> {
    ghost bounded = { λ s. limited_height s.rule.limit (G.Game.means s.game) s.rule.low };

    ghost room = { λ s. limited_room s.rule.limit (G.Game.means s.game) (G.Game.line s.game) };

    fn height(&self) -> u32 {
        self.rule.limit
    }
}
