// Simulation: does a verdict that was found by another path hold here as well?
ghost use Rattle.std.specs.Prelude.{◌≡◌, ℕ, ◌<◌, None};
ghost use Rattle.search.specs.Moves.{here};
ghost use Rattle.search.specs.Does.{Reads};
ghost use Rattle.search.specs.Parts.{after, simulation, holding, all_holding};
ghost use Rattle.search.specs.Steps.{step_of};

use crate::searcher::Searcher;
use game::interface::Bounded;
use search_method::claim::Claim;
use store::entry::{Entry, Finding};
use store::interface::Store;

// What a simulation does at a line that is not over: it stops, or goes on with one move, or with all. It is decided apart, over
// plain values, and proved there; in one function with the plays each way out would have to show the cases of the definition too.
#[derive(Clone, Copy)]
pub(crate) enum Step {
    Stop(bool),
    One(u32),
    All(u32),
}

impl<G: Bounded, S: Store> Searcher<'_, G, S> {
    // The claim of the verdict, for the floor that is asked for.
    fn claim(&self, yes: bool) -> Claim
        ensures { result ≡ record { floor = self.now.floor; yes = yes } }
    {
        Claim {
            floor: self.floor,
            yes,
        }
    }

    // What to do at a line that is not over, by what is known of it.
    fn step(&self, yes: bool, found: Option<Entry>) -> Step
        ensures { result ≡ step_of (here G.Game.means G.Game.line self.now) yes found }
    {
        let claims = self.claim(yes).claims(self.game.turn());
        if let Some(
            Entry {
                finding: Finding::Verdict {
                    yes: said,
                    independent,
                    best,
                },
                ..
            },
        ) = found
        {
            if independent && self.game.independent() {
                return Step::Stop(said == yes);
            }
            if claims && said == yes && (best as u32) < self.game.moves() {
                return Step::One(best as u32);
            }
        }
        if claims {
            Step::Stop(false)
        } else {
            Step::All(self.game.moves())
        }
    }

    // Does the verdict hold at the game's line? By its score, or by what the store shows. None where no play is left.
    #[cycle(simulation)]
    fn holds_now(&mut self, yes: bool) -> Option<bool>
        ensures { Reads G.Game.means G.Game.line S.Store.store (holding yes) self.old result self.new }
    {
        if let Some(score) = self.game.score() {
            return Some(self.claim(yes).given_by(score));
        }
        let key = self.key();
        let found = self.store.probe(key);
        self.simulate(yes, found)
    }

    // The same at a line that is not over, with the entry that the store shows. The game comes back to its line on every
    // way out.
    #[cycle(simulation)]
    pub(crate) fn simulate(&mut self, yes: bool, found: Option<Entry>) -> Option<bool>
        requires going { (here G.Game.means G.Game.line self.old).score ≡ None }
        ensures { Reads G.Game.means G.Game.line S.Store.store (simulation yes found) self.old result self.new }
    {
        match self.step(yes, found) {
            Step::Stop(held) => Some(held),
            Step::One(k) => self.try_move(yes, k),
            Step::All(n) => self.try_all(yes, n),
        }
    }

    // One move is played, simulated and taken back.
    #[cycle(simulation)]
    fn try_move(&mut self, yes: bool, k: u32) -> Option<bool>
        requires legal { k < (here G.Game.means G.Game.line self.old).moves }
        ensures { Reads G.Game.means G.Game.line S.Store.store (after k (holding yes)) self.old result self.new }
    {
        self.play(k)?;
        let held = self.holds_now(yes);
        self.take_back();
        held
    }

    // Every move in order, until one does not hold.
    #[cycle(simulation)]
    fn try_all(&mut self, yes: bool, moves: u32) -> Option<bool>
        requires all { moves ≡ (here G.Game.means G.Game.line self.old).moves }
        ensures { Reads G.Game.means G.Game.line S.Store.store (all_holding yes 0 moves) self.old result self.new }
    {
        for k in 0..moves {
            if !self.try_move(yes, k)? {
                return Some(false);
            }
        }
        Some(true)
    }
}
