// The initial evaluation of a line: each move is played, judged and taken back.
ghost use Rattle.std.specs.Prelude.{◌≡◌, ℕ, ◌<◌, length, Some, None};
ghost use Rattle.search.specs.Moves.{here};
ghost use Rattle.search.specs.Does.{Reads, filled};
ghost use Rattle.search.specs.Parts.{after, judging, appraising, confirming, evaluating};

use crate::pairs::{UNKNOWN, open_pair, verdict_pair};
use crate::searcher::Searcher;
use game::interface::Bounded;
use search_method::kinds::Pair;
use store::entry::{Entry, Finding};
use store::interface::Store;

impl<G: Bounded, S: Store> Searcher<'_, G, S> {
    // A verdict found by another path is simulated, and counts if that holds.
    fn confirm(&mut self, entry: Entry, yes: bool) -> Option<Pair>
        requires going { (here G.Game.means G.Game.line self.old).score ≡ None }
        ensures { Reads G.Game.means G.Game.line S.Store.store (confirming entry yes) self.old result self.new }
    {
        if self.simulate(yes, Some(entry))? {
            Some(verdict_pair(yes))
        } else {
            Some(UNKNOWN)
        }
    }

    // The pair that an entry gives to the game's line: open numbers, a settled verdict, or one that is to be confirmed.
    fn appraise(&mut self, entry: Entry) -> Option<Pair>
        requires going { (here G.Game.means G.Game.line self.old).score ≡ None }
        ensures { Reads G.Game.means G.Game.line S.Store.store (appraising (Some entry)) self.old result self.new }
    {
        match entry.finding {
            Finding::Open { pn, dn } => Some(open_pair(pn, dn)),
            Finding::Verdict {
                yes,
                independent,
                ..
            } => {
                if independent && self.game.independent() {
                    return Some(verdict_pair(yes));
                }
                self.confirm(entry, yes)
            }
        }
    }

    // The pair of the game's line, which was just played. None where no play is left.
    fn judge_now(&mut self) -> Option<Pair>
        ensures { Reads G.Game.means G.Game.line S.Store.store judging self.old result self.new }
    {
        if let Some(score) = self.game.score() {
            return Some(verdict_pair(score.points() >= self.floor));
        }
        let key = self.key();
        match self.store.probe(key) {
            Some(entry) => self.appraise(entry),
            None => Some(UNKNOWN),
        }
    }

    // One move is played, judged and taken back.
    fn judge_move(&mut self, k: u32) -> Option<Pair>
        requires legal { k < (here G.Game.means G.Game.line self.old).moves }
        ensures { Reads G.Game.means G.Game.line S.Store.store (after k judging) self.old result self.new }
    {
        self.play(k)?;
        let pair = self.judge_now();
        self.take_back();
        pair
    }

    // The pairs of all moves of the game's line, in order. None where no play is left.
    pub(crate) fn evaluate(&mut self, pairs: &mut [Pair]) -> Option<()>
        requires all { length pairs.old ≡ (here G.Game.means G.Game.line self.old).moves }
        ensures { Reads G.Game.means G.Game.line S.Store.store evaluating self.old (filled result pairs.new) self.new }
    {
        for (k, pair) in pairs.iter_mut().enumerate() {
            *pair = self.judge_move(k as u32)?;
        }
        Some(())
    }
}
