// The expansion of a line: its most promising move is expanded, turn after turn, until a limit is reached.
//
// The work memory goes down as two slices, of which each line splits off its own part. The facts about a limit stand in
// the contracts, and in no type: the caller of the search may make a `LineRecord` of any numbers, and a limit is a pair as the
// definition has it, of which a store may show any.
ghost use Rattle.std.specs.Prelude.{◌≡◌, ℕ, ◌-◌, ◌*◌, ◌<◌, ◌≤◌, length};
ghost use Rattle.std.specs.List.{All};
ghost use Rattle.search_method.specs.Search.{moves_left};
ghost use Rattle.search.specs.Moves.{here};
ghost use Rattle.search.specs.Does.{Does};
ghost use Rattle.search.specs.Parts.{after, expanding, turning};
ghost use Rattle.search.specs.Numbers.{Small, Costs};
ghost use Rattle.search.specs.Lines.{record_of};

use crate::memory::LineRecord;
use crate::pairs::{Row, reaches};
use crate::searcher::Searcher;
use game::interface::Bounded;
use search_method::kinds::{Pair, Worked};
use store::entry::Finding;
use store::interface::Store;

impl<G: Bounded, S: Store> Searcher<'_, G, S> {
    // What is kept of the game's line.
    fn describe(&self, limit: Pair) -> LineRecord
        ensures { result ≡ record_of (G.Game.means self.now.game.now) self.now.floor (G.Game.line self.now.game.now) limit }
    {
        LineRecord {
            key: self.key(),
            black: self.game.turn().is_black(),
            independent: self.game.independent(),
            limit,
        }
    }

    // The game's line is expanded under limits. There is memory for it and for each longer line: a record of the line, and
    // the pairs of 64 moves. None where no play is left.
    #[cycle(expansion)]
    pub(crate) fn expand(
        &mut self,
        limit: Pair,
        lines: &mut [LineRecord],
        moves: &mut [Pair],
    ) -> Option<Worked>
        requires records { 97 - length (G.Game.line self.old.game.now) ≤ length lines.old }
        requires room { 64 * (97 - length (G.Game.line self.old.game.now)) ≤ length moves.old }
        requires capped { Small limit }
        ensures { Does G.Game.means G.Game.line S.Store.store (expanding limit) self.old result self.new }
    {
        if self.game.played() >= self.game.height() {
            return None;
        }
        let (own, deeper) = lines.split_at_mut(1);
        own[0] = self.describe(limit);
        self.expand_line(&own[0], deeper, moves)
    }

    // The same at a line shorter than the height, with its record: its moves are evaluated, and then it takes its turns.
    #[cycle(expansion)]
    fn expand_line(
        &mut self,
        line: &LineRecord,
        deeper: &mut [LineRecord],
        moves: &mut [Pair],
    ) -> Option<Worked>
        requires going { 0 < moves_left (G.Game.means self.old.game.now) (G.Game.line self.old.game.now) }
        requires short { length (G.Game.line self.old.game.now) < 96 }
        requires told { line.now ≡ record_of (G.Game.means self.old.game.now) self.old.floor (G.Game.line self.old.game.now) line.now.limit }
        requires records { 96 - length (G.Game.line self.old.game.now) ≤ length deeper.old }
        requires room { 64 * (97 - length (G.Game.line self.old.game.now)) ≤ length moves.old }
        requires capped { Small line.now.limit }
        ensures { Does G.Game.means G.Game.line S.Store.store (expanding line.now.limit) self.old result self.new }
    {
        let (pairs, rest) = moves.split_at_mut(self.game.moves() as usize);
        self.evaluate(pairs)?;
        self.take_turns(line, pairs, deeper, rest)
    }

    // After the initial evaluation: the most promising move is expanded until a limit is reached.
    #[cycle(expansion)]
    fn take_turns(
        &mut self,
        line: &LineRecord,
        pairs: &mut [Pair],
        deeper: &mut [LineRecord],
        rest: &mut [Pair],
    ) -> Option<Worked>
        requires told { line.now ≡ record_of (G.Game.means self.old.game.now) self.old.floor (G.Game.line self.old.game.now) line.now.limit }
        requires records { 96 - length (G.Game.line self.old.game.now) ≤ length deeper.old }
        requires room { 64 * (96 - length (G.Game.line self.old.game.now)) ≤ length rest.old }
        requires all { length pairs.old ≡ (here G.Game.means G.Game.line self.old).moves }
        requires small { All Small pairs.old }
        requires capped { Small line.now.limit }
        ensures { (f : ℕ) → self.old.left < f → Does G.Game.means G.Game.line S.Store.store (turning f line.now.limit pairs.old) self.old result self.new }
    {
        'turns: loop {
            let row = Row {
                black: line.black,
                pairs: &*pairs,
            };
            let pair = row.pair();
            if reaches(line.limit, pair) {
                let finding = row.finding(line.independent);
                self.note(line.key, finding);
                return Some(Worked { pair, finding });
            }
            let k = row.choice(line.limit);
            let next = row.limits(line.limit, k);
            let Some(found) = self.expand_move(k as u32, next, deeper, rest) else {
                self.note(
                    line.key,
                    Finding::Open {
                        pn: pair.pn,
                        dn: pair.dn,
                    },
                );
                return None;
            };
            pairs[k] = found.pair;
        }
    }

    // One move is played, expanded and taken back.
    #[cycle(expansion)]
    fn expand_move(
        &mut self,
        k: u32,
        limit: Pair,
        lines: &mut [LineRecord],
        moves: &mut [Pair],
    ) -> Option<Worked>
        requires legal { k < (here G.Game.means G.Game.line self.old).moves }
        requires records { 96 - length (G.Game.line self.old.game.now) ≤ length lines.old }
        requires room { 64 * (96 - length (G.Game.line self.old.game.now)) ≤ length moves.old }
        requires capped { Small limit }
        ensures does { Does G.Game.means G.Game.line S.Store.store (after k (expanding limit)) self.old result self.new }
        ensures costs { Costs result self.old.left self.new.left }
    {
        self.play(k)?;
        let found = self.expand(limit, lines, moves);
        self.take_back();
        found
    }
}
