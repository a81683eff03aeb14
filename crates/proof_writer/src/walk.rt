// The walk that puts the moves of the claiming side.
ghost use Rattle.std.specs.Prelude.{◌≡◌, ◌<◌, ◌≤◌, length, None};
ghost use Rattle.proof_method.specs.Strategy.{bit};
ghost use Rattle.proof_writer.specs.Writing.{Framed, Puts, Walks, Plays, Owns, PlaysAll, Solves, Starts};

use crate::refusal::WriteRefusal;
use codec::put_number;
use game::interface::Bounded;
use proof_method::state::State;
use search::memory::SearchMemory;
use search::solve::solve;
use search_method::claim::Claim;
use search_method::kinds::Answer;
use store::interface::Store;

// A number is put, if it fits.
fn put(out: &mut [u8], state: State, number: u32) -> Result<State, WriteRefusal>
    requires { state.at ≤ length out.old }
    ensures is { Puts number state out.old out.new result }
    ensures framed { Framed state out.old out.new result }
{
    let at = put_number(out, state.at, number).ok_or(WriteRefusal::NoRoom)?;
    Ok(State { at, ..state })
}

// What the walk works with. No search is refused, as the floor can be asked for and there is memory enough. Each reference
// has a lifetime of its own: with one for all of them the function that lends them gets no proof. The place and the plays left
// are no part of it, since only a step that goes on hands them back.
#[derive(Drop)]
pub(crate) struct Writer<'g, 's, 'a, 'm, 'o, G: Bounded, S: Store> {
    pub(crate) game: &'g mut G,
    pub(crate) store: &'s mut S,
    pub(crate) memory: &'a mut SearchMemory<'m>,
    pub(crate) out: &'o mut [u8],
    pub(crate) claim: Claim,
    ghost low: { 1 ≤ claim.floor },
    ghost high: { claim.floor ≤ 2 },
    ghost lines: { 97 ≤ length memory.now.lines.now },
    ghost moves: { 6_208 ≤ length memory.now.moves.now },
}

impl<G: Bounded, S: Store> Writer<'_, '_, '_, '_, '_, G, S> {
    ghost use Rattle.proof_writer.specs.Leaving.{Leaves};

    // A legal move is played, the walk goes on, and the move is taken back.
    #[cycle(walk)]
    fn step(&mut self, k: u32, state: State) -> Result<State, WriteRefusal>
        requires legal { k < ((G.Game.means self.old.game.now).view (G.Game.line self.old.game.now)).moves }
        requires inside { state.at ≤ length self.old.out.now }
        ensures is { Plays S.Store.store (G.Game.means self.old.game.now) self.old.claim (G.Game.line self.old.game.now) k state self.old.out.now self.old.store.now self.new.out.now self.new.store.now result }
        ensures framed { Framed state self.old.out.now self.new.out.now result }
        ensures leaves { Leaves G.Game.means G.Game.line self.old self.new }
    {
        if state.left == 0 {
            return Err(WriteRefusal::OutOfBudget);
        }
        let _ = self.game.play(k);
        let below = self.walk(
            None,
            State {
                left: state.left - 1,
                ..state
            },
        );
        let _ = self.game.take_back();
        below
    }

    // A move of the claiming side: its number, and then its play. A solved move is always legal.
    #[cycle(walk)]
    fn own(&mut self, k: u32, state: State) -> Result<State, WriteRefusal>
        requires inside { state.at ≤ length self.old.out.now }
        ensures is { Owns S.Store.store (G.Game.means self.old.game.now) self.old.claim (G.Game.line self.old.game.now) k state self.old.out.now self.old.store.now self.new.out.now self.new.store.now result }
        ensures framed { Framed state self.old.out.now self.new.out.now result }
        ensures leaves { Leaves G.Game.means G.Game.line self.old self.new }
    {
        if k >= self.game.moves() {
            return Err(WriteRefusal::OutOfBudget);
        }
        let after = put(self.out, state, k)?;
        self.step(k, after)
    }

    // The turn of the claiming side: the line is solved for the move.
    #[cycle(walk)]
    fn own_turn(&mut self, state: State) -> Result<State, WriteRefusal>
        requires inside { state.at ≤ length self.old.out.now }
        ensures is { Solves S.Store.store (G.Game.means self.old.game.now) self.old.claim (G.Game.line self.old.game.now) state self.old.out.now self.old.store.now self.new.out.now self.new.store.now result }
        ensures framed { Framed state self.old.out.now self.new.out.now result }
        ensures leaves { Leaves G.Game.means G.Game.line self.old self.new }
    {
        let floor = u32::from(self.claim.floor);
        match solve(self.game, self.store, floor, state.left, self.memory)? {
            Answer::OutOfBudget { .. } => Err(WriteRefusal::OutOfBudget),
            Answer::Solved { best, count, .. } => self.own(
                u32::from(best),
                State {
                    left: state.left - count,
                    ..state
                },
            ),
        }
    }

    // Every move of the other side in order.
    #[cycle(walk)]
    fn all_moves(&mut self, start: State) -> Result<State, WriteRefusal>
        requires inside { start.at ≤ length self.old.out.now }
        ensures is { PlaysAll S.Store.store (G.Game.means self.old.game.now) self.old.claim (G.Game.line self.old.game.now) start self.old.out.now self.old.store.now self.new.out.now self.new.store.now result }
        ensures framed { Framed start self.old.out.now self.new.out.now result }
        ensures leaves { Leaves G.Game.means G.Game.line self.old self.new }
    {
        let mut state = start;
        for k in 0..self.game.moves() {
            state = self.step(k, state)?;
        }
        Ok(state)
    }

    // The walk from the game's line, whose move may be known already. The game is at that line again on every way out.
    #[cycle(walk)]
    fn walk(&mut self, known: Option<u32>, state: State) -> Result<State, WriteRefusal>
        requires inside { state.at ≤ length self.old.out.now }
        ensures is { Walks S.Store.store (G.Game.means self.old.game.now) self.old.claim (G.Game.line self.old.game.now) known state self.old.out.now self.old.store.now self.new.out.now self.new.store.now result }
        ensures framed { Framed state self.old.out.now self.new.out.now result }
        ensures leaves { Leaves G.Game.means G.Game.line self.old self.new }
    {
        if self.game.score().is_some() {
            return Ok(state);
        }
        if !self.claim.claims(self.game.turn()) {
            return self.all_moves(state);
        }
        match known {
            Some(k) => self.own(k, state),
            None => self.own_turn(state),
        }
    }

    // The two numbers of the claim, then the walk from the line whose move is known.
    pub(crate) fn put_file(&mut self, best: u32, state: State) -> Result<State, WriteRefusal>
        requires inside { state.at ≤ length self.old.out.now }
        ensures is { Starts S.Store.store (G.Game.means self.old.game.now) self.old.claim (G.Game.line self.old.game.now) best state self.old.out.now self.old.store.now self.new.out.now self.new.store.now result }
        ensures framed { Framed state self.old.out.now self.new.out.now result }
        ensures leaves { Leaves G.Game.means G.Game.line self.old self.new }
    {
        let verdict = put(self.out, state, u32::from(self.claim.floor))?;
        let moves = put(self.out, verdict, u32::from(self.claim.yes))?;
        self.walk(Some(best), moves)
    }
}
