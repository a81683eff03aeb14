// Checking a proof file.
ghost use Rattle.std.specs.Prelude.{◌≡◌, ◌≤◌, length, None, ok_or};
ghost use Rattle.codec.specs.Files.{number_at};
ghost use Rattle.proof_method.specs.Check.{check as check_of, check_in};
ghost use Rattle.game.specs.Kept.{Kept};
ghost use Rattle.proof_file.specs.Faults.{claim_number, Within, Walks, Descends, GoesThrough, checked_by, proof_of};

use crate::fault::{Fault, Reason};
use codec::{Number, read_number};
use game::interface::Bounded;
use proof_method::state::State;
use search_method::claim::Claim;
use search_method::memory::WorkMemory;

// A proof file that check accepted: its claim, its length and the plays of its walk. Only check makes one.
#[derive(Drop)]
pub struct CheckedProof {
    claim: Claim,
    length: usize,
    plays: u32,
}

impl CheckedProof {
    pub fn floor(&self) -> u8
        ensures { result ≡ (proof_of self.now).floor }
    {
        self.claim.floor
    }

    pub fn yes(&self) -> bool
        ensures { result ≡ (proof_of self.now).yes }
    {
        self.claim.yes
    }

    pub fn length(&self) -> usize
        ensures { result ≡ (proof_of self.now).size }
    {
        self.length
    }

    pub fn plays(&self) -> u32
        ensures { result ≡ (proof_of self.now).plays }
    {
        self.plays
    }
}

// The number at a place of a proof, so many moves below the present line.
fn read_at(proof: &[u8], at: usize, depth: u32) -> Result<Number, Fault>
    ensures { result ≡ ok_or (number_at proof.now at) (record { reason = Reason.NotANumber; place = at; depth = depth }) }
{
    read_number(proof, at).ok_or(Fault {
        reason: Reason::NotANumber,
        place: at,
        depth,
    })
}

// One of the two numbers of the claim, which is from `low` to `high`.
fn read_claim(proof: &[u8], at: usize, low: u32, high: u32) -> Result<Number, Fault>
    ensures { result ≡ claim_number at low high (number_at proof.now at) }
{
    let number = read_at(proof, at, 0)?;
    if number.value < low || high < number.value {
        return Err(Fault {
            reason: Reason::NotAClaim,
            place: at,
            depth: 0,
        });
    }
    Ok(number)
}

// The walk through a proof whose claim was read. The game is no part of it: lent as a whole, the proof and the claim cannot
// change, and no clause has to say so. Nor is the state, which only a walk that goes on hands back.
#[derive(Drop)]
struct Walker<'a> {
    proof: &'a [u8],
    claim: Claim,
}

impl Walker<'_> {
    // A move from the number at `from` is played, walked and taken back. Its legality is tested before the budget.
    #[cycle(walk)]
    fn descend<G: Bounded>(
        &self,
        game: &mut G,
        k: u32,
        from: usize,
        depth: u32,
        state: State,
    ) -> Result<State, Fault>
        requires going { ((G.Game.means game.old).view (G.Game.line game.old)).score ≡ None }
        requires deep { depth ≤ length (G.Game.line game.old) }
        requires inside { (state.at ≤ length self.now.proof.now) × (from ≤ length self.now.proof.now) }
        ensures is { Descends (G.Game.means game.old) self.now.proof.now self.now.claim (G.Game.line game.old) depth k from state result }
        ensures within { Within self.now.proof.now state.left result }
        ensures kept { Kept G.Game.means G.Game.line game.old game.new }
    {
        if state.left == 0 && k < game.moves() {
            return Err(Fault {
                reason: Reason::OutOfBudget,
                place: state.at,
                depth,
            });
        }
        game.play(k).map_err(|refusal| Fault {
            reason: Reason::Refused(refusal),
            place: from,
            depth,
        })?;
        let below = self.walk(
            game,
            depth + 1,
            State {
                left: state.left - 1,
                ..state
            },
        );
        let _ = game.take_back();
        below
    }

    // Every move of the other side in order.
    #[cycle(walk)]
    fn all_moves<G: Bounded>(&self, game: &mut G, depth: u32, start: State) -> Result<State, Fault>
        requires going { ((G.Game.means game.old).view (G.Game.line game.old)).score ≡ None }
        requires deep { depth ≤ length (G.Game.line game.old) }
        requires inside { start.at ≤ length self.now.proof.now }
        ensures is { GoesThrough (G.Game.means game.old) self.now.proof.now self.now.claim (G.Game.line game.old) depth start result }
        ensures within { Within self.now.proof.now start.left result }
        ensures kept { Kept G.Game.means G.Game.line game.old game.new }
    {
        let mut state = start;
        for k in 0..game.moves() {
            state = self.descend(game, k, state.at, depth, state)?;
        }
        Ok(state)
    }

    // The walk from the game's line, where the game is again on every way out.
    #[cycle(walk)]
    #[tactic(auto, using(crate::proofs::Walking::line_steps))]
    fn walk<G: Bounded>(&self, game: &mut G, depth: u32, state: State) -> Result<State, Fault>
        requires deep { depth ≤ length (G.Game.line game.old) }
        requires inside { state.at ≤ length self.now.proof.now }
        ensures is { Walks (G.Game.means game.old) self.now.proof.now self.now.claim (G.Game.line game.old) depth state result }
        ensures within { Within self.now.proof.now state.left result }
        ensures kept { Kept G.Game.means G.Game.line game.old game.new }
    {
        if let Some(score) = game.score() {
            if self.claim.given_by(score) {
                return Ok(state);
            }
            return Err(Fault {
                reason: Reason::Denied,
                place: state.at,
                depth,
            });
        }
        if !self.claim.claims(game.turn()) {
            return self.all_moves(game, depth, state);
        }
        let number = read_at(self.proof, state.at, depth)?;
        let after = State {
            at: number.end,
            ..state
        };
        self.descend(game, number.value, state.at, depth, after)
    }
}

// The claim, then the walk.
fn check_bytes<G: Bounded>(game: &mut G, proof: &[u8], budget: u32) -> Result<CheckedProof, Fault>
    ensures is { checked_by result ≡ check_of (G.Game.means game.old) (G.Game.line game.old) proof.now budget }
    ensures kept { Kept G.Game.means G.Game.line game.old game.new }
{
    let floor = read_claim(proof, 0, 1, 2)?;
    let verdict = read_claim(proof, floor.end, 0, 1)?;
    let claim = Claim {
        floor: floor.value as u8,
        yes: verdict.value == 1,
    };
    let start = State {
        at: verdict.end,
        left: budget,
    };
    let end = Walker { proof, claim }.walk(game, 0, start)?;
    if end.at < proof.len() {
        return Err(Fault {
            reason: Reason::BytesLeft,
            place: end.at,
            depth: 0,
        });
    }
    Ok(CheckedProof {
        claim,
        length: proof.len(),
        plays: budget - end.left,
    })
}

// Checks a proof file at the game's line, where the game is again on every way out.
pub fn check<G: Bounded, L, M>(
    game: &mut G,
    proof: &[u8],
    budget: u32,
    memory: &WorkMemory<'_, L, M>,
) -> Result<CheckedProof, Fault>
    ensures is { checked_by result ≡ check_in (length memory.now.lines.now) (length memory.now.moves.now) (G.Game.means game.old) (G.Game.line game.old) proof.now budget }
    ensures kept { Kept G.Game.means G.Game.line game.old game.new }
{
    if !memory.suffices() {
        return Err(Fault {
            reason: Reason::Memory,
            place: 0,
            depth: 0,
        });
    }
    check_bytes(game, proof, budget)
}
