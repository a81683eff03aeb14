// Writing a proof file.
ghost use Rattle.std.specs.Prelude.{◌≡◌, ◌≤◌, length};
ghost use Rattle.search_method.specs.Memory.{Lent};
ghost use Rattle.search_method.specs.Tree.{Runs};
ghost use Rattle.search.specs.Solve.{count_of};
ghost use Rattle.game.specs.Kept.{Kept};
ghost use Rattle.proof_method.specs.Write.{after_solve, write_in, buffer};
ghost use Rattle.proof_writer.specs.Writing.{written_by, Fits, Past};

use crate::refusal::WriteRefusal;
use crate::walk::Writer;
use game::interface::Bounded;
use proof_method::state::State;
use search::memory::SearchMemory;
use search::solve::solve;
use search_method::claim::Claim;
use search_method::kinds::Answer;
use store::interface::Store;

// A proof that was written: its verdict, its length and the plays made for it, the search's included.
#[derive(Clone, Copy, PartialEq, Eq, Debug)]
pub struct Written {
    pub yes: bool,
    pub length: usize,
    pub plays: u32,
}

// Puts the file of what the search answered; where that fails the buffer may hold a part of it. The floor is a number, as a bound on
// points; that it is 1 or 2, and that memory suffices, are ghost fields of the `Writer` that is made here.
fn put_answer<G: Bounded, S: Store>(
    game: &mut G,
    store: &mut S,
    memory: &mut SearchMemory<'_>,
    out: &mut [u8],
    floor: u8,
    budget: u32,
    answer: Answer,
) -> Result<Written, WriteRefusal>
    requires floor { (1 ≤ floor) × (floor ≤ 2) }
    requires memory { (97 ≤ length memory.old.lines.now) × (6_208 ≤ length memory.old.moves.now) }
    requires counted { count_of answer ≤ budget }
    ensures is { Runs S.Store.store (after_solve 7 (G.Game.means game.old) (G.Game.line game.old) floor budget (length out.old) answer) store.old store.new (written_by out.new result) }
    ensures past { Past out.old out.new result }
    ensures lent { Lent memory.old memory.new }
    ensures kept { Kept G.Game.means G.Game.line game.old game.new }
{
    let Answer::Solved { yes, best, count } = answer else {
        return Err(WriteRefusal::OutOfBudget);
    };
    let mut writer = Writer {
        game,
        store,
        memory,
        out,
        claim: Claim { floor, yes },
    };
    let start = State {
        at: 0,
        left: budget - count,
    };
    let end = writer.put_file(u32::from(best), start)?;
    Ok(Written {
        yes,
        length: end.at,
        plays: budget - end.left,
    })
}

// Writes a proof of the line's verdict for the floor into the buffer. The game is at its line again on every way out.
#[tactic(auto, using(crate::proofs::Steps::written_in))]
pub fn write<G: Bounded, S: Store>(
    game: &mut G,
    store: &mut S,
    floor: u32,
    budget: u32,
    memory: &mut SearchMemory<'_>,
    out: &mut [u8],
) -> Result<Written, WriteRefusal>
    ensures is { Runs S.Store.store (write_in (length memory.old.lines.now) (length memory.old.moves.now) (G.Game.means game.old) (G.Game.line game.old) floor budget (length out.old)) store.old store.new (written_by out.new result) }
    ensures buffer { out.new ≡ buffer out.old (written_by out.new result) }
    ensures fits { Fits out.new result }
    ensures lent { Lent memory.old memory.new }
    ensures kept { Kept G.Game.means G.Game.line game.old game.new }
{
    let answer = solve(game, store, floor, budget, memory)?;
    let written = put_answer(game, store, memory, out, floor as u8, budget, answer);
    if written.is_err() {
        out.fill(0);
    }
    written
}
