// The call that settles a line for a floor.
ghost use Rattle.std.specs.Prelude.{◌≡◌, ℕ, ◌≤◌, length};
ghost use Rattle.search_method.specs.Refusals.{refusal_due};
ghost use Rattle.search_method.specs.Bound.{BudgetEnough};
ghost use Rattle.search_method.specs.Truth.{VerdictsTrue};
ghost use Rattle.search_method.specs.Memory.{Lent};
ghost use Rattle.search_method.specs.Tree.{Runs};
ghost use Rattle.search_method.specs.Search.{answer, solve as solved};
ghost use Rattle.game.specs.Kept.{Kept};
ghost use Rattle.search.specs.Does.{came};
ghost use Rattle.search.specs.Solve.{Answers, Within, Admitted, count_of};

use crate::memory::SearchMemory;
use crate::pairs::INF;
use crate::searcher::Searcher;
use game::interface::Bounded;
use search_method::kinds::{Answer, Pair, SolveRefusal, Worked};
use store::entry::Finding;
use store::interface::Store;

// The floor that is asked for, where that is one and there is memory enough.
fn admit(floor: u32, memory: &SearchMemory<'_>) -> Result<u8, SolveRefusal>
    ensures { Admitted floor (length memory.now.lines.now) (length memory.now.moves.now) result }
{
    if floor != 1 && floor != 2 {
        return Err(SolveRefusal::Floor);
    }
    if !memory.suffices() {
        return Err(SolveRefusal::Memory);
    }
    Ok(floor as u8)
}

// The answer from what was found with so many plays left of the budget.
fn answer_of(budget: u32, left: u32, found: Option<Worked>) -> Answer
    requires { left ≤ budget }
    ensures is { result ≡ answer budget (came found left) }
    ensures within { count_of result ≤ budget }
{
    let Some(worked) = found else {
        return Answer::OutOfBudget { count: budget };
    };
    let count = budget - left;
    match worked.finding {
        Finding::Verdict { yes, best, .. } => Answer::Solved { yes, best, count },
        Finding::Open { .. } => Answer::OutOfBudget { count },
    }
}

fn run<G: Bounded, S: Store>(
    game: &mut G,
    store: &mut S,
    floor: u8,
    budget: u32,
    memory: &mut SearchMemory<'_>,
) -> Answer
    requires records { 97 ≤ length memory.old.lines.now }
    requires room { 6208 ≤ length memory.old.moves.now }
    ensures runs { Runs S.Store.store (solved (G.Game.means game.old) (G.Game.line game.old) floor budget) store.old store.new result }
    ensures within { count_of result ≤ budget }
    ensures lent { Lent memory.old memory.new }
    ensures kept { Kept G.Game.means G.Game.line game.old game.new }
{
    if let Some(score) = game.score() {
        return Answer::Solved {
            yes: score.points() >= floor,
            best: 255,
            count: 0,
        };
    }
    let limit = Pair { pn: INF, dn: INF };
    let mut searcher = Searcher {
        game,
        store,
        floor,
        left: budget,
    };
    let found = searcher.expand(limit, memory.lines, memory.moves);
    answer_of(budget, searcher.left, found)
}

// Is the value of the game's line at least the floor? The answer is that of the search's definition, whatever stood in
// the work memory before, and the game is left at its line. Refused with 5 where the floor is not 1 or 2, then with 6
// where there are fewer than 97 line records or 6208 move records.
pub fn solve<G: Bounded, S: Store>(
    game: &mut G,
    store: &mut S,
    floor: u32,
    budget: u32,
    memory: &mut SearchMemory<'_>,
) -> Result<Answer, SolveRefusal>
    ensures answers { Answers S.Store.store (solved (G.Game.means game.old) (G.Game.line game.old) floor budget) (refusal_due floor (length memory.old.lines.now) (length memory.old.moves.now)) store.old store.new result }
    ensures within { Within budget result }
    ensures lent { Lent memory.old memory.new }
    ensures kept { Kept G.Game.means G.Game.line game.old game.new }
    ensures sound { VerdictsTrue S.Store.store }
    ensures enough { BudgetEnough }
{
    let floor = admit(floor, memory)?;
    Ok(run(game, store, floor, budget, memory))
}
