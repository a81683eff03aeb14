// Requests, one after another, in a session.
ghost use Rattle.std.specs.Prelude.{◌≡◌, length, drop};
ghost use Rattle.search_method.specs.Memory.{Lent};
ghost use Rattle.session.specs.Requests.{desk_of, room_of, asked};
ghost use Rattle.session.specs.Runs.{RequestsRan, Ran};

use crate::request::{Exchange, Reply, Request};
use crate::session::Session;
use crate::step::Desk;
use game::interface::Bounded;
use search::memory::SearchMemory;
use store::interface::Store;

// Opens a session and makes the requests in order, as far as there is room for their replies; the other replies stay.
#[tactic(auto, using(crate::proofs::Lives::request_lives))]
pub(crate) fn live<G: Bounded, S: Store>(
    game: G,
    store: S,
    requests: &[Request],
    replies: &mut [Option<Reply>],
    desk: &mut Desk<'_>,
    memory: &mut SearchMemory<'_>,
) -> Session<G, S>
    ensures same { G.Game.means result.game ≡ G.Game.means game }
    ensures ran { RequestsRan (G.Game.means game) S.Store.store (G.Game.line game) store (room_of memory.old) requests.now replies.new (G.Game.line result.game) result.store (desk_of desk.old) (desk_of desk.new) }
    ensures rest { drop (length requests.now) replies.new ≡ drop (length requests.now) replies.old }
    ensures same_buffer { desk.new.bytes.ghost_name ≡ desk.old.bytes.ghost_name }
    ensures room { room_of memory.new ≡ room_of memory.old }
    ensures lent { Lent memory.old memory.new }
{
    let mut session = Session::open(game, store);
    let made = requests.len().min(replies.len());
    for (i, request) in requests[..made].iter().enumerate() {
        replies[i] = Some(session.make(*request, desk, memory));
    }
    session
}

// Opens a session and makes the requests in order; each reply is put beside its request.
#[tactic(auto, using(crate::proofs::Lives::lives))]
pub(crate) fn live_exchanges<G: Bounded, S: Store>(
    game: G,
    store: S,
    exchanges: &mut [Exchange],
    desk: &mut Desk<'_>,
    memory: &mut SearchMemory<'_>,
) -> Session<G, S>
    ensures same { G.Game.means result.game ≡ G.Game.means game }
    ensures asked { asked exchanges.new ≡ asked exchanges.old }
    ensures ran { Ran (G.Game.means game) S.Store.store (G.Game.line game) store (room_of memory.old) exchanges.new (G.Game.line result.game) result.store (desk_of desk.old) (desk_of desk.new) }
    ensures same_buffer { desk.new.bytes.ghost_name ≡ desk.old.bytes.ghost_name }
    ensures room { room_of memory.new ≡ room_of memory.old }
    ensures lent { Lent memory.old memory.new }
{
    let mut session = Session::open(game, store);
    for exchange in exchanges.iter_mut() {
        exchange.reply = Some(session.make(exchange.request, desk, memory));
    }
    session
}
