// The two calls that open two sessions: one takes requests and room for replies in two lists, the other exchanges, each of
// which is a request with its reply. Neither calls the other, since nothing lends the room to copy a list.
ghost use Rattle.std.specs.Prelude.{◌≡◌, length, drop};
ghost use Rattle.life.specs.Promise.{Promised};
ghost use Rattle.search_method.specs.Memory.{Lent};
ghost use Rattle.session.specs.Requests.{room_of, asked};
ghost use Rattle.session.specs.Runs.{RequestsRan, Ran, InTurn};

use crate::living::{live, live_exchanges};
use crate::request::{Exchange, Reply, Request};
use crate::session::Session;
use crate::step::Desk;
use game::interface::Bounded;
use search::memory::SearchMemory;
use store::interface::Store;

// Opens two sessions over any two bounded games and any two stores, and makes a list of requests in the first and then
// another in the second, with one buffer and one work memory. Each list is made as far as there is room for its
// replies, and replies past it stay. From reachable lines each is a life of which requests and replies tell all that
// happened, and any two such lives keep the promise. A session's game, store and lists stay parameters of their own: of a
// struct that holds them a contract could tell the replies only by the places of its fields.
#[tactic(auto, using(crate::proofs::Lives::together))]
pub fn requests_in_two_sessions<G: Bounded, S: Store, K: Bounded, R: Store>(
    game: G,
    store: S,
    requests: &[Request],
    replies: &mut [Option<Reply>],
    other_game: K,
    other_store: R,
    other_requests: &[Request],
    other_replies: &mut [Option<Reply>],
    bytes: &mut [u8],
    memory: &mut SearchMemory<'_>,
) -> (Session<G, S>, Session<K, R>)
    ensures same { (G.Game.means result.0.game ≡ G.Game.means game) × (K.Game.means result.1.game ≡ K.Game.means other_game) }
    ensures ran { InTurn (RequestsRan (G.Game.means game) S.Store.store (G.Game.line game) store (room_of memory.old) requests.now replies.new (G.Game.line result.0.game) result.0.store) (RequestsRan (K.Game.means other_game) R.Store.store (K.Game.line other_game) other_store (room_of memory.old) other_requests.now other_replies.new (K.Game.line result.1.game) result.1.store) bytes.old bytes.new }
    ensures rest { (drop (length requests.now) replies.new ≡ drop (length requests.now) replies.old) × (drop (length other_requests.now) other_replies.new ≡ drop (length other_requests.now) other_replies.old) }
    ensures lent { Lent memory.old memory.new }
    ensures promised { Promised S.Store.store R.Store.store }
{
    let mut desk = Desk { bytes, written: 0 };
    let first = live(game, store, requests, replies, &mut desk, memory);
    let second = live(
        other_game,
        other_store,
        other_requests,
        other_replies,
        &mut desk,
        memory,
    );
    (first, second)
}

// The same of exchanges: all are made, and each reply is put beside its request, in place of what stood there. The requests
// stay.
#[tactic(auto, using(crate::proofs::Lives::exchanged))]
pub fn in_two_sessions<G: Bounded, S: Store, K: Bounded, R: Store>(
    game: G,
    store: S,
    exchanges: &mut [Exchange],
    other_game: K,
    other_store: R,
    other_exchanges: &mut [Exchange],
    bytes: &mut [u8],
    memory: &mut SearchMemory<'_>,
) -> (Session<G, S>, Session<K, R>)
    ensures same { (G.Game.means result.0.game ≡ G.Game.means game) × (K.Game.means result.1.game ≡ K.Game.means other_game) }
    ensures asked { (asked exchanges.new ≡ asked exchanges.old) × (asked other_exchanges.new ≡ asked other_exchanges.old) }
    ensures ran { InTurn (Ran (G.Game.means game) S.Store.store (G.Game.line game) store (room_of memory.old) exchanges.new (G.Game.line result.0.game) result.0.store) (Ran (K.Game.means other_game) R.Store.store (K.Game.line other_game) other_store (room_of memory.old) other_exchanges.new (K.Game.line result.1.game) result.1.store) bytes.old bytes.new }
    ensures lent { Lent memory.old memory.new }
    ensures promised { Promised S.Store.store R.Store.store }
{
    let mut desk = Desk { bytes, written: 0 };
    let first = live_exchanges(game, store, exchanges, &mut desk, memory);
    let second = live_exchanges(other_game, other_store, other_exchanges, &mut desk, memory);
    (first, second)
}
