// One request of a session.
ghost use Rattle.std.specs.Prelude.{◌≡◌, take};
ghost use Rattle.search_method.specs.Memory.{Lent};
ghost use Rattle.session.specs.Requests.{desk_of, room_of, call_of, answer_of, Leaves};
ghost use Rattle.session.specs.Runs.{Makes};

use crate::request::{Reply, Request};
use crate::session::Session;
use game::interface::Bounded;
use search::memory::SearchMemory;
use store::interface::Store;

// The buffer that is lent to all calls, and how many of its first bytes the last write put there. Work memory is lent beside
// it: no proof was found for a write that lends both out of one struct.
#[derive(Drop)]
pub(crate) struct Desk<'a> {
    pub(crate) bytes: &'a mut [u8],
    pub(crate) written: usize,
}

impl Desk<'_> {
    // The first bytes, or all where there are no more.
    fn front(&self, count: usize) -> &[u8]
        ensures { result.now ≡ take count self.now.bytes.now }
    {
        &self.bytes[..count.min(self.bytes.len())]
    }

    // The bytes that the last write put there.
    fn last_written(&self) -> &[u8]
        ensures { result.now ≡ take self.now.written self.now.bytes.now }
    {
        self.front(self.written)
    }
}

impl<G: Bounded, S: Store> Session<G, S> {
    // Makes one request: the reply is what its call answers.
    #[tactic(auto, using(crate::proofs::Steps::steps))]
    pub(crate) fn make(
        &mut self,
        request: Request,
        desk: &mut Desk<'_>,
        memory: &mut SearchMemory<'_>,
    ) -> Reply
        ensures same { G.Game.means self.new.game ≡ G.Game.means self.old.game }
        ensures step { Makes G.Game.means G.Game.line S.Store.store self.old (call_of (room_of memory.old) (desk_of desk.old) request) (answer_of desk.new.bytes.now result) self.new }
        ensures leaves { Leaves result (desk_of desk.old) (desk_of desk.new) }
        ensures same_buffer { desk.new.bytes.ghost_name ≡ desk.old.bytes.ghost_name }
        ensures room { room_of memory.new ≡ room_of memory.old }
        ensures lent { Lent memory.old memory.new }
    {
        match request {
            Request::Play { k } => Reply::Done(self.play(k)),
            Request::TakeBack => Reply::Done(self.take_back()),
            Request::Clear => {
                self.clear();
                Reply::Done(Ok(()))
            }
            Request::Solve { floor, budget } => Reply::Solved(self.solve(floor, budget, memory)),
            Request::Write { floor, budget } => {
                let written = self.write(floor, budget, memory, desk.bytes);
                desk.written = written.map_or(0, |proof| proof.length);
                Reply::Written(written)
            }
            Request::Check { length, budget } => {
                Reply::Checked(self.check(desk.front(length), budget, memory))
            }
            Request::CheckWritten { budget } => {
                Reply::Checked(self.check(desk.last_written(), budget, memory))
            }
        }
    }
}
