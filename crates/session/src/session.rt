// A session holds a game and a store. Opening it clears the store; every call is that of the part that it is about.
ghost use Rattle.std.specs.Prelude.{◌≡◌, length};
ghost use Rattle.game.specs.Kept.{Kept};
ghost use Rattle.game.specs.Refusals.{refused_by, play_answer, played_line, back_answer, shorter};
ghost use Rattle.search_method.specs.Refusals.{refusal_due};
ghost use Rattle.search_method.specs.Search.{solve as solving};
ghost use Rattle.search.specs.Solve.{Answers, Within};
ghost use Rattle.search_method.specs.Tree.{Runs};
ghost use Rattle.proof_method.specs.Check.{check_in};
ghost use Rattle.proof_method.specs.Write.{write_in, buffer};
ghost use Rattle.proof_writer.specs.Writing.{written_by, Fits};
ghost use Rattle.proof_file.specs.Faults.{checked_by};
ghost use Rattle.search_method.specs.Memory.{Lent};

use game::interface::Bounded;
use game::refusal::Refusal;
use proof_file::check::{CheckedProof, check};
use proof_file::fault::Fault;
use proof_writer::refusal::WriteRefusal;
use proof_writer::write::{Written, write};
use search::memory::SearchMemory;
use search::solve::solve;
use search_method::kinds::{Answer, SolveRefusal};
use store::interface::Store;

pub struct Session<G, S> {
    game: G,
    store: S,
}

impl<G: Bounded, S: Store> Session<G, S> {
    // A session of this game at its line, with the store cleared.
    pub fn open(game: G, store: S) -> Self
        ensures game { result.game ≡ game }
        ensures store { S.Store.store.clears store result.store }
    {
        let mut store = store;
        store.clear();
        Session { game, store }
    }

    // The game at its line, and the store as it is.
    pub fn close(self) -> (G, S)
        ensures { (result.0 ≡ self.game) × (result.1 ≡ self.store) }
    {
        let Session { game, store } = self;
        (game, store)
    }

    // Appends move k to the line, or is refused as the game refuses it.
    pub fn play(&mut self, k: u32) -> Result<(), Refusal>
        ensures same { G.Game.means self.new.game ≡ G.Game.means self.old.game }
        ensures answer { refused_by result ≡ play_answer (G.Game.means self.old.game) (G.Game.line self.old.game) k }
        ensures moved { G.Game.line self.new.game ≡ played_line (G.Game.means self.old.game) (G.Game.line self.old.game) k }
        ensures store { self.new.store ≡ self.old.store }
    {
        self.game.play(k)
    }

    // Removes the last move of the line, or is refused as the game refuses it.
    pub fn take_back(&mut self) -> Result<(), Refusal>
        ensures same { G.Game.means self.new.game ≡ G.Game.means self.old.game }
        ensures answer { refused_by result ≡ back_answer (G.Game.line self.old.game) }
        ensures moved { G.Game.line self.new.game ≡ shorter (G.Game.line self.old.game) }
        ensures store { self.new.store ≡ self.old.store }
    {
        self.game.take_back()
    }

    // Clears the store.
    pub fn clear(&mut self)
        ensures game { self.new.game ≡ self.old.game }
        ensures store { S.Store.store.clears self.old.store self.new.store }
    {
        self.store.clear();
    }

    // Settles the present line for a floor; the line stays.
    pub fn solve(
        &mut self,
        floor: u32,
        budget: u32,
        memory: &mut SearchMemory<'_>,
    ) -> Result<Answer, SolveRefusal>
        ensures answers { Answers S.Store.store (solving (G.Game.means self.old.game) (G.Game.line self.old.game) floor budget) (refusal_due floor (length memory.old.lines.now) (length memory.old.moves.now)) self.old.store self.new.store result }
        ensures within { Within budget result }
        ensures lent { Lent memory.old memory.new }
        ensures kept { Kept G.Game.means G.Game.line self.old.game self.new.game }
    {
        solve(&mut self.game, &mut self.store, floor, budget, memory)
    }

    // Writes a proof of the present line's verdict for a floor into the buffer; the line stays.
    pub fn write(
        &mut self,
        floor: u32,
        budget: u32,
        memory: &mut SearchMemory<'_>,
        out: &mut [u8],
    ) -> Result<Written, WriteRefusal>
        ensures is { Runs S.Store.store (write_in (length memory.old.lines.now) (length memory.old.moves.now) (G.Game.means self.old.game) (G.Game.line self.old.game) floor budget (length out.old)) self.old.store self.new.store (written_by out.new result) }
        ensures buffer { out.new ≡ buffer out.old (written_by out.new result) }
        ensures fits { Fits out.new result }
        ensures lent { Lent memory.old memory.new }
        ensures kept { Kept G.Game.means G.Game.line self.old.game self.new.game }
    {
        write(&mut self.game, &mut self.store, floor, budget, memory, out)
    }

    // Checks a proof file at the present line; the line and the store stay.
    pub fn check(
        &mut self,
        proof: &[u8],
        budget: u32,
        memory: &mut SearchMemory<'_>,
    ) -> Result<CheckedProof, Fault>
        ensures is { checked_by result ≡ check_in (length memory.old.lines.now) (length memory.old.moves.now) (G.Game.means self.old.game) (G.Game.line self.old.game) proof.now budget }
        ensures kept { Kept G.Game.means G.Game.line self.old.game self.new.game }
        ensures store { self.new.store ≡ self.old.store }
        ensures memory { memory.new ≡ memory.old }
    {
        check(&mut self.game, proof, budget, memory)
    }
}
