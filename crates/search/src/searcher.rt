// What searches: it reads the game and the store, plays and takes back, and counts the plays.
ghost use Rattle.std.specs.Prelude.{◌≡◌, ℕ, ◌<◌};
ghost use Rattle.search_method.specs.Search.{key};
ghost use Rattle.search.specs.Moves.{here, Plays, TakesBack, Notes};

use game::interface::Bounded;
use store::entry::{Entry, Finding, Key};
use store::interface::Store;

// The game at its line, the store, the floor that is asked for, and the plays that may still be made.
#[derive(Drop)]
pub(crate) struct Searcher<'a, G, S> {
    pub(crate) game: &'a mut G,
    pub(crate) store: &'a mut S,
    pub(crate) floor: u8,
    pub(crate) left: u32,
}

impl<G: Bounded, S: Store> Searcher<'_, G, S> {
    // The key of the game's line.
    pub(crate) fn key(&self) -> Key
        ensures { result ≡ key (G.Game.means self.now.game.now) self.now.floor (G.Game.line self.now.game.now) }
    {
        Key {
            a: self.game.a(),
            b: self.game.b(),
            context: self.game.context(),
            floor: self.floor,
        }
    }

    // A legal move is played and counted. None where no play is left.
    pub(crate) fn play(&mut self, k: u32) -> Option<()>
        requires legal { k < (here G.Game.means G.Game.line self.old).moves }
        ensures { Plays G.Game.means G.Game.line k self.old result self.new }
    {
        self.left = self.left.checked_sub(1)?;
        let _ = self.game.play(k);
        Some(())
    }

    // The last move is taken back. What is done after a move stands between `play` and this call in a method of its own:
    // as a closure it would say the same clauses again, and be asked for what ends the cycle of calls besides.
    pub(crate) fn take_back(&mut self)
        ensures { TakesBack G.Game.means G.Game.line self.old self.new }
    {
        let _ = self.game.take_back();
    }

    // A finding is recorded of the line with this key.
    pub(crate) fn note(&mut self, key: Key, finding: Finding)
        ensures { Notes S.Store.store (record { key = key; finding = finding }) self.old self.new }
    {
        self.store.record(Entry { key, finding });
    }
}
