// The trait that every store meets.
ghost use Rattle.std.specs.Prelude.{◌≡◌};
ghost use Rattle.store.specs.Interface.{StoreMeaning};

use crate::entry::{Entry, Key};

pub trait Store {
    // What it holds and shows, its own rule for recording and clearing, and the laws of every store.
    ghost store: { StoreMeaning Self };

    // The entry that is shown for the key, if any.
    fn probe(&self, key: Key) -> Option<Entry>
        ensures { result ≡ store.shows self.now key };

    // Records an entry, as the store's own rule says.
    fn record(&mut self, entry: Entry)
        ensures { store.records self.old entry self.new };

    // Forgets everything.
    fn clear(&mut self)
        ensures { store.clears self.old self.new };
}
