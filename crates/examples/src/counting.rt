// A layer over any store that counts the calls to it, and is itself a store.
ghost use Rattle.examples.specs.Counting.{counted};
ghost use Rattle.std.specs.Prelude.{◌≡◌};

use store::entry::{Entry, Key};
use store::interface::Store;

// A store, the number of entries recorded in it and how often it was cleared, each to the top of 64 bits and no further.
#[derive(Drop)]
pub struct Counting<S> {
    pub below: S,
    pub recorded: u64,
    pub cleared: u64,
}

impl<S> Counting<S> {
    pub fn new(below: S) -> Self
        ensures { result ≡ record { below = below; recorded = 0; cleared = 0 } }
    {
        Counting {
            below,
            recorded: 0,
            cleared: 0,
        }
    }
}

impl<S: Store> Store for Counting<S> {
    ghost store = { counted S.Store.store };

    fn probe(&self, key: Key) -> Option<Entry> {
        self.below.probe(key)
    }

    fn record(&mut self, entry: Entry) {
        self.below.record(entry);
        self.recorded = self.recorded.saturating_add(1);
    }

    fn clear(&mut self) {
        self.below.clear();
        self.cleared = self.cleared.saturating_add(1);
    }
}
