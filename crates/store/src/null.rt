// The store that holds nothing.
ghost use Rattle.store.specs.Stores.{null_store};

use crate::entry::{Entry, Key};
use crate::interface::Store;

#[derive(Clone, Copy, PartialEq, Eq, Debug)]
pub struct Null;

impl Store for Null {
    ghost store = { null_store };

    fn probe(&self, _key: Key) -> Option<Entry> {
        None
    }

    fn record(&mut self, _entry: Entry) {}

    fn clear(&mut self) {}
}
