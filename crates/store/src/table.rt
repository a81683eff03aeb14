// The direct-mapped table: a store over a row of slots that is lent to it.
//
// A key has one slot. Recording overwrites what is there; probing shows what is there if every field of the key agrees.
ghost use Rattle.std.specs.Prelude.{◌≡◌, ◌<◌, SomeIff};
ghost use Rattle.store.specs.Slots.{emptied, hash, slot_of};
ghost use Rattle.store.specs.Stores.{table_store};

use crate::entry::{Entry, Key};
use crate::interface::Store;

#[derive(Drop)]
pub struct Table<'a> {
    slots: &'a mut [Option<Entry>],
}

fn hashed(key: Key) -> u64
    ensures { result ≡ hash key }
{
    key.a ^ key.b.rotate_left(21) ^ key.context.rotate_left(43) ^ u64::from(key.floor)
}

// The slot of a key in a row of `len`; a row without slots has none.
fn slot_of(key: Key, len: usize) -> Option<usize>
    ensures { SomeIff result (0 < len) (slot_of key len) }
{
    (hashed(key) as usize).checked_rem(len)
}

impl<'a> Table<'a> {
    // A table on the row, which is cleared.
    pub fn new(slots: &'a mut [Option<Entry>]) -> Self
        ensures row { result.slots.now ≡ emptied slots.old }
        ensures lent { result.slots.ghost_name ≡ slots.entry.ghost_name }
    {
        slots.fill(None);
        Table { slots }
    }
}

impl Store for Table<'_> {
    ghost store = { table_store };

    fn probe(&self, key: Key) -> Option<Entry> {
        let slot = slot_of(key, self.slots.len())?;
        self.slots[slot].filter(|entry| entry.key == key)
    }

    fn record(&mut self, entry: Entry) {
        if let Some(slot) = slot_of(entry.key, self.slots.len()) {
            self.slots[slot] = Some(entry);
        }
    }

    fn clear(&mut self) {
        self.slots.fill(None);
    }
}
