// Callers that lend a row of slots to a table: what they find there afterwards, every slot of it.
ghost use Rattle.std.specs.Prelude.{◌≡◌, [], ◌∷◌, None};
ghost use Rattle.store.specs.Slots.{emptied, recorded_in, shown_in};

use store::entry::{Entry, Key};
use store::interface::Store;
use store::table::Table;

// A row of three with one entry recorded in it.
pub fn record_one(entry: Entry) -> [Option<Entry>; 3]
    ensures { result ≡ recorded_in (None ∷ None ∷ None ∷ []) entry }
{
    let mut row = [None; 3];
    let mut table = Table::new(&mut row);
    table.record(entry);
    row
}

// Clears the row, records an entry in it and then answers what it shows for a key.
pub fn record_and_probe(row: &mut [Option<Entry>], entry: Entry, key: Key) -> Option<Entry>
    ensures row { row.new ≡ recorded_in (emptied row.old) entry }
    ensures shown { result ≡ shown_in (recorded_in (emptied row.old) entry) key }
{
    let mut table = Table::new(row);
    table.record(entry);
    table.probe(key)
}
