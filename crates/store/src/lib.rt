// Stores of search results: what every store promises, whatever it forgets, and two of them.
//
// `entry` has what is recorded: an `Entry` is a `Finding` under a `Key`. `interface::Store` is the trait: `probe`, `record`
// and `clear`, each pinned by the meaning that a store gives of itself. `null::Null` holds nothing; `table::Table` is
// direct-mapped over a row of slots that its caller lends and finds again afterwards, every slot known.
#![tactic(auto)]

pub mod entry;
pub mod interface;
pub mod null;
pub mod table;
pub mod theorems;
