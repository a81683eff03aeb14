// Examples of stores in use: a layer over any store, and callers that lend a row to a table and find it again.
#![tactic(auto)]

pub mod counting;
pub mod lent;
