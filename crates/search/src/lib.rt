// The search itself: df-pn with simulation over any bounded game and any store, equal to its definition.
//
// `solve::solve` is the one public call. It plays and takes back at the game's line, asks the store and records in it,
// and answers a verdict with its move and the number of plays, or that the budget did not suffice. Its contract says
// that this is a run of the definition in the crate `search_method`, and names the theorems about it. The caller lends
// the work memory: a `memory::LineRecord` for each line that is being expanded, and a `Pair` for each of its moves.
//
// Behind it, a `Searcher` has the game at its line, the store, the floor and the plays that are left. Each part of the code
// does one part of the definition with it: `simulation` tests a verdict that was found by another path, `evaluation`
// judges each move of a line, `expansion` expands the most promising move, turn after turn. `pairs` has the proof and
// disproof numbers.
#![tactic(auto)]

mod evaluation;
mod expansion;
pub mod memory;
mod pairs;
mod searcher;
mod simulation;
pub mod solve;
