// The method of the search: df-pn with simulation, as a definition that is total for any budget and any store, and
// its theorems.
//
// The definition stands in specs/ and is read in this order. `Tree`: a computation that asks a store for entries and
// notes entries in it. `Pairs`: proof and disproof numbers. `Search`: simulation, the initial evaluation of a line's
// moves, the expansion of a line, and `solve`. Then what is proved of it: `Truth`, every verdict is that of the
// value; `Bound`, a budget that is never used up. `Refusals` says which calls are refused before anything is done.
//
// The types that code and definition share are `Pair`, `Worked`, `Answer`, `SolveRefusal` and `Claim`, each with what is
// asked of it; `WorkMemory` is what a caller lends. The other functions carry the theorems: `verdicts_are_true`, `budget_is_enough`, `worked_bounds`.
#![tactic(auto)]

pub mod claim;
pub mod kinds;
pub mod memory;
pub mod theorems;
