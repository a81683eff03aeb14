// Writing a proof file at the present line of a game.
//
// `write` solves the line, puts the claim and walks through all replies of the other side, solving again at each later
// turn of the claiming side. It answers a `Written`, or a `WriteRefusal`. proof_method has the definition that it is
// equal to, and the theorems about it.
#![tactic(auto)]

pub mod refusal;
mod walk;
pub mod write;
