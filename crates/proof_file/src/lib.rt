// Checking a proof file at the present line of a game.
//
// `check` reads any bytes as a proof file and answers a `CheckedProof`, which only it can make, or the first `Fault` in
// reading order, with its byte place, its depth and the game's own refusal where there is one. proof_method has the
// definition that it is equal to, and the theorems about it; proof_writer writes such files.
#![tactic(auto)]

pub mod check;
pub mod fault;
