// The definitions of checking and writing proof files, and the theorems about them.
//
// A proof file claims a verdict for a floor at a line, and gives the moves of the claiming side in the order in which a
// walk through all replies of the other side meets them. specs/ is read in this order. `Strategy`: what such a file
// means. `Check`: what check answers for any bytes. `Write`: what write does, as a computation over a store. Then what
// is proved of them: `Theorems` of check, `Writing` of write over a sound store.
//
// The type that check and write share is `State`. Each function here states one theorem.
#![tactic(auto)]

pub mod state;

ghost use Rattle.proof_method.specs.Theorems.{AcceptsProofs, ClaimsTrue, BisimilarChecked};
ghost use Rattle.proof_method.specs.Writing.{WritesProofs, ClaimFound, NoStray};

use store::interface::Store;

// Check accepts exactly the files of winning strategies whose plays the budget covers, and answers their plays.
pub fn check_accepts_proofs()
    ensures { AcceptsProofs }
{}

// An accepted claim is true.
pub fn accepted_claims_are_true()
    ensures { ClaimsTrue }
{}

// At bisimilar lines check answers the same, faults included.
pub fn bisimilar_lines_check_the_same()
    ensures { BisimilarChecked }
{}

// What write wrote over a sound store is accepted there by check under the same budget.
pub fn written_proofs_are_accepted<S: Store>(_store: &S)
    ensures { WritesProofs S.Store.store }
{}

// At each later turn of the claiming side the search over a sound store answers the claim again.
pub fn claims_are_found_again<S: Store>(_store: &S)
    ensures { ClaimFound S.Store.store }
{}

// The guard of write against a move that the line does not have is dead over a sound store.
pub fn no_stray_move<S: Store>(_store: &S)
    ensures { NoStray S.Store.store }
{}
