// Rule layers as definitions: a layer is a function from the meaning of a game to the meaning of the game under it.
//
// specs/Layers says what Limit and Repeat make of a game, specs/Theorems what follows; proofs/ shows that both keep
// the laws of every game below. The only code are functions whose contracts name the theorems. The layers that are
// played stand in the crate `layers`.
#![tactic(auto)]

pub mod theorems;
