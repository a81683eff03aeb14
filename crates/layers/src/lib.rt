// Rule layers: games over games. A layer holds any game and is itself a game.
//
// Limit makes a line of a given length a draw, Repeat one that comes back to an earlier position. A line that is over
// below keeps its score, a line that is over here has no moves, and all else passes through, but for the context word and
// path independence, which each rule tells anew. Both are one type, Layered, with a rule each. `Layer::over` makes a layer and takes the game below back to its empty line. What each layer means is a
// function of what the game below means: `limited` and `repeated` in layer_rules. A limited game is bounded by its limit,
// and Repeat keeps a bounded game's height, so both orders of the two layers can be solved.
#![tactic(auto)]

pub mod layered;
pub mod limit;
pub mod repeat;
