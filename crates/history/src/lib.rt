// The moves of a line, and the position that each of them has led to.
//
// `History` remembers where a game started and every step of its present line, at most 96, over the positions of any game. It lies
// in the value itself, so that making one cannot fail for memory, and a step is taken back by forgetting the newest.
#![tactic(auto)]

pub mod history;
