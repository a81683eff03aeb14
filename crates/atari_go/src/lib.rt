// Atari Go on a board of three to seven lines, as a bounded game.
//
// `AtariGo` is read from the text of a position. It keeps the positions of all prefixes of its line, so that a move is taken
// back by forgetting the newest; each position has its legal moves with it.
#![tactic(auto)]

pub mod atari;
