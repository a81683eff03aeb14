// The game interface: what a game tells of every line, the laws that it keeps, and the calls by which it is played.
//
// A line is the list of the moves played from the start. A game has one present line; `play` lengthens it and
// `take_back` shortens it, and every query is about it. specs/ says what a game means, whatever it is made of.
#![tactic(auto)]

pub mod interface;
pub mod kinds;
pub mod refusal;
pub mod theorems;
