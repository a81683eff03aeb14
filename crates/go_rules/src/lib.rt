// The rules of Atari Go on a board of three to seven lines: groups are stones of one colour joined by chains of
// neighbours, their liberties the empty points beside them.
//
// `Board` has the words that go with a board and finds the points that chains reach; `rules` tells the groups with a liberty
// and the legal moves, `turn` the position after a move, `text` the position of a text. specs/ has the definitions and the
// rules in the game's own words, and `theorems` says that the game keeps them.
#![tactic(auto)]

pub mod board;
pub mod place;
pub mod rules;
pub mod text;
pub mod theorems;
pub mod turn;
