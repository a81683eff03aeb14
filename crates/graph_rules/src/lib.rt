// The explicit game graph as a definition: when a row of nodes is a graph, what the game on it means, and its laws.
//
// `Node` is one node as it is handed in. specs/Graphs has the definitions; specs/Theorems says in words which rows of
// nodes are graphs, and that the game on each keeps the laws of a game. The game that is played stands in `graph`.
#![tactic(auto)]

pub mod node;
pub mod theorems;
