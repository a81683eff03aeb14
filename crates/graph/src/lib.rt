// The explicit game graph: a game given by its nodes.
//
// `Graph::new` takes one to 64 records (side on turn, end score or 255, targets) and makes the game on them, or says which
// of them is not allowed. The game starts at node 0 and owns a copy of its nodes. The first position word is the node;
// the second, the context word and the level are 0, and every line is path-independent. The definitions stand in graph_rules.
#![tactic(auto)]

pub mod graph;
