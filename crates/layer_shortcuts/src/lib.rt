// Why two tempting shortcuts in the rule layers are wrong, each as a theorem on a small game graph.
//
// A search trusts that path-independent lines with equal words are bisimilar. A limit that leaves the number of moves left
// out of the context word, and a repetition rule that ignores the levels of the prefixes, both break that law: specs/ has
// the two variants, a graph of five nodes, and two lines of each that the variant cannot tell apart although their values
// differ. The layers as they are keep the law on the same graph.
#![tactic(auto)]

pub mod theorems;
