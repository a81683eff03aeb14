// Theorems about the definitions, each the contract of a function.
ghost use Rattle.graph_rules.specs.Theorems.{AllowedExactly, FirstBadNode, GraphsLawful};

// No fault is found in exactly the rows of nodes that the rules allow.
#[tactic(auto, using(crate::proofs::Allowed::fault_allowed, crate::proofs::Allowed::allowed_fault))]
pub fn allowed_exactly()
    ensures { AllowedExactly }
{}

// A fault in one to 64 nodes is at the first node that is not by the rules.
pub fn first_bad_node()
    ensures { FirstBadNode }
{}

// The game on every graph keeps the laws of a game.
#[tactic(auto, using(crate::proofs::Graphs::graph_lawful, crate::proofs::Allowed::allowed_fault))]
pub fn graphs_lawful()
    ensures { GraphsLawful }
{}
