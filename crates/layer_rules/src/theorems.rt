// Theorems about the definitions, each the contract of a function.
ghost use Rattle.layer_rules.specs.Theorems.{LimitExact, LawsKept, Heights};

// Under a limit no reachable line is longer, and exactly the lines of that length end by it.
pub fn limit_exact()
    ensures { LimitExact }
{}

// Both layers keep the laws of every game below.
pub fn laws_kept()
    ensures { LawsKept }
{}

// The height of a game under a limit is the limit; repetition keeps the height of a bounded game.
pub fn heights()
    ensures { Heights }
{}
