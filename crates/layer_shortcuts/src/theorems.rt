// Theorems about the two shortcuts, each the contract of a function.
ghost use Rattle.layer_shortcuts.specs.Theorems.{ShareNeeded, LevelsNeeded};

// Without the limit's share of the context word, lines of different length are taken for one another.
pub fn share_needed()
    ensures { ShareNeeded }
{}

// Without the levels of the prefixes, lines through different positions are taken for one another.
pub fn levels_needed()
    ensures { LevelsNeeded }
{}
