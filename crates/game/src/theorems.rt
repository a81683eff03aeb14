// Theorems about the definitions, each the contract of a function.
ghost use Rattle.game.specs.Theorems.{StaysReachable, OneValue, BothWays};

// Play and take back lead from reachable lines to reachable lines, whatever they answer.
pub fn stays_reachable()
    ensures { StaysReachable }
{}

// Bisimilar lines, of one bounded game or of two, have the same value.
pub fn bisimilar_lines_have_one_value()
    ensures { OneValue }
{}

// To be bisimilar, though said from one side, holds from both.
pub fn bisimilar_both_ways()
    ensures { BothWays }
{}
