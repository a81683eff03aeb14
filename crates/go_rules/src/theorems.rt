// Theorems about the definitions, each the contract of a function.
ghost use Rattle.go_rules.specs.Rulebook.{ToldByRules};

// At every reachable line the game tells what the rules say: the moves are the legal ones in the order of their points, each
// puts one stone, and the line is over exactly where a group of the side on turn has no liberty or it has no legal move.
pub fn told_by_rules()
    ensures { ToldByRules }
{}
