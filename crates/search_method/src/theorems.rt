// What is proved of the search, each the contract of a function.
ghost use Rattle.search_method.specs.Truth.{VerdictsTrue};
ghost use Rattle.search_method.specs.Bound.{BudgetEnough, WorkedBounds};

use store::interface::Store;

// Over every store whose trusted verdicts are true, each verdict is that of the value and its move keeps it; and the
// store is such a store again.
pub fn verdicts_are_true<S: Store>(_store: &S)
    ensures { VerdictsTrue S.Store.store }
{}

// A budget of `enough` plays for the moves to go is never used up, whatever any store answers.
pub fn budget_is_enough()
    ensures { BudgetEnough }
{}

// What this comes to with one move to go.
pub fn worked_bounds()
    ensures { WorkedBounds }
{}
