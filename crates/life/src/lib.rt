// The life of a session, as definitions, and what any two sessions promise.
//
// specs/Life has the calls of a session, what each answers, and how a life goes on from its opening by any of them.
// specs/Promise says clause by clause what any two sessions promise each other, over any lawful bounded games and any
// stores, and specs/Example has two short lives. Each function here states one theorem.
#![tactic(auto)]

ghost use Rattle.life.specs.Example.{TwoLive, UnclearedLies};
ghost use Rattle.life.specs.Promise.{Promised};

use store::interface::Store;

// Any two sessions, over any bounded games with the laws and over these two stores, keep the promise.
pub fn sessions_keep_the_promise<S: Store, R: Store>(_s: &S, _r: &R)
    ensures { Promised S.Store.store R.Store.store }
{}

// Two short lives, with verdicts, written proofs, their checks and refusals: the promise speaks of something.
pub fn two_sessions_live()
    ensures { TwoLive }
{}

// Over a store that was not cleared a verdict can be false: the promise needs its opening.
pub fn clearing_matters()
    ensures { UnclearedLies }
{}
