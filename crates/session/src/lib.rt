// A session in code: one bounded game and one store, which nothing else changes, and the promise that any two keep.
//
// `session::Session` owns both. `open` clears the store and leaves the game at its line, `close` hands both back, and
// `play`, `take_back`, `clear`, `solve`, `write` and `check` are the calls between, each equal to what the part that it
// is about promises. `request::Request` and `request::Reply` are these calls and their answers as plain values, and
// `run::requests_in_two_sessions` opens two sessions and makes a list of requests in each; `run::in_two_sessions` does so
// with a list of `request::Exchange`s, each of which holds a request and its reply. Their contracts say of each session that
// this was its life, as the crate `life` defines it, and have the whole promise of any two such lives.
#![tactic(auto)]

mod living;
pub mod request;
pub mod run;
pub mod session;
mod step;
