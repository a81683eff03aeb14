// Sets of points as 64-bit words: point p is bit p.
//
// specs/ has the sets as tests and as lists of points in their order; proofs/ has what each operation on words does to a
// point. `points` tells whether a point is in a set, how many points a set has, and which comes k-th.
#![tactic(auto)]

pub mod points;
