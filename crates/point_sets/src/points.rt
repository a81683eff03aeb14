ghost use Rattle.std.specs.Prelude.{◌≡◌, ◌<◌, true, ℕ, length, drop, slice_index};
ghost use Rattle.point_sets.specs.Points.{has, list_of};

// Whether point p is in m.
#[tactic(auto, using(crate::proofs::Sets::has_test, crate::proofs::Sets::past_word))]
pub fn has_point(m: u64, p: u32) -> bool
    ensures is { result ≡ has m p }
    ensures inside { result ≡ true → p < 64 }
{
    p < 64 && (m >> p) & 1 == 1
}

// The number of the points of m below size.
#[tactic(auto, using(crate::proofs::Lists::count_low, crate::proofs::Lists::count_word))]
pub fn count_points(m: u64, size: u32) -> u32
    ensures { result ≡ length (list_of size (has m)) }
{
    if size < 64 {
        (m & ((1 << size) - 1)).count_ones()
    } else {
        m.count_ones()
    }
}

// The points of m but for the first k of them, each of which is the lowest when it goes. A word has no more than 64 points.
fn after_first(m: u64, k: u32) -> u64
    ensures { (s : ℕ) → list_of s (has result) ≡ drop k (list_of s (has m)) }
{
    (0..k.min(64)).fold(m, |rest, _| rest & rest.wrapping_sub(1))
}

// Point number k of the points of m below size, or 0 where there are no more than k, as the definition of a move has it: who asks
// for a move that there is needs no test of an `Option`.
#[tactic(auto, using(crate::proofs::Firsts::nth_found, crate::proofs::Firsts::none_found))]
pub fn nth_point(m: u64, size: u32, k: u32) -> u32
    ensures { result ≡ slice_index (list_of size (has m)) k }
{
    let p = after_first(m, k).trailing_zeros();
    if p < size.min(64) { p } else { 0 }
}
