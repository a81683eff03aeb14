// Proof and disproof numbers: the pair of a line from those of its moves, the move to expand next and its limits.
ghost use Rattle.std.specs.Prelude.{◌≡◌, ℕ, ◌+◌, ◌<◌, ◌≤◌, ◌==◌, false, length, position};
ghost use Rattle.std.specs.List.{All};
ghost use Rattle.search.specs.Numbers.{mine, theirs, plus, own_limit, other_limit, finding_of, Small};
ghost use Rattle.search_method.specs.Pairs.{settled, in_range, seen, least, sum, first, others, pair_of, choice_of, limits_of, reached};

use search_method::kinds::Pair;
use store::entry::Finding;

// The number of what can no longer be proved, or disproved.
pub(crate) const INF: u32 = 1_048_576;

// The greatest number of an open pair.
pub(crate) const MOST: u32 = 1_048_575;

// The pair of a move of which nothing is known.
pub(crate) const UNKNOWN: Pair = Pair { pn: 1, dn: 1 };

// The pair of a verdict.
pub(crate) fn verdict_pair(yes: bool) -> Pair
    ensures { result ≡ settled yes }
{
    if yes {
        Pair { pn: 0, dn: INF }
    } else {
        Pair { pn: INF, dn: 0 }
    }
}

// The pair of open numbers, where both are numbers of an open pair.
pub(crate) fn open_pair(pn: u32, dn: u32) -> Pair
    ensures { result ≡ in_range pn dn }
{
    if (1..=MOST).contains(&pn) && (1..=MOST).contains(&dn) {
        Pair { pn, dn }
    } else {
        UNKNOWN
    }
}

// INF where one of the two is INF, and otherwise at most the greatest number of an open pair.
fn add(x: u32, y: u32) -> u32
    ensures { result ≡ plus x y }
{
    if x == INF || y == INF {
        INF
    } else {
        x.saturating_add(y).min(MOST)
    }
}

// The limits of a move, as the side on turn sees them: on its own number, by that of the second best move, and on the sum.
fn own_limit(limit: u32, second: u32) -> u32
    ensures is { result ≡ own_limit limit second }
    ensures capped { result ≤ INF }
{
    limit.min(second.saturating_add(1).min(INF))
}

fn other_limit(limit: u32, total: u32, own: u32) -> u32
    requires within { (limit ≤ INF) × (total ≤ limit) × (own ≤ total) }
    ensures is { result ≡ other_limit limit total own }
    ensures capped { result ≤ INF }
{
    if limit == INF {
        INF
    } else {
        limit - total + own
    }
}

// One of the numbers has come to its limit.
pub(crate) fn reaches(limit: Pair, pair: Pair) -> bool
    ensures { result ≡ reached limit pair }
{
    pair.pn >= limit.pn || pair.dn >= limit.dn
}

// The pairs of a line's moves, and whether Black is on turn there.
#[derive(Clone, Copy)]
pub(crate) struct Row<'a> {
    pub(crate) black: bool,
    pub(crate) pairs: &'a [Pair],
}

impl Row<'_> {
    // A pair as the side on turn sees it, and back: for White the two numbers trade roles.
    fn seen(&self, pair: Pair) -> Pair
        ensures { result ≡ seen self.now.black pair }
    {
        if self.black {
            pair
        } else {
            Pair {
                pn: pair.dn,
                dn: pair.pn,
            }
        }
    }

    // The least of the numbers that the side on turn wants to be small, and the sum of the others.
    fn least(&self) -> u32
        ensures { result ≡ least (mine self.now.black self.now.pairs.now) }
    {
        self.pairs
            .iter()
            .rev()
            .fold(INF, |n, p| self.seen(*p).pn.min(n))
    }

    fn total(&self) -> u32
        ensures { result ≡ sum (theirs self.now.black self.now.pairs.now) }
    {
        self.pairs
            .iter()
            .rev()
            .fold(0, |n, p| add(self.seen(*p).dn, n))
    }

    // The first move with this number.
    fn position_of(&self, x: u32) -> Option<usize>
        ensures { result ≡ position (λ p. (seen self.now.black p).pn == x) self.now.pairs.now }
    {
        self.pairs.iter().position(|p| self.seen(*p).pn == x)
    }

    // The same, or the number of moves.
    fn place_of(&self, x: u32) -> usize
        ensures is { result ≡ first x (mine self.now.black self.now.pairs.now) }
        ensures within { result ≤ length self.now.pairs.now }
    {
        self.position_of(x).unwrap_or(self.pairs.len())
    }

    // The pair of a line from those of its moves.
    pub(crate) fn pair(&self) -> Pair
        ensures { result ≡ pair_of self.now.black self.now.pairs.now }
    {
        self.seen(Pair {
            pn: self.least(),
            dn: self.total(),
        })
    }

    // The move to expand next: the first with the least number.
    pub(crate) fn choice(&self, limit: Pair) -> usize
        requires capped { Small limit }
        requires below { reached limit (pair_of self.now.black self.now.pairs.now) ≡ false }
        ensures is { result ≡ choice_of self.now.black self.now.pairs.now }
        ensures within { result < length self.now.pairs.now }
    {
        self.place_of(self.least())
    }

    // The least number among the other moves.
    fn second(&self, k: usize) -> u32
        requires { k < length self.now.pairs.now }
        ensures { result ≡ least (others k (mine self.now.black self.now.pairs.now)) }
    {
        let before = Row {
            black: self.black,
            pairs: &self.pairs[..k],
        };
        let after = Row {
            black: self.black,
            pairs: &self.pairs[k + 1..],
        };
        before.least().min(after.least())
    }

    // The limits under which that move, at k, is expanded.
    pub(crate) fn limits(&self, limit: Pair, k: usize) -> Pair
        requires chosen { k ≡ choice_of self.now.black self.now.pairs.now }
        requires within { k < length self.now.pairs.now }
        requires capped { Small limit }
        requires below { reached limit (pair_of self.now.black self.now.pairs.now) ≡ false }
        requires small { All Small self.now.pairs.now }
        ensures is { result ≡ limits_of self.now.black limit self.now.pairs.now }
        ensures capped { Small result }
    {
        let lim = self.seen(limit);
        let own = self.seen(self.pairs[k]);
        let pn = own_limit(lim.pn, self.second(k));
        let dn = other_limit(lim.dn, self.total(), own.dn);
        self.seen(Pair { pn, dn })
    }

    // What is said of a line that is left.
    pub(crate) fn finding(&self, independent: bool) -> Finding
        requires { length self.now.pairs.now ≤ 64 }
        ensures { result ≡ finding_of self.now.black independent self.now.pairs.now }
    {
        let pair = self.pair();
        let won = self.place_of(0) as u8;
        if pair.pn == 0 {
            return Finding::Verdict {
                yes: true,
                independent,
                best: if self.black { won } else { 255 },
            };
        }
        if pair.dn == 0 {
            return Finding::Verdict {
                yes: false,
                independent,
                best: if self.black { 255 } else { won },
            };
        }
        Finding::Open {
            pn: pair.pn,
            dn: pair.dn,
        }
    }
}
