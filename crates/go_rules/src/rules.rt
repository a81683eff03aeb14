// Free points, groups with a liberty, and legal moves. They are functions over a board and sets of points: as methods of the
// board they would only say its name in another place.
ghost use Rattle.std.specs.Prelude.{◌≡◌, ℕ, ◌*◌, ◌<◌, true, bit_and};
ghost use Rattle.point_sets.specs.Points.{has, set_of};
ghost use Rattle.go_rules.specs.Groups.{around, OnBoard};
ghost use Rattle.go_rules.specs.Rules.{free_of, living, Living, group_of, liberties_of, Group, Liberties, with_stone, may_fill, legal, move_set, Moves};

use crate::board::{Board, points_where};
use point_sets::points::has_point;

// The empty points, where s and t are the stones.
#[tactic(auto, using(crate::proofs::Legal::free_is))]
pub fn free_points(board: &Board, s: u64, t: u64) -> u64
    ensures { result ≡ free_of board.now.n s t }
{
    board.all & !(s | t)
}

// The stones of s whose groups have a liberty in free.
#[tactic(auto, using(crate::proofs::Liberties::living_is), unfolding(crate::specs::Rules::living))]
pub fn living_stones(board: &Board, s: u64, free: u64) -> u64
    ensures is { result ≡ living board.now.n s free }
    ensures live { OnBoard board.now.n s → OnBoard board.now.n free → Living board.now.n s free result }
{
    board.reach(s, board.around(free))
}

// The group of the stone on p among the stones s; empty where there is no stone on p.
#[tactic(auto, using(crate::proofs::Liberties::group_found, crate::proofs::Liberties::group_empty, crate::proofs::Liberties::group_is))]
pub fn group_of(board: &Board, s: u64, p: u32) -> u64
    ensures is { result ≡ group_of board.now.n s p }
    ensures joined { OnBoard board.now.n s → Group board.now.n s p result }
{
    if has_point(s, p) {
        board.reach(s, 1 << p)
    } else {
        0
    }
}

// The liberties of the group of p among the stones s, where the points of free are empty.
#[tactic(auto, using(crate::proofs::Liberties::liberties_are))]
pub fn liberties_of(board: &Board, s: u64, free: u64, p: u32) -> u64
    ensures is { result ≡ liberties_of board.now.n s free p }
    ensures beside { OnBoard board.now.n s → Liberties board.now.n s free p result }
{
    free & board.around(group_of(board, s, p))
}

// The stones s with one on p.
pub(crate) fn with_stone(s: u64, p: u32) -> u64
    requires { p < 64 }
    ensures { result ≡ with_stone s p }
{
    s | (1 << p)
}

// The side on turn, whose stones are own, and what its moves need to be told.
#[derive(Drop)]
struct Mover<'a> {
    board: &'a Board,
    own: u64,
    foe: u64,
    // The empty points, and those of them with an empty neighbour, which need no look at groups.
    free: u64,
    wide: u64,
    // The enemy stones whose groups have a liberty now.
    before: u64,
    ghost empty: { free ≡ free_of board.now.n own foe },
    ghost roomy: { wide ≡ bit_and free (around board.now.n free) },
    ghost alive: { before ≡ living board.now.n foe free },
}

impl<'a> Mover<'a> {
    // Whether a stone on p leaves its own group a liberty or takes an enemy group's last.
    #[tactic(auto, unfolding(crate::specs::Rules::may_fill))]
    fn may_fill(&self, p: u32) -> bool
        requires { p < 64 }
        ensures { result ≡ may_fill self.now.board.now.n self.now.own self.now.foe p }
    {
        let mine = with_stone(self.own, p);
        let free = free_points(self.board, mine, self.foe);
        has_point(living_stones(self.board, mine, free), p)
            || living_stones(self.board, self.foe, free) != self.before
    }

    // Whether p is a legal move.
    #[tactic(auto, using(crate::proofs::Legal::open_legal), unfolding(crate::specs::Rules::legal))]
    fn is_legal(&self, p: u32) -> bool
        ensures { result ≡ legal self.now.board.now.n self.now.own self.now.foe p }
    {
        has_point(self.wide, p) || has_point(self.free, p) && self.may_fill(p)
    }

    // The set of the legal moves.
    fn moves(&self) -> u64
        ensures { result ≡ set_of (self.now.board.now.n * self.now.board.now.n) (legal self.now.board.now.n self.now.own self.now.foe) }
    {
        points_where(self.board.size(), |p| self.is_legal(p))
    }
}

// The legal moves of the side whose stones are own; none where one of its groups has no liberty.
#[tactic(auto, using(crate::proofs::Liberties::moves_live, crate::proofs::Liberties::alive_all, point_sets::proofs::Sets::has_zero), unfolding(crate::specs::Rules::move_set, crate::specs::Rules::all_live))]
pub fn legal_moves(board: &Board, own: u64, foe: u64) -> u64
    ensures is { result ≡ move_set board.now.n own foe }
    ensures legal { OnBoard board.now.n own → OnBoard board.now.n foe → Moves board.now.n own foe result }
{
    let free = free_points(board, own, foe);
    if living_stones(board, own, free) != own {
        return 0;
    }
    let mover = Mover {
        board,
        own,
        foe,
        free,
        wide: free & board.around(free),
        before: living_stones(board, foe, free),
    };
    mover.moves()
}
