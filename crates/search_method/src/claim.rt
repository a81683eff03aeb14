// A verdict that is claimed: simulations test it, and proof files carry it.
ghost use Rattle.std.specs.Prelude.{◌≡◌};
ghost use Rattle.search_method.specs.Claims.{given_by, claims};

use game::kinds::{Score, Side};

// The verdict for a floor: the value is at least the floor, or it is not.
#[derive(Clone, Copy)]
pub struct Claim {
    pub floor: u8,
    pub yes: bool,
}

impl Claim {
    // An end with this score gives the claimed verdict.
    pub fn given_by(self, score: Score) -> bool
        ensures { result ≡ given_by self score }
    {
        (score.points() >= self.floor) == self.yes
    }

    // The claiming side is Black for yes and White for no.
    pub fn claims(self, side: Side) -> bool
        ensures { result ≡ claims self side }
    {
        side.is_black() == self.yes
    }
}
