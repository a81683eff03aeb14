// What is wrong with a proof file. docs/REFUSALS.md has every number.
ghost use Rattle.std.specs.Prelude.{◌≡◌};
ghost use Rattle.proof_file.specs.Faults.{fault_of, refusal_in};

use game::refusal::Refusal;

// Too little work memory; out of budget; a malformed number; a floor or a verdict out of range; a written move that the
// game refuses, with the game's own refusal; an end that denies the claim; bytes after the walk.
#[derive(Clone, Copy, PartialEq, Eq, Debug)]
pub enum Reason {
    Memory,
    OutOfBudget,
    NotANumber,
    NotAClaim,
    Refused(Refusal),
    Denied,
    BytesLeft,
}

// A fault at a byte place and a depth below the present line.
#[derive(Clone, Copy, PartialEq, Eq, Debug)]
pub struct Fault {
    pub reason: Reason,
    pub place: usize,
    pub depth: u32,
}

impl Fault {
    pub fn number(self) -> u8
        ensures { result ≡ (fault_of self).number }
    {
        match self.reason {
            Reason::Memory => 6,
            Reason::OutOfBudget => 7,
            Reason::NotANumber => 9,
            Reason::NotAClaim => 10,
            Reason::Refused(_) => 11,
            Reason::Denied => 12,
            Reason::BytesLeft => 13,
        }
    }

    // The game's own refusal of a written move.
    pub fn refusal(self) -> Option<Refusal>
        ensures { result ≡ refusal_in self.reason }
    {
        match self.reason {
            Reason::Refused(refusal) => Some(refusal),
            _ => None,
        }
    }

    // The number of the game's own refusal, or 0.
    pub fn carried(self) -> u8
        ensures { result ≡ (fault_of self).carried }
    {
        self.refusal().map_or(0, Refusal::number)
    }
}
