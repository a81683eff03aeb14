// Why a proof was not written. docs/REFUSALS.md has every number.
ghost use Rattle.std.specs.Prelude.{◌≡◌};
ghost use Rattle.search_method.specs.Refusals.{refusal_number};
ghost use Rattle.proof_writer.specs.Writing.{write_number};

use search_method::kinds::SolveRefusal;

// The floor is not 1 or 2; too little work memory; out of budget; the next number does not fit the buffer.
#[derive(Clone, Copy, PartialEq, Eq, Debug)]
pub enum WriteRefusal {
    Floor = 5,
    Memory = 6,
    OutOfBudget = 7,
    NoRoom = 8,
}

impl WriteRefusal {
    pub fn number(self) -> u8
        ensures { result ≡ write_number self }
    {
        self as u8
    }
}

// Write is refused with what the search that it begins with is refused with. It has the two cases itself, so that its callers
// find the refusals of write in one place.
impl From<SolveRefusal> for WriteRefusal {
    ghost from_gives = { λ e r. write_number r ≡ refusal_number e };

    fn from(refusal: SolveRefusal) -> WriteRefusal {
        match refusal {
            SolveRefusal::Floor => WriteRefusal::Floor,
            SolveRefusal::Memory => WriteRefusal::Memory,
        }
    }
}
