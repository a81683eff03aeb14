// Why no line is printed for a card.
use crate::card::NotCard;
use game::refusal::{PositionRefusal, Refusal};
use proof_file::fault::{Fault, Reason};
use proof_writer::refusal::WriteRefusal;
use search_method::kinds::SolveRefusal;
use std::alloc::AllocError;
use std::fmt;
use thiserror::Error;

// The call that refused the card, with what it answered; or that the budget did not suffice to solve it.
#[derive(Clone, Copy, PartialEq, Eq, Debug, Error)]
#[error("refused {}: {}", self.number(), self.words())]
pub(crate) enum CardRefusal {
    Move(#[from] Refusal),
    #[error("refused {}, place {}: {}", self.number(), .0.place(), self.words())]
    Position(#[from] PositionRefusal),
    Solve(#[from] SolveRefusal),
    OutOfBudget,
    Write(#[from] WriteRefusal),
    #[error(fmt = fault_in_words)]
    Proof(#[from] Fault),
}

impl CardRefusal {
    // docs/REFUSALS.md has every number.
    fn number(self) -> u8 {
        match self {
            CardRefusal::Move(refusal) => refusal.number(),
            CardRefusal::Position(refusal) => refusal.number(),
            CardRefusal::Solve(refusal) => refusal.number(),
            CardRefusal::OutOfBudget => 7,
            CardRefusal::Write(refusal) => refusal.number(),
            CardRefusal::Proof(fault) => fault.number(),
        }
    }

    fn words(self) -> &'static str {
        match self {
            CardRefusal::Move(refusal) => move_words(refusal),
            CardRefusal::Position(PositionRefusal::OutOfForm { .. }) =>
                "the position is out of form",
            CardRefusal::Position(PositionRefusal::NotAllowed { .. }) => "a group has no liberty",
            CardRefusal::Solve(SolveRefusal::Floor) => FLOOR,
            CardRefusal::Solve(SolveRefusal::Memory) => MEMORY,
            CardRefusal::OutOfBudget => BUDGET,
            CardRefusal::Write(WriteRefusal::Floor) => FLOOR,
            CardRefusal::Write(WriteRefusal::Memory) => MEMORY,
            CardRefusal::Write(WriteRefusal::OutOfBudget) => BUDGET,
            CardRefusal::Write(WriteRefusal::NoRoom) => "the proof does not fit",
            CardRefusal::Proof(fault) => fault_words(fault.reason),
        }
    }
}

const FLOOR: &str = "the floor is neither 1 nor 2";

const MEMORY: &str = "too little work memory";

const BUDGET: &str = "out of budget";

fn move_words(refusal: Refusal) -> &'static str {
    match refusal {
        Refusal::NoSuchMove => "no move of that number",
        Refusal::LineOver => "the game is over",
        Refusal::LineFull => "the line has 96 moves",
        Refusal::AtStart => "there is no move to take back",
    }
}

fn fault_words(reason: Reason) -> &'static str {
    match reason {
        Reason::Memory => MEMORY,
        Reason::OutOfBudget => BUDGET,
        Reason::NotANumber => {
            "a number is cut off, too long, too large or not in its shortest form"
        }
        Reason::NotAClaim => "the floor is not 1 or 2, or the verdict is not 0 or 1",
        Reason::Refused(_) => "the game refuses a written move",
        Reason::Denied => "the game ends against the claim",
        Reason::BytesLeft => "bytes are left after the proof",
    }
}

// A fault, with the number of the game's own refusal where it has one.
fn fault_in_words<W: fmt::Write>(fault: &Fault, f: &mut fmt::Formatter<W>) -> fmt::Result {
    let Fault {
        reason,
        place,
        depth,
    } = *fault;
    write!(
        f,
        "refused {}, place {place}, depth {depth}",
        fault.number()
    )?;
    if let Some(refusal) = fault.refusal() {
        write!(f, ", carrying {}", refusal.number())?;
    }
    write!(f, ": {}", fault_words(reason))
}

// The line is no card, there is no memory for it, or it was refused.
#[derive(Clone, Copy, PartialEq, Eq, Debug, Error)]
pub(crate) enum NoLine {
    #[error("not a card, {0}")]
    NotCard(#[from] NotCard),
    #[error("no memory")]
    NoMemory(#[from(alloc)] AllocError),
    #[error("{0}")]
    Refused(#[from] CardRefusal),
}
