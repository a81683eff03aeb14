// Why a line gets no answer.
use game::refusal::PositionRefusal;
use hex::FromHexError;
use std::alloc::AllocError;
use thiserror::Error;

#[derive(Clone, Copy, PartialEq, Eq, Debug, Error)]
pub(crate) enum Trouble {
    #[error("malformed")]
    Malformed,
    #[error("no memory")]
    NoMemory(#[from(alloc)] AllocError),
    #[error("no height")]
    NoHeight,
    #[error("refused {} {}", .0.number(), .0.place())]
    Refused(#[from] PositionRefusal),
}

// The program of cards has the same cases for a type of its own: one function for both would be no shorter.
impl From<FromHexError> for Trouble {
    fn from(error: FromHexError) -> Trouble {
        match error {
            FromHexError::OutOfMemory => Trouble::NoMemory(AllocError),
            _ => Trouble::Malformed,
        }
    }
}
