// What can be asked of a session, and what it replies.
use game::refusal::Refusal;
use proof_file::check::CheckedProof;
use proof_file::fault::Fault;
use proof_writer::refusal::WriteRefusal;
use proof_writer::write::Written;
use search_method::kinds::{Answer, SolveRefusal};

// A call of a session. `Write` is into the whole of the lent buffer; `Check` is of the first `length` bytes of the lent buffer, or of all where it has no more;
// `CheckWritten` is of the bytes that the last write put there, none where it put none.
#[derive(Clone, Copy)]
pub enum Request {
    Play { k: u32 },
    TakeBack,
    Clear,
    Solve { floor: u32, budget: u32 },
    Write { floor: u32, budget: u32 },
    Check { length: usize, budget: u32 },
    CheckWritten { budget: u32 },
}

// What a call answered: that it was done, which a play, a take back and a clear answer, or why not; and what the other three
// calls answer. An accepted proof is handed out to the caller.
#[derive(Drop)]
pub enum Reply {
    Done(Result<(), Refusal>),
    Solved(Result<Answer, SolveRefusal>),
    Written(Result<Written, WriteRefusal>),
    Checked(Result<CheckedProof, Fault>),
}

// A request, and its reply once the call is made.
#[derive(Drop)]
pub struct Exchange {
    pub request: Request,
    pub reply: Option<Reply>,
}
