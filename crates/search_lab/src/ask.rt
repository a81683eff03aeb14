// A question and its answer.
use crate::trouble::Trouble;
use game::interface::{Bounded, Game, rewind};
use game::refusal::Refusal;
use proof_file::check::{CheckedProof, check};
use proof_file::fault::Fault;
use proof_writer::refusal::WriteRefusal;
use proof_writer::write::{Written, write};
use search::memory::SearchMemory;
use search::solve::solve;
use search_method::kinds::{Answer, SolveRefusal};
use std::alloc::{AllocError, Global};
use std::fmt;
use store::interface::Store;
use texts::number;

// What is asked of a line: the verdict, a proof of it, or whether a proof is accepted.
#[derive(Drop)]
enum Asked {
    Solve { floor: u32, budget: u32 },
    Write { floor: u32, budget: u32, size: u32 },
    Check { proof: Vec<u8>, budget: u32 },
}

#[derive(Drop)]
pub(crate) struct Question {
    line: Vec<u32>,
    asked: Asked,
}

// What came of a question: the way to its line was refused, or the call answered. A proof that was written comes with its
// hexadecimal digits, which are made at once: a format for each byte would take several times as long.
#[derive(Drop)]
pub(crate) enum Reply {
    NoLine(Refusal),
    Solved(Result<Answer, SolveRefusal>),
    Written(Result<(Written, String), WriteRefusal>),
    Checked(Result<CheckedProof, Fault>),
}

// The verdict in a word. `cards` and the card line print it too, each in a line of its own: a shared function would be no shorter.
fn word(yes: bool) -> &'static str {
    if yes { "yes" } else { "no" }
}

impl fmt::Display for Reply {
    fn fmt<W: fmt::Write>(&self, f: &mut fmt::Formatter<W>) -> fmt::Result {
        match self {
            // Three refusals are shown alike, but are of three types, so that no one pattern binds them.
            Reply::NoLine(refusal) => write!(f, "refused {}", refusal.number()),
            Reply::Solved(Ok(Answer::Solved { yes, best, count })) => {
                write!(f, "{} {best} {count}", word(*yes))
            }
            Reply::Solved(Ok(Answer::OutOfBudget { count })) => write!(f, "out-of-budget {count}"),
            Reply::Solved(Err(refusal)) => write!(f, "refused {}", refusal.number()),
            Reply::Written(Ok((proof, digits))) => {
                let said = word(proof.yes);
                write!(f, "{said} {} {} {digits}", proof.length, proof.plays)
            }
            Reply::Written(Err(refusal)) => write!(f, "refused {}", refusal.number()),
            Reply::Checked(Ok(proof)) => {
                let said = word(proof.yes());
                write!(
                    f,
                    "accepted {} {said} {} {}",
                    proof.floor(),
                    proof.length(),
                    proof.plays()
                )
            }
            Reply::Checked(Err(fault)) => {
                let Fault { place, depth, .. } = fault;
                write!(
                    f,
                    "refused {} {place} {depth} {}",
                    fault.number(),
                    fault.carried()
                )
            }
        }
    }
}

// The moves of a line, with commas between them; a dash for the empty line. The program of cards reads its moves so too, but
// from bytes and with an error of its own: a function for both would be handed the reading and the error.
fn line_of(heap: Global, text: &str) -> Result<Vec<u32>, Trouble> {
    if text == "-" {
        return Ok(Vec::new(heap));
    }
    text.split(',')
        .map(|digits| number(digits).ok_or(Trouble::Malformed))
        .try_collect(heap)
}

// The floor and the budget.
fn solve_of(terms: &str) -> Option<Asked> {
    let (floor, budget) = terms.split_once('/')?;
    Some(Asked::Solve {
        floor: number(floor)?,
        budget: number(budget)?,
    })
}

// The floor, the budget and the size of the buffer.
fn write_of(terms: &str) -> Option<Asked> {
    let (floor, rest) = terms.split_once('/')?;
    let (budget, size) = rest.split_once('/')?;
    Some(Asked::Write {
        floor: number(floor)?,
        budget: number(budget)?,
        size: number(size)?,
    })
}

// The proof, in lower-case hexadecimal digits, and the budget.
fn check_of(heap: Global, terms: &str) -> Result<Asked, Trouble> {
    let (digits, budget) = terms.split_once('/').ok_or(Trouble::Malformed)?;
    if digits.bytes().any(|byte| byte.is_ascii_uppercase()) {
        return Err(Trouble::Malformed);
    }
    Ok(Asked::Check {
        budget: number(budget).ok_or(Trouble::Malformed)?,
        proof: hex::decode(heap, digits)?,
    })
}

fn asked_of(heap: Global, call: &str, terms: &str) -> Result<Asked, Trouble> {
    match call {
        "solve" => solve_of(terms).ok_or(Trouble::Malformed),
        "write" => write_of(terms).ok_or(Trouble::Malformed),
        "check" => check_of(heap, terms),
        _ => Err(Trouble::Malformed),
    }
}

pub(crate) fn question_of(heap: Global, text: &str) -> Result<Question, Trouble> {
    let (call, rest) = text.split_once('=').ok_or(Trouble::Malformed)?;
    let (line, terms) = rest.split_once('/').ok_or(Trouble::Malformed)?;
    Ok(Question {
        line: line_of(heap, line)?,
        asked: asked_of(heap, call, terms)?,
    })
}

// Goes to a line from the start.
fn go_to<G: Game>(game: &mut G, line: &[u32]) -> Result<(), Refusal> {
    rewind(game);
    for k in line {
        game.play(*k)?;
    }
    Ok(())
}

// Writes a proof into a row of the size that is asked for.
fn ask_write<G: Bounded, S: Store>(
    heap: Global,
    game: &mut G,
    store: &mut S,
    memory: &mut SearchMemory<'_>,
    floor: u32,
    budget: u32,
    size: u32,
) -> Result<Reply, AllocError> {
    let mut out = vec![in heap; 0u8; size as usize]?;
    match write(game, store, floor, budget, memory, &mut out) {
        Ok(proof) => {
            out.truncate(proof.length);
            Ok(Reply::Written(Ok((proof, hex::encode(heap, &out)?))))
        }
        Err(refusal) => Ok(Reply::Written(Err(refusal))),
    }
}

// The answer to a question.
pub(crate) fn answer_to<G: Bounded, S: Store>(
    heap: Global,
    game: &mut G,
    store: &mut S,
    memory: &mut SearchMemory<'_>,
    question: &Question,
) -> Result<Reply, AllocError> {
    if let Err(refusal) = go_to(game, &question.line) {
        return Ok(Reply::NoLine(refusal));
    }
    match &question.asked {
        Asked::Solve { floor, budget } => {
            Ok(Reply::Solved(solve(game, store, *floor, *budget, memory)))
        }
        Asked::Write {
            floor,
            budget,
            size,
        } => ask_write(heap, game, store, memory, *floor, *budget, *size),
        Asked::Check { proof, budget } => Ok(Reply::Checked(check(game, proof, *budget, memory))),
    }
}
