// The calls that are made for a card, in two sessions: the first settles it with the card's table, the second checks the
// proof again with a small one. Both lists of calls go through one call that promises what any two sessions promise.
use crate::card::{Card, Rules};
use crate::refusal::{CardRefusal, NoLine};
use crate::show::Shown;
use atari_go::atari::AtariGo;
use card_line::print_card;
use game::interface::{Bounded, Game, Layer};
use layers::limit::Limit;
use layers::repeat::Repeat;
use proof_file::check::CheckedProof;
use proof_writer::refusal::WriteRefusal;
use search::memory::LineRecord;
use search_method::kinds::{Answer, Pair, SolveRefusal};
use search_method::memory::{LINES, MOVES, WorkMemory};
use session::request::{Reply, Request};
use session::run::requests_in_two_sessions;
use std::alloc::{AllocError, Global};
use std::iter;
use store::entry::Entry;
use store::table::Table;

// What solving answered: the verdict, its move and the plays made. No `Answer`, which may also be out of budget: such a card
// is refused, and has nothing to show.
#[derive(Clone, Copy)]
pub(crate) struct Solved {
    pub(crate) yes: bool,
    pub(crate) best: u8,
    pub(crate) count: u32,
}

// A card that was settled: its line, its board, what solving answered where it was asked, its proof, and the slots of the
// second session's table.
#[derive(Drop)]
pub(crate) struct Settled {
    pub(crate) line: [u8; 80],
    pub(crate) shown: Shown,
    pub(crate) solved: Option<Solved>,
    pub(crate) proof: Vec<u8>,
    pub(crate) tablet: u32,
}

// What the replies of a list tell: what solving answered where it was asked, and the proof that was accepted.
#[derive(Drop)]
struct Told {
    solved: Option<Solved>,
    accepted: CheckedProof,
}

// The plays of the card's line, then some calls, and a check at the end; and room for their replies.
fn requests(
    heap: Global,
    card: &Card,
    calls: &[Request],
    check: Request,
) -> Result<(Vec<Request>, Vec<Option<Reply>>), AllocError> {
    let requests: Vec<Request> = card
        .line()
        .iter()
        .map(|k| Request::Play { k: *k })
        .chain(calls.iter().copied())
        .chain(iter::once(check))
        .collect(heap)?;
    let replies = (0..requests.len()).map(|_| None).collect(heap)?;
    Ok((requests, replies))
}

fn solved_by(answer: Answer) -> Result<Solved, CardRefusal> {
    match answer {
        Answer::Solved { yes, best, count } => Ok(Solved { yes, best, count }),
        Answer::OutOfBudget { .. } => Err(CardRefusal::OutOfBudget),
    }
}

// What a list of calls comes to: refused by the first call that was, or a proof that was accepted. Each list ends in a
// check, so that there always is one.
fn told_by(replies: Vec<Option<Reply>>) -> Result<Told, CardRefusal> {
    let mut solved = None;
    let mut accepted = None;
    for reply in replies {
        match reply {
            Some(Reply::Done(done)) => done?,
            Some(Reply::Solved(answer)) => solved = Some(solved_by(answer?)?),
            Some(Reply::Written(written)) => {
                written?;
            }
            Some(Reply::Checked(proof)) => accepted = Some(proof?),
            None => {}
        }
    }
    let accepted = accepted.ok_or(CardRefusal::Solve(SolveRefusal::Memory))?;
    Ok(Told { solved, accepted })
}

// Makes both lists of calls in two sessions over the card's tables, with this buffer: the plays of the line; then, in the
// first, the work and the check; in the second the check alone. The proof is in the buffer where both sessions accepted it.
fn attempt<G: Bounded + Drop, F: Fn() -> Result<G, CardRefusal>>(
    heap: Global,
    card: &Card,
    work: &[Request],
    check: Request,
    buffer: &mut [u8],
    make: &F,
) -> Result<Told, NoLine>
    // Each function that calls a closure of its caller asks that it may be called, here and below.
    requires { F.IsAlwaysCallable make.now }
{
    // Work memory is made where it is lent: a type that keeps both rows and lends them would be longer than these lines.
    let mut lines = vec![in heap; LineRecord::default(); LINES]?;
    let mut moves = vec![in heap; Pair::default(); MOVES]?;
    let mut slots: Vec<Option<Entry>> = vec![in heap; None; card.slots() as usize]?;
    let mut tablet: Vec<Option<Entry>> = vec![in heap; None; card.tablet() as usize]?;
    let (first, mut replies) = requests(heap, card, work, check)?;
    let (second, mut answers) = requests(heap, card, &[], check)?;
    let (one, two) = requests_in_two_sessions(
        make()?,
        Table::new(&mut slots),
        &first,
        &mut replies,
        make()?,
        Table::new(&mut tablet),
        &second,
        &mut answers,
        buffer,
        &mut WorkMemory {
            lines: &mut lines,
            moves: &mut moves,
        },
    );
    let (_, _) = one.close();
    let (_, _) = two.close();
    let told = told_by(replies)?;
    told_by(answers)?;
    Ok(told)
}

// A card without a proof is solved and a proof written, in a buffer that grows until the proof fits.
fn attempt_fresh<G: Bounded + Drop, F: Fn() -> Result<G, CardRefusal>>(
    heap: Global,
    card: &Card,
    make: &F,
) -> Result<(Told, Vec<u8>), NoLine>
    requires { F.IsAlwaysCallable make.now }
{
    let floor = card.floor();
    let budget = card.budget();
    let work = [
        Request::Solve { floor, budget },
        Request::Write { floor, budget },
    ];
    let check = Request::CheckWritten { budget };
    // The sizes end past any memory: the last saturates, so that there is no such buffer, if not one before it.
    for step in 0..16 {
        let size = 1_048_576_usize.saturating_mul(8_usize.saturating_pow(step));
        let mut buffer = vec![in heap; 0; size]?;
        match attempt(heap, card, &work, check, &mut buffer, make) {
            Err(NoLine::Refused(CardRefusal::Write(WriteRefusal::NoRoom))) => {}
            told => return Ok((told?, buffer)),
        }
    }
    Err(NoLine::Refused(CardRefusal::Write(WriteRefusal::NoRoom)))
}

// The side length of the board, by the text of a position in form. The layers over the game do not tell it.
fn board_size(position: &[u8]) -> u32 {
    position
        .get(1)
        .map_or(0, |digit| u32::from(digit.saturating_sub(b'0')))
}

// The board after the moves of the card's line, up to the first that is refused.
fn look<G: Game + Drop>(card: &Card, mut game: G) -> Result<Shown, CardRefusal> {
    for k in card.line() {
        game.play(*k)?;
    }
    Ok(Shown::of(board_size(card.position), &game))
}

// What the card comes to over its game. The line is tried first, so that a card whose moves are refused opens no session.
fn settle<G: Bounded + Drop, F: Fn() -> Result<G, CardRefusal>>(
    heap: Global,
    card: &Card,
    number: u32,
    posted: Option<Vec<u8>>,
    make: &F,
) -> Result<Settled, NoLine>
    requires { F.IsAlwaysCallable make.now }
{
    let shown = look(card, make()?)?;
    let (told, mut proof) = match posted {
        Some(mut proof) => {
            let check = Request::Check {
                length: proof.len(),
                budget: card.budget(),
            };
            (attempt(heap, card, &[], check, &mut proof, make)?, proof)
        }
        None => attempt_fresh(heap, card, make)?,
    };
    let Told { solved, accepted } = told;
    proof.truncate(accepted.length());
    let mut line = [0; 80];
    print_card(accepted, number, &mut line);
    Ok(Settled {
        line,
        shown,
        solved,
        proof,
        tablet: card.tablet(),
    })
}

// What the card comes to, under its rules.
pub(crate) fn settle_card(
    heap: Global,
    card: &Card,
    number: u32,
    posted: Option<Vec<u8>>,
) -> Result<Settled, NoLine> {
    let read = || -> Result<AtariGo, CardRefusal> { Ok(AtariGo::read(card.position)?) };
    match card.rules {
        Rules::Plain => settle(heap, card, number, posted, &read),
        Rules::Repeat => settle(
            heap,
            card,
            number,
            posted,
            &|| { Ok(Repeat::over(read()?, ())) },
        ),
        Rules::Limit(n) => settle(heap, card, number, posted, &|| Ok(Limit::over(read()?, n))),
        Rules::RepeatThenLimit(n) => settle(
            heap,
            card,
            number,
            posted,
            &|| { Ok(Limit::over(Repeat::over(read()?, ()), n)) },
        ),
        Rules::LimitThenRepeat(n) => settle(
            heap,
            card,
            number,
            posted,
            &|| { Ok(Repeat::over(Limit::over(read()?, n), ())) },
        ),
    }
}
