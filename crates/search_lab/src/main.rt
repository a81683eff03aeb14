// The search laboratory: answers search cases, so that another implementation can be compared with it.
//
// Each line of standard input is a case: a position, rule layers over it, a store, and questions. The questions of a case
// are asked in order of one game and one store, and each gets a line of output. tools/README.md has the format.
//
// `case` reads a case, `ask` a question and puts it to the search, to the writer of proofs or to their check; `main` prints.
#![tactic(auto)]

mod ask;
mod case;
mod trouble;

use crate::ask::{answer_to, question_of};
use crate::case::{Case, Fields, Rules, case_of, nodes_of};
use crate::trouble::Trouble;
use atari_go::atari::AtariGo;
use game::interface::{Bounded, Game, Layer};
use graph::graph::Graph;
use layers::limit::Limit;
use layers::repeat::Repeat;
use search::memory::LineRecord;
use search_method::kinds::Pair;
use search_method::memory::{LINES, MOVES, WorkMemory};
use std::io;
use std::io::{BufRead, BufReader};
use std::iter::Peekable;
use store::entry::Entry;
use store::interface::Store;
use store::null::Null;
use store::table::Table;

// Puts the questions of a case to one game and one store.
fn ask_all<G: Bounded, S: Store>(
    rt: &HostRuntime,
    game: &mut G,
    store: &mut S,
    questions: Peekable<Fields<'_>>,
) -> io::Result<()> {
    // Work memory is made where it is lent: a type that keeps both rows and lends them would be longer than these lines.
    let mut lines = vec![in rt.alloc(); LineRecord::default(); LINES]?;
    let mut moves = vec![in rt.alloc(); Pair::default(); MOVES]?;
    let mut memory = WorkMemory {
        lines: &mut lines,
        moves: &mut moves,
    };
    for text in questions {
        match question_of(rt.alloc(), text) {
            Ok(question) => {
                let reply = answer_to(rt.alloc(), game, store, &mut memory, &question)?;
                println!(rt; "{reply}")?;
            }
            Err(trouble) => println!(rt; "{trouble}")?,
        }
    }
    Ok(())
}

// A limit over any game. Each stack of layers is laid in a function of its own, out of line: in one frame, every case would blank
// the room for the games of all of them.
#[inline(never)]
fn in_limit<G: Game + Drop, S: Store>(
    rt: &HostRuntime,
    game: G,
    n: u32,
    store: &mut S,
    asked: Peekable<Fields<'_>>,
) -> io::Result<()> {
    ask_all(rt, &mut Limit::over(game, n), store, asked)
}

// A limit over a limit.
#[inline(never)]
fn in_limits<G: Game + Drop, S: Store>(
    rt: &HostRuntime,
    game: G,
    (n, top): (u32, u32),
    store: &mut S,
    asked: Peekable<Fields<'_>>,
) -> io::Result<()> {
    ask_all(
        rt,
        &mut Limit::over(Limit::over(game, n), top),
        store,
        asked,
    )
}

// A limit over the repetition rule.
#[inline(never)]
fn in_repeat_limit<G: Game + Drop, S: Store>(
    rt: &HostRuntime,
    game: G,
    n: u32,
    store: &mut S,
    asked: Peekable<Fields<'_>>,
) -> io::Result<()> {
    ask_all(
        rt,
        &mut Limit::over(Repeat::over(game, ()), n),
        store,
        asked,
    )
}

// The repetition rule over a limit.
#[inline(never)]
fn in_limit_repeat<G: Game + Drop, S: Store>(
    rt: &HostRuntime,
    game: G,
    n: u32,
    store: &mut S,
    asked: Peekable<Fields<'_>>,
) -> io::Result<()> {
    ask_all(
        rt,
        &mut Repeat::over(Limit::over(game, n), ()),
        store,
        asked,
    )
}

// A limit over the repetition rule over a limit.
#[inline(never)]
fn in_limit_repeat_limit<G: Game + Drop, S: Store>(
    rt: &HostRuntime,
    game: G,
    (n, top): (u32, u32),
    store: &mut S,
    asked: Peekable<Fields<'_>>,
) -> io::Result<()> {
    let below = Repeat::over(Limit::over(game, n), ());
    ask_all(rt, &mut Limit::over(below, top), store, asked)
}

// Lays rules with a limit among them over any game.
fn under_limit<G: Game + Drop, S: Store>(
    rt: &HostRuntime,
    game: G,
    store: &mut S,
    case: Case<'_>,
) -> io::Result<()> {
    let asked = case.questions;
    match case.rules {
        Rules::Limit(n) => in_limit(rt, game, n, store, asked),
        Rules::LimitLimit(n, top) => in_limits(rt, game, (n, top), store, asked),
        Rules::RepeatLimit(n) => in_repeat_limit(rt, game, n, store, asked),
        Rules::LimitRepeat(n) => in_limit_repeat(rt, game, n, store, asked),
        Rules::LimitRepeatLimit(n, top) => {
            in_limit_repeat_limit(rt, game, (n, top), store, asked)
        }
        _ => println!(rt; "{}", Trouble::NoHeight),
    }
}

// The repetition rule over a bounded game.
#[inline(never)]
fn in_repeat<G: Bounded + Drop, S: Store>(
    rt: &HostRuntime,
    game: G,
    store: &mut S,
    asked: Peekable<Fields<'_>>,
) -> io::Result<()> {
    ask_all(rt, &mut Repeat::over(game, ()), store, asked)
}

// Lays any rules over a bounded game.
fn under_rules<G: Bounded + Drop, S: Store>(
    rt: &HostRuntime,
    mut game: G,
    store: &mut S,
    case: Case<'_>,
) -> io::Result<()> {
    match case.rules {
        Rules::Plain => ask_all(rt, &mut game, store, case.questions),
        Rules::Repeat => in_repeat(rt, game, store, case.questions),
        _ => under_limit(rt, game, store, case),
    }
}

// Asks on a graph. The graph is handed on from where it is made: an answer around it, with the error of this program, would be
// one more copy of its nodes. It is kept out of line, as is the next: in the frame of `answer` every kind of game would take stack
// for every case.
#[inline(never)]
fn on_graph<S: Store>(
    rt: &HostRuntime,
    nodes: &str,
    store: &mut S,
    case: Case<'_>,
) -> io::Result<()> {
    let nodes = match nodes_of(rt.alloc(), nodes) {
        Ok(nodes) => nodes,
        Err(trouble) => return println!(rt; "{trouble}"),
    };
    match Graph::new(&nodes) {
        Ok(game) => under_limit(rt, game, store, case),
        Err(refusal) => println!(rt; "{}", Trouble::Refused(refusal)),
    }
}

// Asks on a board.
#[inline(never)]
fn on_board<S: Store>(rt: &HostRuntime, store: &mut S, case: Case<'_>) -> io::Result<()> {
    match AtariGo::read(case.position.as_bytes()) {
        Ok(game) => under_rules(rt, game, store, case),
        Err(refusal) => println!(rt; "{}", Trouble::Refused(refusal)),
    }
}

// Asks on the position of a case: a graph where it says so, else a board.
fn on_position<S: Store>(rt: &HostRuntime, store: &mut S, case: Case<'_>) -> io::Result<()> {
    match case.position.strip_prefix("graph:") {
        Some(nodes) => on_graph(rt, nodes, store, case),
        None => on_board(rt, store, case),
    }
}

// Answers a case.
fn answer(rt: &HostRuntime, text: &str) -> io::Result<()> {
    let Some(case) = case_of(text) else {
        return println!(rt; "{}", Trouble::Malformed);
    };
    let Some(slots) = case.slots else {
        return on_position(rt, &mut Null, case);
    };
    let mut row: Vec<Option<Entry>> = vec![in rt.alloc(); None; slots as usize]?;
    on_position(rt, &mut Table::new(&mut row), case)
}

// Neither blank nor a comment.
fn is_case(text: &str) -> bool {
    let text = text.trim_start_matches(' ');
    !text.is_empty() && !text.starts_with('#')
}

fn main(rt: HostRuntime) -> io::Result<()> {
    for line in BufReader::new(rt.alloc(), rt.stdin())?.lines(rt.alloc()) {
        let text = line?;
        if is_case(&text) {
            answer(&rt, &text)?;
        }
    }
    Ok(())
}
