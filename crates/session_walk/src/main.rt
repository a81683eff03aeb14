// Long random lists of calls in two sessions over random graphs with random layers and table sizes. Each verdict, and the
// claim of each accepted proof, is compared with a plain walk of the game tree. The first argument is the number of cases
// (20 without one); the same cases come at every run.
#![tactic(auto)]

use game::interface::{Bounded, Game, Layer};
use game::refusal::PositionRefusal;
use graph::graph::Graph;
use graph_rules::node::Node;
use layers::limit::Limit;
use layers::repeat::Repeat;
use search::memory::LineRecord;
use search_method::kinds::{Answer, Pair};
use search_method::memory::{LINES, MOVES, WorkMemory};
use session::request::{Reply, Request};
use session::run::requests_in_two_sessions;
use std::alloc::{AllocError, Global};
use std::env;
use store::entry::Entry;
use store::table::Table;
use thiserror::Error;

// A source of numbers that look random: the same at every run.
#[derive(Drop)]
struct Dice {
    state: u64,
}

impl Dice {
    // A number below n, 0 where n is 0.
    fn below(&mut self, n: u32) -> u32 {
        self.state = self
            .state
            .wrapping_mul(6364136223846793005)
            .wrapping_add(1442695040888963407);
        if n == 0 {
            return 0;
        }
        ((self.state >> 33) % u64::from(n)) as u32
    }

    fn byte(&mut self, n: u8) -> u8 {
        (self.below(u32::from(n)) & 0xff) as u8
    }
}

// What can go wrong on the way: no memory, or a random graph that is not one.
#[derive(Clone, Copy, Debug, Error)]
enum Failure {
    #[error("no memory")]
    NoMemory(#[from] AllocError),
    #[error("a graph was refused")]
    NoGraph(#[from] PositionRefusal),
}

// The value of the game's line, by walking every line of at most `depth` more moves.
#[cycle(best_of_value_of)]
fn value_of<G: Game>(game: &mut G, depth: u32) -> u8 {
    match game.score() {
        Some(score) => score.points(),
        None => best_of(game, depth),
    }
}

#[cycle(best_of_value_of)]
fn best_of<G: Game>(game: &mut G, depth: u32) -> u8 {
    if depth == 0 {
        return 1;
    }
    let black = game.turn().is_black();
    let mut best: u8 = if black { 0 } else { 2 };
    for k in 0..game.moves() {
        if game.play(k).is_ok() {
            let v = value_of(game, depth - 1);
            let _ = game.take_back();
            best = if black { best.max(v) } else { best.min(v) };
        }
    }
    best
}

fn random_node(dice: &mut Dice, size: u8) -> Node {
    let turn = dice.byte(2);
    if dice.below(4) == 0 {
        return Node {
            turn,
            score: dice.byte(3),
            count: 0,
            targets: [0; 4],
        };
    }
    Node {
        turn,
        score: 255,
        count: dice.byte(3).saturating_add(1),
        targets: [dice.byte(size), dice.byte(size), dice.byte(size), 0],
    }
}

fn random_graph(heap: Global, dice: &mut Dice) -> Result<Vec<Node>, AllocError> {
    let size = dice.byte(7).saturating_add(2);
    (0..size).map(|_| random_node(dice, size)).collect(heap)
}

fn random_request(dice: &mut Dice) -> Request {
    let floor = if dice.below(12) == 0 {
        dice.below(4)
    } else {
        dice.below(2).saturating_add(1)
    };
    let budget = if dice.below(3) == 0 {
        dice.below(40)
    } else {
        100_000
    };
    match dice.below(10) {
        0..=2 => Request::Play { k: dice.below(4) },
        3 | 4 => Request::TakeBack,
        5 | 6 => Request::Solve { floor, budget },
        7 => Request::Write { floor, budget },
        8 => Request::CheckWritten { budget },
        _ if dice.below(6) == 0 => Request::Clear,
        _ => Request::Solve { floor, budget },
    }
}

// Requests, and room for their replies.
fn random_list(
    heap: Global,
    dice: &mut Dice,
) -> Result<(Vec<Request>, Vec<Option<Reply>>), AllocError> {
    let requests = (0..40).map(|_| random_request(dice)).collect(heap)?;
    let replies = (0..40).map(|_| None).collect(heap)?;
    Ok((requests, replies))
}

// What was done and found.
#[derive(Clone, Copy, Default)]
struct Tally {
    calls: u32,
    verdicts: u32,
    proofs: u32,
    wrong: u32,
}

impl Tally {
    // One verdict against the walk of the game tree.
    fn judge<G: Game>(&mut self, game: &mut G, floor: u32, yes: bool) {
        let value = u32::from(value_of(game, 96));
        if (value >= floor) != yes {
            self.wrong = self.wrong.saturating_add(1);
        }
    }

    // One call as it was answered: the game goes where the session went, and verdicts are judged there.
    fn follow<G: Game>(&mut self, game: &mut G, request: Request, reply: &Reply) {
        self.calls = self.calls.saturating_add(1);
        match (request, reply) {
            (Request::Play { k }, Reply::Done(Ok(()))) => {
                let _ = game.play(k);
            }
            (Request::TakeBack, Reply::Done(Ok(()))) => {
                let _ = game.take_back();
            }
            (Request::Solve { floor, .. }, Reply::Solved(Ok(Answer::Solved { yes, .. }))) => {
                self.verdicts = self.verdicts.saturating_add(1);
                self.judge(game, floor, *yes);
            }
            (Request::Write { floor, .. }, Reply::Written(Ok(written))) => {
                self.verdicts = self.verdicts.saturating_add(1);
                self.judge(game, floor, written.yes);
            }
            (_, Reply::Checked(Ok(checked))) => {
                self.proofs = self.proofs.saturating_add(1);
                self.judge(game, u32::from(checked.floor()), checked.yes());
            }
            _ => {}
        }
    }

    // The calls that were made, one after another.
    fn follow_all<G: Game + Drop>(
        &mut self,
        mut game: G,
        requests: &[Request],
        replies: &[Option<Reply>],
    ) {
        for (request, reply) in requests.iter().zip(replies) {
            if let Some(reply) = reply {
                self.follow(&mut game, *request, reply);
            }
        }
    }
}

// Two sessions over two equal games, each with a list of calls of its own and a table of its own. Two more games follow
// them; `make` makes each of the four.
fn two_sessions<G: Bounded + Drop, F: Fn() -> Result<G, Failure>>(
    heap: Global,
    dice: &mut Dice,
    make: F,
    tally: &mut Tally,
) -> Result<(), Failure>
    requires { F.IsAlwaysCallable make }
{
    // Work memory is made where it is lent: a type that keeps both rows and lends them would be longer than these lines.
    let mut lines = vec![in heap; LineRecord::default(); LINES]?;
    let mut moves = vec![in heap; Pair::default(); MOVES]?;
    let mut slots: Vec<Option<Entry>> = vec![in heap; None; dice.below(9) as usize]?;
    let mut others: Vec<Option<Entry>> = vec![in heap; None; dice.below(400) as usize]?;
    let mut bytes: Vec<u8> = vec![in heap; 0; dice.below(60) as usize]?;
    let (list, mut replies) = random_list(heap, dice)?;
    let (more, mut answers) = random_list(heap, dice)?;
    let (one, two) = requests_in_two_sessions(
        make()?,
        Table::new(&mut slots),
        &list,
        &mut replies,
        make()?,
        Table::new(&mut others),
        &more,
        &mut answers,
        &mut bytes,
        &mut WorkMemory {
            lines: &mut lines,
            moves: &mut moves,
        },
    );
    let (_, _) = one.close();
    let (_, _) = two.close();
    tally.follow_all(make()?, &list, &replies);
    tally.follow_all(make()?, &more, &answers);
    Ok(())
}

// A random graph under layers: repetition under a limit, or the other way about.
fn one_case(heap: Global, dice: &mut Dice, tally: &mut Tally) -> Result<(), Failure> {
    let nodes = random_graph(heap, dice)?;
    let nodes = nodes.as_slice();
    let n = dice.below(7).saturating_add(1);
    if dice.below(3) == 0 {
        let make = || Ok(Repeat::over(Limit::over(Graph::new(nodes)?, n), ()));
        two_sessions(heap, dice, make, tally)
    } else {
        let make = || Ok(Limit::over(Repeat::over(Graph::new(nodes)?, ()), n));
        two_sessions(heap, dice, make, tally)
    }
}

// The number of cases that the first argument asks for.
fn cases_asked(rt: &HostRuntime) -> anyhow::Result<u32> {
    match env::args(rt)?.nth(1) {
        Some(word) => Ok(word.parse::<u32>()?),
        None => Ok(20),
    }
}

fn main(rt: HostRuntime) -> anyhow::Result<()> {
    let cases = cases_asked(&rt)?;
    let mut dice = Dice { state: 20261117 };
    let mut tally = Tally::default();
    for _ in 0..cases {
        one_case(rt.alloc(), &mut dice, &mut tally)?;
    }
    let Tally {
        calls,
        verdicts,
        proofs,
        wrong,
    } = tally;
    println!(rt;
        "{cases} cases, two sessions each: {calls} calls, {verdicts} verdicts, {proofs} proofs accepted, {wrong} against the game tree"
    )?;
    Ok(())
}
