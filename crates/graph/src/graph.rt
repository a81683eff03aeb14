// The game on a graph of at most 64 nodes, with a memory of the nodes that its present line has led through.
ghost use Rattle.std.specs.Prelude.{◌≡◌, ◌<◌, ◌≤◌, false, [], length, is_some, not, Ok, Err};
ghost use Rattle.std.specs.List.{position};
ghost use Rattle.game.specs.Meaning.{Reachable};
ghost use Rattle.game.specs.Prefixes.{prefix};
ghost use Rattle.game.specs.Refusals.{refused_at};
ghost use Rattle.graph_rules.specs.Graphs.{end_good, targets_good, node_good, graph_fault, not_allowed, node_at, standing, side_of, score_of, graph};
ghost use Rattle.graph_rules.proofs.Graphs.{graph_lawful, graph_present};
ghost use Rattle.history.specs.Walks.{line_of, Follows};
ghost use Rattle.history.proofs.Props.{Reachable-prop, Follows-prop};
ghost use native.Mathlib.Nat.{ℕ_set};

use arrayvec::ArrayVec;
use game::interface::Game;
use game::kinds::{Score, Side, Words};
use game::refusal::{PositionRefusal, Refusal};
use graph_rules::node::Node;
use history::history::History;

// A game on a graph: its nodes, and those that the present line has led through.
// The nodes stay as they were handed in: what the game means is told of that row, and sides and scores would be its numbers again.
#[derive(Drop)]
pub struct Graph {
    nodes: ArrayVec<Node, 64>,
    history: History<u8>,
    ghost good: { is_some (graph_fault nodes.items) ≡ false },
    ghost short: { length (line_of history) ≤ 96 },
    ghost legal: { Reachable (graph nodes.items) (line_of history) } by { Reachable-prop (graph nodes.items) _ },
    ghost follows: { Follows (standing nodes.items) history } by { Follows-prop ℕ_set (standing nodes.items) history },
}

fn end_good(n: &Node) -> bool
    ensures { result ≡ end_good n.now }
{
    match n.score {
        255 => (1..=4).contains(&n.count),
        0..=2 => n.count == 0,
        _ => false,
    }
}

fn targets_good(size: usize, n: &Node) -> bool
    ensures { result ≡ targets_good size n.now }
{
    let counted = usize::from(n.count);
    n.targets
        .iter()
        .take(counted)
        .all(|t| usize::from(*t) < size)
}

fn node_good(size: usize, n: &Node) -> bool
    ensures { result ≡ node_good size n.now }
{
    n.turn <= 1 && end_good(n) && targets_good(size, n)
}

// The first bad node.
fn first_bad(nodes: &[Node]) -> Option<usize>
    ensures { result ≡ position (λ n. not (node_good (length nodes.now) n)) nodes.now }
{
    nodes.iter().position(|n| !node_good(nodes.len(), n))
}

// Where at most 64 nodes are found not to be a graph.
fn fault(nodes: &[Node]) -> Option<usize>
    requires { length nodes.now ≤ 64 }
    ensures { result ≡ graph_fault nodes.now }
{
    if nodes.is_empty() {
        Some(0)
    } else {
        first_bad(nodes)
    }
}

// Side 0 is Black, side 1 White. No `From`: only a graph names sides by numbers, and of a node that is none any number may stand there.
fn side_of(turn: u8) -> Side
    ensures { result ≡ side_of turn }
{
    match turn {
        0 => Side::Black,
        _ => Side::White,
    }
}

// The score of an end, by its points; none for 255, and for any other number. No `TryFrom`, whose error would be thrown away at each call.
fn score_of(score: u8) -> Option<Score>
    ensures { result ≡ score_of score }
{
    match score {
        0 => Some(Score::WhiteWins),
        1 => Some(Score::Draw),
        2 => Some(Score::BlackWins),
        _ => None,
    }
}

impl Graph {
    // The game on a copy of the nodes, at its empty line. Refused with 15 where they are not a graph.
    pub fn new(nodes: &[Node]) -> Result<Graph, PositionRefusal>
        ensures answer { refused_at result ≡ not_allowed (graph_fault nodes.now) }
        ensures made { elim result [ Ok c ↦ (graph c.nodes.items ≡ graph nodes.now) × (line_of c.history ≡ []) | Err e ↦ Unit {0} ] }
    {
        let row = ArrayVec::try_from(nodes).map_err(|_| PositionRefusal::NotAllowed { place: 64 })?;
        if let Some(place) = fault(nodes) {
            return Err(PositionRefusal::NotAllowed { place });
        }
        Ok(Graph {
            nodes: row,
            history: History::new(0),
        })
    }

    // The node of the present line.
    fn here(&self) -> Node
        ensures is { result ≡ node_at self.now.nodes.items (standing self.now.nodes.items (line_of self.now.history)) }
        ensures few { result.count ≤ 4 }
    {
        self.nodes[usize::from(self.history.here())]
    }
}

impl Game for Graph {
    ghost means = { λ s. graph s.nodes.items };

    ghost line = { λ s. line_of s.history };

    ghost lawful = { λ s. graph_lawful s.nodes.items s.good };

    ghost present = { λ s. graph_present s.nodes.items s.good (line_of s.history) s.legal s.short };

    fn turn(&self) -> Side {
        side_of(self.here().turn)
    }

    fn moves(&self) -> u32 {
        u32::from(self.here().count)
    }

    fn score(&self) -> Option<Score> {
        score_of(self.here().score)
    }

    fn a(&self) -> u64 {
        u64::from(self.history.here())
    }

    fn b(&self) -> u64 {
        0
    }

    fn context(&self) -> u64 {
        0
    }

    fn level(&self) -> u16 {
        0
    }

    fn independent(&self) -> bool {
        true
    }

    fn played(&self) -> u32 {
        self.history.len()
    }

    #[tactic(auto, using(crate::proofs::Standing::earlier_stands))]
    fn earlier(&self, n: u32) -> Words {
        Words {
            a: u64::from(self.history.at(n)),
            b: 0,
            level: 0,
        }
    }

    #[tactic(auto, using(crate::proofs::Standing::pushed_legal, crate::proofs::Standing::pushed_follows))]
    fn play(&mut self, k: u32) -> Result<(), Refusal> {
        let n = self.here();
        if score_of(n.score).is_some() {
            return Err(Refusal::LineOver);
        }
        if k >= u32::from(n.count) {
            return Err(Refusal::NoSuchMove);
        }
        self.history.push(k as u8, n.targets[k as usize])
    }

    fn take_back(&mut self) -> Result<(), Refusal> {
        self.history.pop()
    }
}
