ghost use Rattle.std.specs.Prelude.{◌≡◌, ℕ, ◌+◌, ◌-◌, ◌<◌, ◌≤◌, List, [], ◌∷◌, length, drop, reverse, cond, nat_le, OnOk, OnErr};
ghost use Rattle.game.specs.Meaning.{Line, Meaning, Reachable};
ghost use Rattle.game.specs.Prefixes.{prefix};
ghost use Rattle.game.specs.Refusals.{refused_by, back_answer, shorter, line_after};
ghost use Rattle.history.specs.Walks.{line_of, led_to, place_at, step_more, step_less, Follows};

use arrayvec::ArrayVec;
use game::refusal::Refusal;
use std::default::MadeWith;
use std::marker::Model;

// A move of a line, and the position that it leads to.
#[derive(Clone, Copy)]
pub struct Step<P> {
    number: u8,
    place: P,
}

// What fills the unused room of a history.
impl<P: Copy> MadeWith<P> for Step<P> {
    fn made_with(place: P) -> Step<P> {
        Step { number: 0, place }
    }
}

// Where a game started, and the steps of its present line.
#[derive(Drop)]
pub struct History<P> {
    start: P,
    steps: ArrayVec<Step<P>, 96, P>,
}

impl<P> Model for History<P> {
    ghost use Rattle.std.specs.Prelude.{◌≤◌, reverse, length};
    ghost use Rattle.history.specs.Walks.{Walk};

    ghost Value = { Walk P };

    ghost view = { λ h. record { start = h.start; steps = reverse h.steps.items } };

    ghost invariant = { λ h. length h.steps.items ≤ 96 };
}

// The position that the steps lead to, which are listed the oldest first.
fn led_to<P: Copy>(start: P, steps: &[Step<P>]) -> P
    ensures { result ≡ led_to start (reverse steps.now) }
{
    steps.last().map_or(start, |step| step.place)
}

impl<P: Copy> History<P> {
    // The empty line from this start.
    pub fn new(start: P) -> Self
        ensures start { result.start ≡ start }
        ensures empty { result.steps ≡ [] }
    {
        History {
            start,
            steps: ArrayVec::new_in(start),
        }
    }

    pub fn start(&self) -> P
        ensures { result ≡ self.now.start }
    {
        self.start
    }

    // The length of the line.
    pub fn len(&self) -> u32
        ensures is { result ≡ length (line_of self.now) }
        ensures few { result ≤ 96 }
    {
        self.steps.len() as u32
    }

    // The position of the line.
    #[tactic(auto, using(crate::proofs::Walks::here_stands))]
    pub fn here(&self) -> P
        ensures is { result ≡ led_to self.now.start self.now.steps }
        ensures stands { (stands : Line → P) → Follows stands self.now → result ≡ stands (line_of self.now) }
    {
        led_to(self.start, self.steps.as_slice())
    }

    // The position that the first n steps lead to, or all where there are no more.
    #[tactic(auto, using(crate::proofs::Walks::first_reversed))]
    fn place_at(&self, n: u32) -> P
        ensures { result ≡ place_at self.now n }
    {
        let first = (n as usize).min(self.steps.len());
        led_to(self.start, &self.steps.as_slice()[..first])
    }

    // The position of the prefix of n moves, or of the line where it has no more.
    pub fn at(&self, n: u32) -> P
        ensures is { result ≡ place_at self.now n }
        ensures stands { (stands : Line → P) → Follows stands self.now → result ≡ stands (prefix n (line_of self.now)) }
    {
        self.place_at(n)
    }

    // Appends a move that leads to this position. Refused with 3 where the line has 96 moves.
    pub fn push(&mut self, number: u8, place: P) -> Result<(), Refusal>
        ensures answer { refused_by result ≡ cond (nat_le 96 (length (line_of self.old))) 3 0 }
        ensures more { OnOk result (self.new ≡ step_more self.old number place) }
        ensures full { OnErr result (self.new ≡ self.old) }
        ensures few { length (line_of self.new) ≤ 96 }
        ensures start { self.new.start ≡ self.old.start }
        ensures line { line_of self.new ≡ line_after (refused_by result) (number ∷ line_of self.old) (line_of self.old) }
        ensures legal { (m : Meaning) → Reachable m (line_of self.old) → number < (m.view (line_of self.old)).moves → Reachable m (line_of self.new) }
        ensures follows { (stands : Line → P) → Follows stands self.old → place ≡ stands (number ∷ line_of self.old) → Follows stands self.new }
    {
        self.steps
            .try_push(Step { number, place })
            .map_err(|_| Refusal::LineFull)
    }

    // Removes the last move. Refused with 4 where there is none.
    #[tactic(auto, using(crate::proofs::Walks::less_follows))]
    pub fn pop(&mut self) -> Result<(), Refusal>
        ensures answer { refused_by result ≡ back_answer (line_of self.old) }
        ensures less { self.new ≡ step_less self.old }
        ensures start { self.new.start ≡ self.old.start }
        ensures line { line_of self.new ≡ shorter (line_of self.old) }
        ensures legal { (m : Meaning) → Reachable m (line_of self.old) → Reachable m (line_of self.new) }
        ensures follows { (stands : Line → P) → Follows stands self.old → Follows stands self.new }
    {
        self.steps.pop().map(|_| ()).ok_or(Refusal::AtStart)
    }
}
