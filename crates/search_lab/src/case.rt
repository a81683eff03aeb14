// A case: the position, the layers over it, the store, and the questions in their own words.
ghost use Rattle.std.specs.Prelude.{◌≡◌, length};
ghost use Rattle.std.specs.Iterator.{at_most};

use crate::trouble::Trouble;
use graph_rules::node::Node;
use std::alloc::Global;
use std::iter::Peekable;
use texts::number;

// The fields of a line, which blanks part. Each is found as it is asked for.
#[derive(Drop)]
pub(crate) struct Fields<'a> {
    pub(crate) rest: &'a str,
}

impl<'a> Iterator for Fields<'a> {
    type Item = &'a str;

    ghost remaining = { λ s. at_most (length s.rest.now) };

    // `split` with a filter would pass over a row of blanks by a search for each.
    fn next(&mut self) -> Option<&'a str> {
        let rest = self.rest.trim_start_matches(' ');
        if rest.is_empty() {
            return None;
        }
        let (field, more) = rest.split_once(' ').unwrap_or((rest, ""));
        self.rest = more;
        Some(field)
    }
}

// The rule layers, each laid over those before it. Each stack of layers is a game of a type of its own, so that the stacks
// that can be asked for are counted out.
#[derive(Clone, Copy, PartialEq, Eq, Debug)]
pub(crate) enum Rules {
    Plain,
    Repeat,
    Limit(u32),
    LimitLimit(u32, u32),
    RepeatLimit(u32),
    LimitRepeat(u32),
    LimitRepeatLimit(u32, u32),
}

impl Rules {
    // These with the repetition rule over them; none where there is no such stack.
    fn with_repeat(self) -> Option<Rules> {
        match self {
            Rules::Plain => Some(Rules::Repeat),
            Rules::Limit(n) => Some(Rules::LimitRepeat(n)),
            _ => None,
        }
    }

    // These with a limit over them; none where there is no such stack.
    fn with_limit(self, n: u32) -> Option<Rules> {
        match self {
            Rules::Plain => Some(Rules::Limit(n)),
            Rules::Repeat => Some(Rules::RepeatLimit(n)),
            Rules::Limit(below) => Some(Rules::LimitLimit(below, n)),
            Rules::LimitRepeat(below) => Some(Rules::LimitRepeatLimit(below, n)),
            _ => None,
        }
    }
}

// A position, the layers over it, the number of slots of the store, and the questions in their own words. Where no number
// stands, the store is the null store.
#[derive(Drop)]
pub(crate) struct Case<'a> {
    pub(crate) position: &'a str,
    pub(crate) rules: Rules,
    pub(crate) slots: Option<u32>,
    pub(crate) questions: Peekable<Fields<'a>>,
}

impl Case<'_> {
    // Takes in a field that stands before the questions, and leaves the questions as they are.
    fn take_field(&mut self, field: &str) -> Option<()>
        ensures { self.new.questions ≡ self.old.questions }
    {
        if field == "repeat" {
            self.rules = self.rules.with_repeat()?;
        } else if let Some(digits) = field.strip_prefix("limit=") {
            self.rules = self.rules.with_limit(number(digits)?)?;
        } else {
            self.slots = Some(number(field.strip_prefix("slots=")?)?);
        }
        Some(())
    }
}

fn is_question(field: &str) -> bool {
    field.starts_with("solve=") || field.starts_with("write=") || field.starts_with("check=")
}

// The case of a line, whose fields are taken up to the first question.
pub(crate) fn case_of(text: &str) -> Option<Case<'_>> {
    let mut fields = Fields { rest: text };
    let mut case = Case {
        position: fields.next()?,
        rules: Rules::Plain,
        slots: None,
        questions: fields.peekable(),
    };
    while let Some(field) = case.questions.next_if(|field| !is_question(field)) {
        case.take_field(field)?;
    }
    Some(case)
}

// Puts a number into a node: turn, score, then targets, of which four have room.
fn put(node: &mut Node, place: usize, n: u8) {
    match place {
        0 => node.turn = n,
        1 => node.score = n,
        _ => {
            if let Some(target) = node.targets.get_mut(place - 2) {
                *target = n;
            }
            node.count = node.count.saturating_add(1);
        }
    }
}

fn node_of(text: &str) -> Option<Node> {
    let mut node = Node::default();
    for (place, digits) in text.split(',').enumerate() {
        put(&mut node, place, number(digits)?);
    }
    Some(node)
}

// The nodes of a graph.
pub(crate) fn nodes_of(heap: Global, text: &str) -> Result<Vec<Node>, Trouble> {
    if text.is_empty() {
        return Ok(Vec::new(heap));
    }
    text.split(';')
        .map(|node| node_of(node).ok_or(Trouble::Malformed))
        .try_collect(heap)
}
