// What a line of input asks for: a position, then words, each at most once and in any order.
//
//     POSITION [repeat] [limit=N] [floor=N] [slots=N] [tablet=N] [budget=N] [line=K,K,..] [proof=HEX | proof=@FILE]
use hex::FromHexError;
use std::alloc::{AllocError, Global};
use texts::number;
use thiserror::Error;

// The rule layers over the position's game, in the order in which the line lays them. Each stack of layers is a game of a
// type of its own, so that the stacks are counted out.
#[derive(Clone, Copy, Default, PartialEq, Eq, Debug)]
pub(crate) enum Rules {
    #[default]
    Plain,
    Repeat,
    Limit(u32),
    RepeatThenLimit(u32),
    LimitThenRepeat(u32),
}

impl Rules {
    // These with the repetition rule over them, where it does not stand already.
    fn with_repeat(self) -> Result<Rules, Why> {
        match self {
            Rules::Plain => Ok(Rules::Repeat),
            Rules::Limit(n) => Ok(Rules::LimitThenRepeat(n)),
            _ => Err(Why::Twice),
        }
    }

    // These with a limit over them, where none stands already.
    fn with_limit(self, value: &[u8]) -> Result<Rules, Why> {
        match self {
            Rules::Plain => Ok(Rules::Limit(asked(value)?)),
            Rules::Repeat => Ok(Rules::RepeatThenLimit(asked(value)?)),
            _ => Err(Why::Twice),
        }
    }
}

// A proof that came with the card: its bytes, or the name of the file that has them.
#[derive(Drop)]
pub(crate) enum Posted<'a> {
    Bytes(Vec<u8>),
    File(&'a [u8]),
}

// What a word says, and the field where it stands, counted from 1.
#[derive(Drop)]
pub(crate) struct Word<T> {
    pub(crate) field: usize,
    pub(crate) value: T,
}

// Why a field makes the line no card.
#[derive(Clone, Copy, PartialEq, Eq, Debug, Error)]
pub(crate) enum Why {
    #[error("no such word")]
    UnknownWord,
    #[error("not a number from 0 to 4294967295")]
    NotNumber,
    #[error("not move numbers with commas between them")]
    NotMoves,
    #[error("not pairs of hexadecimal digits")]
    NotHex,
    #[error("a word that stood before")]
    Twice,
    #[error("no memory for it")]
    NoMemory(#[from(alloc)] AllocError),
    #[error("no such file can be read")]
    NoFile,
}

// The search laboratory has the same cases for a type of its own: one function for both would be no shorter.
impl From<FromHexError> for Why {
    fn from(error: FromHexError) -> Why {
        match error {
            FromHexError::OutOfMemory => Why::NoMemory(AllocError),
            _ => Why::NotHex,
        }
    }
}

// A line that is no card: the field, counted from 1, and what is wrong with it.
#[derive(Clone, Copy, PartialEq, Eq, Debug, Error)]
#[error("field {field}: {why}")]
pub(crate) struct NotCard {
    pub(crate) field: usize,
    pub(crate) why: Why,
}

// A position, the rules over it, and what was said by words; what was not has a default.
#[derive(Default, Drop)]
pub(crate) struct Card<'a> {
    pub(crate) position: &'a [u8],
    pub(crate) rules: Rules,
    floor: Option<u32>,
    slots: Option<Word<u32>>,
    tablet: Option<u32>,
    budget: Option<u32>,
    line: Option<Vec<u32>>,
    pub(crate) posted: Option<Word<Posted<'a>>>,
}

impl<'a> Card<'a> {
    pub(crate) fn floor(&self) -> u32 {
        self.floor.unwrap_or(2)
    }

    pub(crate) fn slots(&self) -> u32 {
        self.slots.as_ref().map_or(65_536, |word| word.value)
    }

    pub(crate) fn tablet(&self) -> u32 {
        self.tablet.unwrap_or(64)
    }

    pub(crate) fn budget(&self) -> u32 {
        self.budget.unwrap_or(50_000_000)
    }

    pub(crate) fn line(&self) -> &[u32] {
        self.line.as_deref().unwrap_or(&[])
    }

    // That there is no memory for the card: it is laid to the number of slots, or to the position where none stands.
    pub(crate) fn without_memory(&self, error: AllocError) -> NotCard {
        NotCard {
            field: self.slots.as_ref().map_or(1, |word| word.field),
            why: Why::NoMemory(error),
        }
    }

    // Takes in a word of the line.
    fn take_word(&mut self, heap: Global, field: usize, word: &'a [u8]) -> Result<(), Why> {
        let mut parts = word.splitn(2, |byte| *byte == b'=');
        match (parts.next(), parts.next()) {
            (Some(b"repeat"), None) => self.rules = self.rules.with_repeat()?,
            (Some(b"limit"), Some(value)) => self.rules = self.rules.with_limit(value)?,
            (Some(b"floor"), Some(value)) => fill(&mut self.floor, || asked(value))?,
            (Some(b"slots"), Some(value)) => fill(&mut self.slots, || {
                let value = asked(value)?;
                Ok(Word { field, value })
            })?,
            (Some(b"tablet"), Some(value)) => fill(&mut self.tablet, || asked(value))?,
            (Some(b"budget"), Some(value)) => fill(&mut self.budget, || asked(value))?,
            (Some(b"line"), Some(value)) => fill(&mut self.line, || moves_of(heap, value))?,
            (Some(b"proof"), Some(value)) => fill(&mut self.posted, || {
                let value = posted_of(heap, value)?;
                Ok(Word { field, value })
            })?,
            _ => return Err(Why::UnknownWord),
        }
        Ok(())
    }
}

// Fills what a word says; it may stand once.
fn fill<T: Drop, F: FnOnce() -> Result<T, Why> + Drop>(
    slot: &mut Option<T>,
    value: F,
) -> Result<(), Why>
    requires { F.IsAlwaysCallable value }
{
    if slot.is_some() {
        return Err(Why::Twice);
    }
    *slot = Some(value()?);
    Ok(())
}

fn is_blank(byte: &u8) -> bool {
    matches!(byte, b' ' | b'\t')
}

// A decimal number below 2^32; the bytes need not be text.
fn decimal(digits: &[u8]) -> Option<u32> {
    std::str::from_utf8(digits).ok().and_then(number)
}

fn asked(digits: &[u8]) -> Result<u32, Why> {
    decimal(digits).ok_or(Why::NotNumber)
}

// The search laboratory reads its lines so too, but from `str` and with an error of its own: a function for both would be
// handed the reading and the error, which is all that this one does.
fn moves_of(heap: Global, text: &[u8]) -> Result<Vec<u32>, Why> {
    text.split(|byte| *byte == b',')
        .map(|digits| decimal(digits).ok_or(Why::NotMoves))
        .try_collect(heap)
}

fn posted_of(heap: Global, text: &[u8]) -> Result<Posted<'_>, Why> {
    match text.strip_prefix(b"@") {
        Some(name) => Ok(Posted::File(name)),
        None => Ok(Posted::Bytes(hex::decode(heap, text)?)),
    }
}

// The card of a line. The position itself is read later, by its game.
pub(crate) fn card_of(heap: Global, text: &[u8]) -> Result<Card<'_>, NotCard> {
    let mut fields = text
        .split(is_blank)
        .filter(|field| !field.is_empty())
        .enumerate();
    let mut card = Card {
        position: fields.next().map_or(&[], |(_, position)| position),
        ..Card::default()
    };
    for (before, word) in fields {
        let field = before.saturating_add(1);
        card.take_word(heap, field, word)
            .map_err(|why| NotCard { field, why })?;
    }
    Ok(card)
}

// Whether the line holds a card: it is neither blank nor a comment.
pub(crate) fn is_card(text: &[u8]) -> bool {
    !text.starts_with(b"#") && !text.iter().all(is_blank)
}
