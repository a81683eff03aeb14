// Reads a batch of cards, one a line, and prints what each comes to: its position is solved, a proof is written, and the
// card's line is printed from the proof once it is checked. docs/CARDS.md has the input and the output.
#![tactic(auto)]

mod card;
mod help;
mod input;
mod options;
mod refusal;
mod settle;
mod show;

use card::{NotCard, Posted, Why, Word, card_of, is_card};
use help::HELP;
use input::{all_bytes, file_bytes};
use options::{Options, read_options};
use refusal::NoLine;
use settle::{Settled, Solved, settle_card};
use std::{fs, io};

// How many cards were printed, and how many were not.
#[derive(Clone, Copy, Default)]
struct Tally {
    printed: u32,
    refused: u32,
}

impl Tally {
    fn cards(&self) -> u32 {
        self.printed.saturating_add(self.refused)
    }
}

// The card's line and, unless quiet, what was found on the way to it.
fn print_settled(rt: &HostRuntime, o: &Options, number: u32, s: &Settled) -> io::Result<()> {
    let line: String = s
        .line
        .iter()
        .filter(|byte| **byte != 0)
        .map(|byte| char::from(*byte))
        .collect(rt.alloc())?;
    println!(rt; "{line}")?;
    if let Some(folder) = &o.out {
        let name = format!(in rt.alloc(); "{folder}/card-{number}.proof")?;
        fs::write(rt, &name, &s.proof)?;
    }
    if o.quiet {
        return Ok(());
    }
    println!(rt; "{}", s.shown)?;
    if let Some(Solved { yes, best, count }) = s.solved {
        let word = if yes { "yes" } else { "no" };
        println!(rt; "  solved {word}, move {best}, plays {count}")?;
    }
    println!(rt; "  proof {}", hex::encode(rt.alloc(), &s.proof)?)?;
    println!(rt; "  checked again with {} slots", s.tablet)
}

// The bytes of a proof that was posted with the card.
fn posted_bytes(
    rt: &HostRuntime,
    posted: Option<Word<Posted<'_>>>,
) -> Result<Option<Vec<u8>>, NotCard> {
    // No `map` and `transpose`: the proof of a closure that is handed the host does not close.
    let Some(Word { field, value }) = posted else {
        return Ok(None);
    };
    let bytes = match value {
        Posted::Bytes(bytes) => Some(bytes),
        Posted::File(name) => file_bytes(rt, name),
    };
    bytes.map(Some).ok_or(NotCard {
        field,
        why: Why::NoFile,
    })
}

// What a card comes to.
fn come_to(rt: &HostRuntime, number: u32, line: &[u8]) -> Result<Settled, NoLine> {
    let mut card = card_of(rt.alloc(), line)?;
    let posted = posted_bytes(rt, card.posted.take())?;
    match settle_card(rt.alloc(), &card, number, posted) {
        Err(NoLine::NoMemory(error)) => Err(NoLine::NotCard(card.without_memory(error))),
        settled => settled,
    }
}

// One card: what it comes to, in a line and, unless quiet, some more. True where its line was printed.
fn do_card(rt: &HostRuntime, o: &Options, number: u32, line: &[u8]) -> io::Result<bool> {
    match come_to(rt, number, line) {
        Ok(settled) => {
            print_settled(rt, o, number, &settled)?;
            Ok(true)
        }
        Err(why) => {
            println!(rt; "card {number}: {why}")?;
            Ok(false)
        }
    }
}

fn do_batch(rt: &HostRuntime, o: &Options, text: &[u8]) -> io::Result<Tally> {
    let mut tally = Tally::default();
    for line in text.split(|byte| *byte == b'\n') {
        let line = line.strip_suffix(b"\r").unwrap_or(line);
        if is_card(line) {
            if do_card(rt, o, tally.cards().saturating_add(1), line)? {
                tally.printed = tally.printed.saturating_add(1);
            } else {
                tally.refused = tally.refused.saturating_add(1);
            }
        }
    }
    Ok(tally)
}

fn main(rt: HostRuntime) -> anyhow::Result<()> {
    let o = read_options(&rt)?;
    if o.help {
        rt.println(HELP)?;
        return Ok(());
    }
    let text = all_bytes(&rt, &o.file)?;
    let tally = do_batch(&rt, &o, &text)?;
    println!(rt;
        "{} cards: {} printed, {} refused",
        tally.cards(),
        tally.printed,
        tally.refused
    )?;
    Ok(())
}
