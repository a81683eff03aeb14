// The line of a card: 80 bytes, as `card 1: at least 2 yes, bytes 3, plays 1` and zeros after it.
//
// `print_card` prints it from a checked proof and from nothing else. The text takes at most 79 bytes, so there is always
// room.
#![tactic(auto)]

ghost use Rattle.std.specs.Prelude.{◌≡◌, ◌+◌, ◌≤◌, ◌++◌, length};
ghost use Rattle.arrayvec.specs.ArrayString.{array_string_len};
ghost use Rattle.card_line.specs.Lines.{Fits, card_text, lined};
ghost use Rattle.proof_file.specs.Faults.{proof_of};

use arrayvec::ArrayString;
use itoa::{Buffer, Integer};
use proof_file::check::CheckedProof;

// Appends a label and a number in decimal digits. No `write!`: by its contract it may fail, and printing a line cannot.
fn append_entry<I: Integer>(text: &mut ArrayString<80>, label: &str, n: I)
    requires { array_string_len text.old + (length label.now + I.MAX_STR_LEN) ≤ 80 }
    ensures bytes { text.new.bytes ≡ text.old.bytes ++ (label.now ++ I.text n) }
    ensures len { array_string_len text.new ≤ array_string_len text.old + (length label.now + I.MAX_STR_LEN) }
{
    text.push_str(label);
    text.push_str(Buffer::new().format(n));
}

// What is told of a card: whether the score is at least the floor, and the bytes and plays of the proof.
fn text_of(proof: &CheckedProof, card: u32) -> ArrayString<80>
    ensures { result.bytes ≡ card_text card (proof_of proof.now).floor (proof_of proof.now).yes (proof_of proof.now).size (proof_of proof.now).plays }
{
    let mut text = ArrayString::new();
    append_entry(&mut text, "card ", card);
    append_entry(&mut text, ": at least ", proof.floor());
    text.push_str(if proof.yes() { " yes" } else { " no" });
    append_entry(&mut text, ", bytes ", proof.length());
    append_entry(&mut text, ", plays ", proof.plays());
    text
}

// Prints the card's line into `out`, zeros after it, and uses the checked proof up: another line needs another check.
pub fn print_card(proof: CheckedProof, card: u32, out: &mut [u8; 80])
    ensures { out.new ≡ lined (card_text card (proof_of proof).floor (proof_of proof).yes (proof_of proof).size (proof_of proof).plays) }
{
    let text = text_of(&proof, card);
    let (front, rest) = out.split_at_mut(text.len());
    front.copy_from_slice(text.as_bytes());
    rest.fill(0);
}

// However wide its numbers are, the text of a card fits.
pub fn every_card_fits()
    ensures { Fits }
{}
