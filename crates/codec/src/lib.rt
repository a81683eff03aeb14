// Numbers in a file: unsigned LEB128 of 32-bit numbers.
//
// Seven bits a byte, the lowest first; every byte but the last has 128 added. 300 is AC 02. A number has exactly one form, the
// shortest. `read_number` reads the `Number` at a place of a row of bytes and tells the place after it, or refuses;
// `put_number` puts one there if it fits, and else writes nothing. `numbers_are_faithful` says that the two agree.
#![tactic(auto)]

ghost use Rattle.std.specs.Prelude.{◌≡◌, ◌<◌, length, IfSome, MatchOption};
ghost use Rattle.codec.specs.Files.{number_at, end_after, with_bytes};
ghost use Rattle.codec.specs.Numbers.{Faithful, encode, number, refused, read_in};

use arrayvec::ArrayVec;

// A number and the place after it.
#[derive(Clone, Copy, PartialEq, Eq, Debug)]
pub struct Number {
    pub value: u32,
    pub end: usize,
}

// The number of at most `most` bytes at the front, and the bytes after it.
#[tactic(auto, using(crate::proofs::Spelling::reading))]
fn read_front(bytes: &[u8], most: u32) -> Option<(u32, &[u8])>
    ensures is { MatchOption result (read_in most bytes.now ≡ refused) (λ x. read_in most bytes.now ≡ number x.0 x.1.now) }
    ensures shorter { IfSome result (λ x. length x.1.now < length bytes.now) }
{
    let more = most.checked_sub(1)?;
    let (byte, rest) = bytes.split_first()?;
    let low = u32::from(*byte % 128);
    if *byte < 128 {
        return Some((low, rest));
    }
    let (above, rest) = read_front(rest, more)?;
    // Where what follows is 0, the form was not the shortest.
    if above == 0 {
        return None;
    }
    Some((above.checked_mul(128)?.checked_add(low)?, rest))
}

// The number at a place; none where it is cut off, over five bytes, past 32 bits or not in its shortest form.
#[tactic(auto, using(crate::proofs::Spelling::reading))]
pub fn read_number(bytes: &[u8], at: usize) -> Option<Number>
    ensures { result ≡ number_at bytes.now at }
{
    let (value, rest) = read_front(bytes.get(at..)?, 5)?;
    Some(Number {
        value,
        end: bytes.len() - rest.len(),
    })
}

// The form of a number.
fn form(n: u32) -> ArrayVec<u8, 5>
    ensures { result.items ≡ encode n }
{
    let mut form = ArrayVec::new();
    let mut left = n;
    while left >= 128 {
        form.push((left % 128 + 128) as u8);
        left /= 128;
    }
    form.push(left as u8);
    form
}

// Puts a number at a place and answers the place after it; none, and nothing is written, where it does not fit.
#[tactic(auto, using(std::proofs::lemmas::Bool::Decides::nat_tests))]
pub fn put_number(bytes: &mut [u8], at: usize, n: u32) -> Option<usize>
    ensures end { result ≡ end_after bytes.old at (encode n) }
    ensures bytes { bytes.new ≡ with_bytes bytes.old at (encode n) }
{
    let form = form(n);
    // No `get_mut(at..end)?`: its contract does not tell what a write through it leaves in `bytes`.
    let end = at
        .checked_add(form.len())
        .filter(|end| *end <= bytes.len())?;
    bytes[at..end].copy_from_slice(&form);
    Some(end)
}

// The form of a number is unique, and reading gives the number back.
pub fn numbers_are_faithful()
    ensures { Faithful }
{}
