// Whether an answer is the recorded one: a byte of status, then its numbers, 8 bytes each, or its text, and nothing behind them.
use crate::items::{Part, behind, lent};
use refusal::Refusal;

// Status 0.
pub fn is_nothing(said: &[u8]) -> bool {
    has_form(said, 0, 1)
}

// Status 3.
pub fn is_end(said: &[u8]) -> bool {
    has_form(said, 3, 1)
}

// Status 1 and no numbers.
pub fn is_done(said: &[u8]) -> bool {
    has_form(said, 1, 1)
}

// Status 1 and these numbers.
pub fn is_numbers(said: &[u8], numbers: &[u64]) -> bool {
    has_form(said, 1, numbers.len().saturating_mul(8).saturating_add(1))
        && are_numbers(said, 1, numbers)
}

// Status 1 and the first n bytes of out.
pub fn is_text(said: &[u8], out: &[u8], n: usize) -> bool {
    words::byte_at(said, 0) == 1 && is_start(behind(said, 1), out, n)
}

// The first n bytes of out.
pub fn is_start(text: &[u8], out: &[u8], n: usize) -> bool {
    let part = Part { at: 0, len: n };
    n <= out.len() && check::same(text, lent(out, part))
}

// Status 2: number and place.
pub fn is_refused(said: &[u8], refusal: Refusal) -> bool {
    is_refused_by(said, refusal.fault.number(), refusal.place)
}

// The same of a refusal that C is told.
pub fn is_refused_by(said: &[u8], number: u8, place: usize) -> bool {
    has_form(said, 2, 17) && are_numbers(said, 1, &[u64::from(number), place as u64])
}

// A check: done, or its refusal.
pub fn is_check(said: &[u8], check: Result<(), Refusal>) -> bool {
    match check {
        Ok(()) => is_done(said),
        Err(refusal) => is_refused(said, refusal),
    }
}

// The status, and the length of the whole.
pub fn has_form(said: &[u8], status: u8, len: usize) -> bool {
    said.len() == len && words::byte_at(said, 0) == status
}

// These numbers from place at on.
pub fn are_numbers(said: &[u8], at: usize, numbers: &[u64]) -> bool {
    let mut at = at;
    for &number in numbers {
        if words::u64_at(said, at) != number {
            return false;
        }
        at = text::saturating_add(at, 8);
    }
    true
}

// The bytes of a buffer from a place on are as they were before the call: all 7.
pub fn are_kept(buffer: &[u8], from: usize) -> bool {
    buffer.iter().skip(from).all(|&b| b == KEPT)
}

const KEPT: u8 = 7;

// What a call for C answers with that is no refusal.
#[derive(Clone, Copy)]
pub enum Status {
    Done,
    Leaves,
    CodeEnd,
}

// By its number; any other number is a refusal's.
impl TryFrom<u8> for Status {
    type Error = u8;

    fn try_from(number: u8) -> Result<Status, u8> {
        match number {
            0 => Ok(Status::Done),
            254 => Ok(Status::Leaves),
            255 => Ok(Status::CodeEnd),
            _ => Err(number),
        }
    }
}
