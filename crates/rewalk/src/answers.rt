// Whether an answer and the marks behind it are the recorded ones.
use refusal::Refusal;
use vectors::items::{Part, behind, lent};
use vectors::said;
use walk::Walked;

// An answer for code of n bytes: status 1, 0 or 1 with steps and offset, then a bit for each mark; or a refusal, which keeps all marks.
pub fn is_walked(said: &[u8], walked: Result<Walked, Refusal>, marks: &[u8], n: usize) -> bool {
    is_told(
        said,
        walked.map_err(|r| (r.fault.number(), r.place)),
        marks,
        n,
    )
}

// The same of an answer that C is told: a refusal's number and place.
pub fn is_told(said: &[u8], walked: Result<Walked, (u8, usize)>, marks: &[u8], n: usize) -> bool {
    match walked {
        Ok(Walked::Closed) => is_closed(said) && are_marks(behind(said, 9), marks, n),
        Ok(Walked::Leaves(steps, offset)) => {
            is_left(said, steps as u64, offset as u64) && are_marks(behind(said, 25), marks, n)
        }
        Err((number, place)) => {
            said::is_refused_by(said, number, place) && said::are_kept(marks, 0)
        }
    }
}

fn is_closed(said: &[u8]) -> bool {
    words::byte_at(said, 0) == 1 && words::u64_at(said, 1) == 0
}

fn is_left(said: &[u8], steps: u64, offset: u64) -> bool {
    words::byte_at(said, 0) == 1
        && words::u64_at(said, 1) == 1
        && said::are_numbers(said, 9, &[steps, offset])
}

// The first n marks are the bits, the bits behind them are 0, and the other marks are kept.
fn are_marks(bits: &[u8], marks: &[u8], n: usize) -> bool {
    if marks.len() < n || bits.len() != text::saturating_add(n, 7) / 8 {
        return false;
    }
    let part = Part { at: 0, len: n };
    are_bits(bits, lent(marks, part)) && said::are_kept(marks, n)
}

// Each byte holds eight marks.
fn are_bits(bits: &[u8], marks: &[u8]) -> bool {
    bits.iter()
        .zip(marks.chunks(8))
        .all(|(&b, marks)| are_8(b, marks))
}

// The lowest bit is the first mark.
fn are_8(bits: u8, marks: &[u8]) -> bool {
    let mut rest = bits;
    for k in 0..8 {
        if rest % 2 != words::byte_at(marks, k) {
            return false;
        }
        rest = rest / 2;
    }
    true
}
