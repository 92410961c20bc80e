// The walk check of some prefixes with each last byte, against runs of equal answers.
use crate::{answers, walks};
use vectors::calls::File;
use vectors::items::{Files, behind, contents};
use vectors::runs::Runs;

// 21: the lent code is the first prefix, of at most 3 bytes; the next ones are 1, 2, .. more.
pub fn last_bytes(bytes: &[u8], files: Files, call: &[u8]) -> bool {
    let first = contents(bytes, files, File::Code);
    let n = first.len();
    if 3 < n || words::byte_at(call, 16) != 1 {
        return false;
    }
    are_prefixes(
        bytes,
        files,
        words::u64_at(call, 0),
        n + 1,
        number(first),
        words::u32_at(call, 8),
        behind(call, 17),
    )
}

// The bytes of a prefix as a number, the first byte the highest.
fn number(s: &[u8]) -> u64 {
    match s {
        [] => 0,
        [a] => u64::from(*a),
        [a, b] => u64::from(*a) * 256 + u64::from(*b),
        [a, b, c, ..] => u64::from(*a) * 65536 + u64::from(*b) * 256 + u64::from(*c),
    }
}

// So many prefixes from the first on, for codes of n bytes.
fn are_prefixes(
    bytes: &[u8],
    files: Files,
    object: u64,
    n: usize,
    first: u64,
    count: u32,
    runs: &[u8],
) -> bool {
    (0..count).all(|k| {
        let prefix = first.wrapping_add(u64::from(k));
        are_walked(bytes, files, object, n, prefix, Runs::new(runs))
    })
}

// One prefix, with each last byte.
fn are_walked(
    bytes: &[u8],
    files: Files,
    object: u64,
    n: usize,
    prefix: u64,
    mut runs: Runs,
) -> bool {
    for last in 0..=255u8 {
        let Some(said) = runs.next() else {
            return false;
        };
        if !is_walked(bytes, files, object, n, prefix, last, said) {
            return false;
        }
    }
    runs.is_done()
}

// The code is the last n of these four bytes; it has as many marks.
fn is_walked(
    bytes: &[u8],
    files: Files,
    object: u64,
    n: usize,
    prefix: u64,
    last: u8,
    said: &[u8],
) -> bool {
    let high = ((prefix / 65536) % 256) as u8;
    let middle = ((prefix / 256) % 256) as u8;
    let low = (prefix % 256) as u8;
    let code = [high, middle, low, last];
    let mut buffer = [7u8; 4];
    let Some(marks) = buffer.get_mut(..n) else {
        return false;
    };
    let code = behind(&code, 4 - marks.len());
    let walked = walks::walk_code(bytes, files, object, code, None, marks);
    answers::is_walked(said, walked, marks, n)
}
