// Runs of equal answers: how often an answer is said, its length, and that, one run behind the other.
ghost use Rattle.std.specs.Prelude.{◌≡◌, ◌↔◌, ◌+◌, ◌*◌, ◌-◌, IsTrue, length};
ghost use Rattle.std.specs.Iterator.{at_most};

use crate::items::{Part, behind, lent};

// The answer said now, how often it is said again, and where the next run is.
#[derive(Clone, Copy)]
pub struct Runs<'a> {
    pub bytes: &'a [u8],
    pub said: Part,
    pub left: u16,
    pub next: usize,
}

impl<'a> Runs<'a> {
    // All of them.
    pub fn new(bytes: &'a [u8]) -> Runs<'a>
        ensures { (result.bytes.now ≡ bytes.now) × (result.left ≡ 0) × (result.next ≡ 0) }
    {
        let said = Part { at: 0, len: 0 };
        Runs {
            bytes,
            said,
            left: 0,
            next: 0,
        }
    }

    // Whether all answers are said, and the last run ends where the bytes do.
    pub fn is_done(&self) -> bool
        ensures { IsTrue result ↔ ((self.now.left ≡ 0) × (self.now.next ≡ length self.now.bytes.now)) }
    {
        self.left == 0 && self.next == self.bytes.len()
    }
}

// What each call is said to answer, one call behind the other.
impl<'a> Iterator for Runs<'a> {
    type Item = &'a [u8];

    ghost remaining = { λ s. at_most (s.left + 65536 * (length s.bytes.now - s.next)) };

    fn next(&mut self) -> Option<&'a [u8]> {
        if 0 < self.left {
            self.left -= 1;
        } else if self.next < self.bytes.len() {
            let head = behind(self.bytes, self.next);
            let at = self.next.saturating_add(4);
            let len = words::u16_at(head, 2) as usize;
            self.said = Part { at, len };
            self.left = words::u16_at(head, 0).saturating_sub(1);
            self.next = at.saturating_add(len);
        } else {
            return None;
        }
        Some(lent(self.bytes, self.said))
    }
}
