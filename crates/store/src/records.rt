// Object and slot records, as they lie.
ghost use Rattle.std.specs.Prelude.{◌≡◌, ◌+◌, ◌*◌, min, get_or};
ghost use Rattle.words.specs.Le.{le_at};
ghost use Rattle.store.specs.Records.{inner_of, value_of, slot_of, object_of, object_count, slot_count};

use crate::{Inner, Object, Repeat, Run, Slot, SlotValue};

// Reading records; past the end every byte is 0.

// No conversion of a kind alone: the value takes the record's other fields, so these are no TryFrom.
fn inner_of(kind: u8, off: u32, len: u32) -> Inner
    ensures { result ≡ inner_of kind off len }
{
    match kind {
        1 => Inner::Object(off),
        2 => Inner::Root,
        3 => Inner::OtherRef,
        4 => Inner::Raw(Run { off, len }),
        _ => Inner::Other,
    }
}

fn value_of(kind: u8, inner: u8, off: u32, len: u32, count: u32) -> SlotValue
    ensures { result ≡ value_of kind inner off len count }
{
    match kind {
        1 => SlotValue::Object(off),
        2 => SlotValue::Root,
        3 => SlotValue::OtherRef,
        4 => SlotValue::Raw(Run { off, len }),
        5 => SlotValue::Repeat(Repeat {
            count,
            inner: inner_of(inner, off, len),
        }),
        _ => SlotValue::Other,
    }
}

// Where record i starts among records of N bytes each, or their end where that lies behind it.
fn record_place<const N: usize>(size: usize, i: usize) -> usize
    ensures { result ≡ min (N * i) size }
{
    i.saturating_mul(N).min(size)
}

// The byte k bytes into record i of N bytes.
#[tactic(auto, using(crate::proofs::Clamp::byte_from))]
pub(crate) fn byte_in<const N: usize>(s: &[u8], i: usize, k: u8) -> u8
    ensures { result ≡ get_or s.now (N * i + k) 0 }
{
    words::byte_at(s, record_place::<N>(s.len(), i) + k as usize)
}

// The number in the two or four bytes there: two functions, as in words, whose reads by width are the faster.
#[tactic(auto, using(crate::proofs::Clamp::le_from))]
pub(crate) fn u16_in<const N: usize>(s: &[u8], i: usize, k: u8) -> u16
    ensures { result ≡ le_at s.now (N * i + k) 2 }
{
    words::u16_at(s, record_place::<N>(s.len(), i) + k as usize)
}

#[tactic(auto, using(crate::proofs::Clamp::le_from))]
pub(crate) fn u32_in<const N: usize>(s: &[u8], i: usize, k: u8) -> u32
    ensures { result ≡ le_at s.now (N * i + k) 4 }
{
    words::u32_at(s, record_place::<N>(s.len(), i) + k as usize)
}

// Slot record i.
#[tactic(auto, unfolding(crate::specs::Records::slot_of))]
pub fn slot_of(slots: &[u8], i: usize) -> Slot
    ensures { result ≡ slot_of slots.now i }
{
    let value = value_of(
        byte_in::<24>(slots, i, 4),
        byte_in::<24>(slots, i, 5),
        u32_in::<24>(slots, i, 8),
        u32_in::<24>(slots, i, 12),
        u32_in::<24>(slots, i, 16),
    );
    Slot {
        index: slot_index(slots, i),
        value,
    }
}

// The index of slot record i alone.
#[tactic(auto, unfolding(crate::specs::Records::slot_of))]
pub fn slot_index(slots: &[u8], i: usize) -> u32
    ensures { result ≡ (slot_of slots.now i).index }
{
    u32_in::<24>(slots, i, 0)
}

// Object record i.
#[tactic(auto, unfolding(crate::specs::Records::object_of))]
pub fn object_of(objects: &[u8], i: usize) -> Object
    ensures { result ≡ object_of objects.now i }
{
    let raw_len = byte_in::<16>(objects, i, 1) == 1;
    Object {
        kind: byte_in::<16>(objects, i, 0),
        raw_len,
        first: u32_in::<16>(objects, i, 4),
        count: u32_in::<16>(objects, i, 8),
        byte_size: u32_in::<16>(objects, i, 12),
    }
}

// How many whole object records there are.
pub fn object_count(objects: &[u8]) -> usize
    ensures { result ≡ object_count objects.now }
{
    objects.len() / 16
}

// How many whole slot records there are.
pub fn slot_count(slots: &[u8]) -> usize
    ensures { result ≡ slot_count slots.now }
{
    slots.len() / 24
}
