// Sizes, and each record by itself: rows 6 and 7.
ghost use Rattle.std.specs.Prelude.{◌≡◌};
ghost use Rattle.laws.specs.Scan.{first_from};
ghost use Rattle.refusal.specs.Check.{first_bad};
ghost use Rattle.refusal.specs.declared.Fault.TheVariants as fault;
ghost use Rattle.store.specs.Records.{object_count, slot_count};
ghost use Rattle.store.specs.Check.{sizes_ok, slots_exist, object_ok, fields_ok, value_ok, slot_ok, bad_object, bad_alone};

use crate::records::{byte_in, slot_index, u16_in, u32_in};
use refusal::{Fault, Refusal};

// Row 6.

#[tactic(auto, unfolding(crate::specs::Check::sizes_ok))]
pub(crate) fn sizes_ok(objects: usize, slots: usize, payload: usize) -> bool
    ensures { result ≡ sizes_ok objects slots payload }
{
    objects % 16 == 0
        && objects / 16 <= 65536
        && slots % 24 == 0
        && slots / 24 <= 1048576
        && payload <= 16777216
}

// Row 7, objects.

fn slots_exist(slots: usize, first: u32, count: u32) -> bool
    ensures { result ≡ slots_exist slots first count }
{
    count == 0 || first as usize + count as usize <= slots
}

#[tactic(auto, unfolding(crate::specs::Check::object_ok))]
fn object_ok(objects: &[u8], slots: usize, k: usize) -> bool
    ensures { result ≡ object_ok objects.now slots k }
{
    byte_in::<16>(objects, k, 0) <= 2
        && byte_in::<16>(objects, k, 1) <= 1
        && u16_in::<16>(objects, k, 2) == 0
        && slots_exist(
            slots,
            u32_in::<16>(objects, k, 4),
            u32_in::<16>(objects, k, 8),
        )
}

pub(crate) fn check_objects(objects: &[u8], slots: usize) -> Result<(), Refusal>
    ensures { result ≡ first_bad fault.BadRecord (bad_object objects.now slots) (object_count objects.now) }
{
    let n = crate::records::object_count(objects);
    let bad = (0..n).find(|k| !object_ok(objects, slots, *k));
    refusal::at_record(Fault::BadRecord, bad.unwrap_or(n), n)
}

// Row 7, slots by themselves.

// The number and the length of a value of kind 0 to 4.
#[tactic(auto, unfolding(crate::specs::Check::fields_ok))]
fn fields_ok(objects: usize, payload: usize, kind: u8, number: u32, len: u32) -> bool
    ensures { result ≡ fields_ok objects payload kind number len }
{
    if kind == 1 {
        return (number as usize) < objects && len == 0;
    }
    if kind == 4 {
        return number as usize + len as usize <= payload;
    }
    kind <= 3 && number == 0 && len == 0
}

#[tactic(auto, unfolding(crate::specs::Check::value_ok))]
fn value_ok(
    objects: usize,
    payload: usize,
    kind: u8,
    inner: u8,
    number: u32,
    len: u32,
    count: u32,
) -> bool
    ensures { result ≡ value_ok objects payload kind inner number len count }
{
    if kind == 5 {
        return count <= 1048576 && fields_ok(objects, payload, inner, number, len);
    }
    inner == 0 && count == 0 && fields_ok(objects, payload, kind, number, len)
}

#[tactic(auto, unfolding(crate::specs::Check::slot_ok, crate::specs::Records::slot_of))]
fn slot_ok(slots: &[u8], objects: usize, payload: usize, k: usize) -> bool
    ensures { result ≡ slot_ok slots.now objects payload k }
{
    slot_index(slots, k) <= 1048576
        && u16_in::<24>(slots, k, 6) == 0
        && u32_in::<24>(slots, k, 20) == 0
        && value_ok(
            objects,
            payload,
            byte_in::<24>(slots, k, 4),
            byte_in::<24>(slots, k, 5),
            u32_in::<24>(slots, k, 8),
            u32_in::<24>(slots, k, 12),
            u32_in::<24>(slots, k, 16),
        )
}

// How many slots come before the first that is bad by itself.
pub(crate) fn good_slots(slots: &[u8], objects: usize, payload: usize) -> usize
    ensures { result ≡ first_from (bad_alone slots.now objects payload) 0 (slot_count slots.now) }
{
    let n = crate::records::slot_count(slots);
    let bad = (0..n).find(|k| !slot_ok(slots, objects, payload, *k));
    bad.unwrap_or(n)
}
