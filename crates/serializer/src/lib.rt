// Readers of the store (serializer.rs): small integers, slots, fields in raw runs, elements and lengths of arrays. `ts` is the
// tagged size; 0, which no layout has, finds nothing. The calls on a lent store check it first. What they use takes an object's
// slots, `count` from number `first` on, checks nothing, and searches as the Rust does, which on a checked store finds the same.
#![tactic(auto)]

mod blocks;
mod elements;
mod integers;
mod lengths;
mod offsets;
mod runs;
mod slots;

ghost use Rattle.std.specs.Prelude.{◌≡◌, take, drop};
ghost use Rattle.serializer.specs.Calls.{check_at, slot_call, raw_call, raw_part, place_of, part_of, len_call, elem_call, off_call};
ghost use Rattle.serializer.specs.Numbers.{slot_numbers, raw_numbers, len_numbers, elem_numbers, off_numbers};

pub use blocks::elem_blocks;
pub use elements::{array_elem_in, array_elem_unchecked};
pub use integers::{decode_smi_bytes, smi_at};
pub use lengths::array_len_unchecked;
pub use offsets::bca_rt_off_unchecked;
use refusal::Refusal;
pub use runs::raw_at_unchecked;
pub use slots::slot_at_unchecked;
use store::SlotValue;

// Bytes of the payload: no Run of store, since they may start behind what 32 bits say.
#[derive(Clone, Copy)]
pub struct Span {
    pub at: usize,
    pub len: usize,
}

// An element of an array.
#[derive(Clone, Copy)]
pub enum Elem {
    Object(u32),
    Root,
    OtherRef,
    Smi(i64),
    Bytes(Span),
}

// Where in the payload a field lies, and the bytes there.
#[derive(Clone, Copy)]
pub struct RawPart<'a> {
    pub at: usize,
    pub part: &'a [u8],
}

// Calls on a lent store and an object number, with the checks of rows 6, 7 and 8.

#[tactic(auto, using(crate::proofs::Called::slot_called), unfolding(crate::specs::Calls::slot_call))]
pub fn slot_at(
    objects: &[u8],
    slots: &[u8],
    payload: &[u8],
    object: usize,
    index: u64,
) -> Result<Option<SlotValue>, Refusal>
    ensures { slot_numbers result
        ≡ slot_numbers (slot_call objects.now slots.now payload.now object index) }
{
    check_at(objects, slots, payload, object)?;
    let o = store::object_of(objects, object);
    Ok(slots::slot_at_unchecked(slots, o.first, o.count, index))
}

// Where in the payload the len bytes from byte off of the object on are, with these bytes; nothing, or a refusal. `raw_run_at` answers
// the one half, `raw_part_at` the other.
pub fn raw_at<'a>(
    objects: &[u8],
    slots: &[u8],
    payload: &'a [u8],
    ts: u8,
    object: usize,
    off: u64,
    len: u64,
) -> Result<Option<RawPart<'a>>, Refusal>
    ensures { (raw_numbers (place_of result)
        ≡ raw_numbers (raw_call objects.now slots.now payload.now ts object off len))
        × (part_of result
        ≡ raw_part payload.now
        (raw_call objects.now slots.now payload.now ts object off len) len) }
{
    let found = raw_found(objects, slots, payload, ts, object, off, len)?;
    let Some(at) = found else {
        return Ok(None);
    };
    let part = lent(payload, at, len as usize);
    Ok(Some(RawPart { at, part }))
}

// The place that raw_at answers.
pub fn raw_run_at(
    objects: &[u8],
    slots: &[u8],
    payload: &[u8],
    ts: u8,
    object: usize,
    off: u64,
    len: u64,
) -> Result<Option<usize>, Refusal>
    ensures { raw_numbers result
        ≡ raw_numbers (raw_call objects.now slots.now payload.now ts object off len) }
{
    let found = raw_at(objects, slots, payload, ts, object, off, len)?;
    Ok(found.map(|raw| raw.at))
}

// The bytes that raw_at lends; none where it finds nothing, or refuses.
pub fn raw_part_at<'a>(
    objects: &[u8],
    slots: &[u8],
    payload: &'a [u8],
    ts: u8,
    object: usize,
    off: u64,
    len: u64,
) -> &'a [u8]
    ensures { result.now
        ≡ raw_part payload.now
        (raw_call objects.now slots.now payload.now ts object off len) len }
{
    let Ok(Some(raw)) = raw_at(objects, slots, payload, ts, object, off, len) else {
        return lent(payload, 0, 0);
    };
    raw.part
}

#[tactic(auto, using(crate::proofs::Called::raw_called), unfolding(crate::specs::Calls::raw_call))]
fn raw_found(
    objects: &[u8],
    slots: &[u8],
    payload: &[u8],
    ts: u8,
    object: usize,
    off: u64,
    len: u64,
) -> Result<Option<usize>, Refusal>
    ensures { result ≡ raw_call objects.now slots.now payload.now ts object off len }
{
    check_at(objects, slots, payload, object)?;
    let o = store::object_of(objects, object);
    Ok(runs::raw_at_unchecked(slots, o.first, o.count, ts, off, len))
}

#[tactic(auto, using(crate::proofs::Called::len_called), unfolding(crate::specs::Calls::len_call))]
pub fn array_len(
    objects: &[u8],
    slots: &[u8],
    payload: &[u8],
    ts: u8,
    object: usize,
) -> Result<u64, Refusal>
    ensures { len_numbers result
        ≡ len_numbers (len_call objects.now slots.now payload.now ts object) }
{
    check_at(objects, slots, payload, object)?;
    let o = store::object_of(objects, object);
    Ok(lengths::array_len_unchecked(slots, payload, o, ts))
}

#[tactic(auto, using(crate::proofs::Called::elem_called), unfolding(crate::specs::Calls::elem_call))]
pub fn array_elem(
    objects: &[u8],
    slots: &[u8],
    payload: &[u8],
    ts: u8,
    object: usize,
    element: u64,
) -> Result<Option<Elem>, Refusal>
    ensures { elem_numbers result
        ≡ elem_numbers (elem_call objects.now slots.now payload.now ts object element) }
{
    check_at(objects, slots, payload, object)?;
    let o = store::object_of(objects, object);
    Ok(elements::array_elem_unchecked(slots, payload, o.first, o.count, ts, element))
}

// unit is the table's slot_unit.
#[tactic(auto, unfolding(crate::specs::Calls::off_call))]
pub fn bca_rt_off(
    objects: &[u8],
    slots: &[u8],
    payload: &[u8],
    ts: u8,
    unit: u8,
    object: usize,
    off: u32,
) -> Result<u64, Refusal>
    ensures { off_numbers result
        ≡ off_numbers (off_call objects.now slots.now payload.now ts unit object off) }
{
    check_at(objects, slots, payload, object)?;
    let o = store::object_of(objects, object);
    Ok(offsets::bca_rt_off_unchecked(slots, o.first, o.count, ts, unit, off))
}

// Rows 6, 7 and 8.
pub fn check_at(objects: &[u8], slots: &[u8], payload: &[u8], object: usize) -> Result<(), Refusal>
    ensures { result ≡ check_at objects.now slots.now payload.now object }
{
    store::check_store(objects, slots, payload)?;
    store::check_object(objects, object)
}

// The n bytes from place at on, as far as s reaches.
pub fn lent<'a>(s: &'a [u8], at: usize, n: usize) -> &'a [u8]
    ensures { result.now ≡ take n (drop at s.now) }
{
    let rest = &s[at.min(s.len())..];
    &rest[..n.min(rest.len())]
}
