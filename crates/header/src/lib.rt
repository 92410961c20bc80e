// The header of a BytecodeArray, and numbers in tagged slots (disasm.rs: the first part of render_sfi, smi_slot, num_field). The
// calls on a lent store check it first. What they use takes an object and its slots, checks nothing, and searches as the Rust does,
// which on a checked store finds the same.
#![tactic(auto)]

ghost use Rattle.std.specs.Prelude.{◌≡◌};
ghost use Rattle.serializer.specs.mirror.Search.{raw_searched};
ghost use Rattle.serializer.specs.Length.{smi_field};
ghost use Rattle.header.specs.Header.{length_off, or_zero, length_by, length_ok, field_by, number_at, param_count, code_span, header_with, rt_for};
ghost use Rattle.header.specs.mirror.Header.{raw_for, header_searched};
ghost use Rattle.header.specs.Slots.{slot_by, untested, smi_raw, smi_by, plain_num, smi_num, num_by, field_num};
ghost use Rattle.header.specs.Calls.{check_code, check_header, header_call, smi_call, num_call};
ghost use Rattle.header.specs.Numbers.{header_numbers, smi_slot_numbers, num_field_numbers};

use refusal::{Fault, Refusal};
use serializer::Span;
use store::Object;
use tables::Layout;

#[derive(Clone, Copy)]
pub struct Header {
    pub length: u32,
    pub parameter_count: i32,
    pub register_count: u32,
    pub frame_size: u32,
    pub osr: u8,
    pub age: u8,
    // The part of the payload that is the code; empty where the payload does not hold it.
    pub code_at: usize,
    pub code_len: usize,
}

// Calls on a lent store and an object number, with the checks of rows 6, 7 and 8.

// The header of an object: rows 1 and 5 of the layout first; row 8 also where it is no BytecodeArray, then row 9.
#[tactic(auto, using(crate::proofs::Searched::header_called), unfolding(crate::specs::Calls::header_call))]
pub fn header_at(
    objects: &[u8],
    slots: &[u8],
    payload: &[u8],
    layout: &[u8],
    object: usize,
) -> Result<Header, Refusal>
    ensures { header_numbers result
        ≡ header_numbers (header_call objects.now slots.now payload.now layout.now object) }
{
    check_header(objects, slots, payload, layout, object)?;
    let o = store::object_of(objects, object);
    header_at_unchecked(slots, payload, o, tables::layout_of(layout))
}

#[tactic(auto, using(crate::proofs::Searched::smi_called), unfolding(crate::specs::Calls::smi_call))]
pub fn smi_slot(
    objects: &[u8],
    slots: &[u8],
    payload: &[u8],
    ts: u8,
    object: usize,
    slot: u64,
) -> Result<Option<i64>, Refusal>
    ensures { smi_slot_numbers result
        ≡ smi_slot_numbers (smi_call objects.now slots.now payload.now ts object slot) }
{
    serializer::check_at(objects, slots, payload, object)?;
    let o = store::object_of(objects, object);
    Ok(smi_slot_unchecked(slots, payload, o.first, o.count, ts, slot))
}

#[tactic(auto, using(crate::proofs::Searched::num_called), unfolding(crate::specs::Calls::num_call))]
pub fn num_field(
    objects: &[u8],
    slots: &[u8],
    payload: &[u8],
    ts: u8,
    object: usize,
    slot: u64,
    flags_smi: bool,
) -> Result<Option<u32>, Refusal>
    ensures { num_field_numbers result
        ≡ num_field_numbers (num_call objects.now slots.now payload.now ts object slot flags_smi) }
{
    serializer::check_at(objects, slots, payload, object)?;
    let o = store::object_of(objects, object);
    Ok(num_field_unchecked(slots, payload, o.first, o.count, ts, slot, flags_smi))
}

fn check_code(objects: &[u8], slots: &[u8], payload: &[u8], object: usize) -> Result<(), Refusal>
    ensures { result ≡ check_code objects.now slots.now payload.now object }
{
    store::check_store(objects, slots, payload)?;
    store::check_code_object(objects, object)
}

// The checks of the layout, then those of the store.
fn check_header(
    objects: &[u8],
    slots: &[u8],
    payload: &[u8],
    layout: &[u8],
    object: usize,
) -> Result<(), Refusal>
    ensures { result ≡ check_header objects.now slots.now payload.now layout.now object }
{
    tables::check_layout_file(layout)?;
    check_code(objects, slots, payload, object)
}

// The header.

// The header of an object by its slots, or row 9.
#[tactic(auto, unfolding(crate::specs::Header::header_by))]
pub fn header_at_unchecked(
    slots: &[u8],
    payload: &[u8],
    object: Object,
    layout: Layout,
) -> Result<Header, Refusal>
    ensures { result ≡ header_searched slots.now payload.now object layout }
{
    let length = length_of(slots, payload, object, layout);
    if !length_ok(length) {
        return Err(Refusal {
            fault: Fault::BadLength,
            place: 0,
        });
    }
    Ok(header_with(slots, payload, object, layout, length as u32))
}

// The length field; 0 where it is not found or is no small integer.
fn length_of(slots: &[u8], payload: &[u8], object: Object, layout: Layout) -> i64
    ensures { result ≡ length_by payload.now (raw_for slots.now object layout) (rt_for slots.now object layout) layout }
{
    let ts = layout.tagged_size;
    let off = length_off(slots, object, layout);
    let field = serializer::raw_at_unchecked(slots, object.first, object.count, ts, off, ts as u64);
    smi_or_0(payload, ts, field)
}

// The offset of the length field; an absent one is not passed through rt_off.
fn length_off(slots: &[u8], object: Object, layout: Layout) -> u64
    ensures { result ≡ length_off (rt_for slots.now object layout) layout.tagged_size layout.length }
{
    match layout.length {
        Some(off) => serializer::bca_rt_off_unchecked(
            slots,
            object.first,
            object.count,
            layout.tagged_size,
            layout.unit,
            off,
        ),
        None => layout.tagged_size as u64,
    }
}

fn smi_or_0(payload: &[u8], ts: u8, field: Option<usize>) -> i64
    ensures { result ≡ or_zero (smi_field payload.now ts field) }
{
    let Some(at) = field else {
        return 0;
    };
    serializer::smi_at(payload, at, ts as usize).unwrap_or(0)
}

// Row 9.
fn length_ok(length: i64) -> bool
    ensures { result ≡ length_ok length }
{
    0 <= length && length <= 65536
}

// The header where the length is n.
#[tactic(auto, unfolding(crate::specs::Header::header_with))]
fn header_with(slots: &[u8], payload: &[u8], object: Object, layout: Layout, n: u32) -> Header
    ensures { result ≡ header_with payload.now (raw_for slots.now object layout) (rt_for slots.now object layout) layout n }
{
    let frame = layout.frame_size;
    let params = layout.parameter_size;
    let osr = layout.osr;
    let age = layout.age;
    let frame_size = u32_found(payload, field_at(slots, object, layout, frame, 4));
    let size = u32_found(payload, field_at(slots, object, layout, params, 4));
    let code = code_of(slots, object, layout, n);
    Header {
        length: n,
        parameter_count: param_count(layout.direct, size),
        register_count: frame_size / 8,
        frame_size,
        osr: byte_found(payload, field_at(slots, object, layout, osr, 1)),
        age: byte_found(payload, field_at(slots, object, layout, age, 1)),
        code_at: code.at,
        code_len: code.len,
    }
}

// Where in the payload the w bytes of a field are.
fn field_at(
    slots: &[u8],
    object: Object,
    layout: Layout,
    field: Option<u32>,
    w: u8,
) -> Option<usize>
    ensures { result ≡ field_by (raw_for slots.now object layout) (rt_for slots.now object layout) field w }
{
    raw_from(slots, object, layout, field?, w as u32)
}

// Where in the payload the len bytes from byte off of the capture on are.
fn raw_from(slots: &[u8], object: Object, layout: Layout, off: u32, len: u32) -> Option<usize>
    ensures { result ≡ raw_for slots.now object layout (rt_for slots.now object layout off) len }
{
    let first = object.first;
    let count = object.count;
    let ts = layout.tagged_size;
    let at = serializer::bca_rt_off_unchecked(slots, first, count, ts, layout.unit, off);
    serializer::raw_at_unchecked(slots, first, count, ts, at, len as u64)
}

fn u32_found(payload: &[u8], field: Option<usize>) -> u32
    ensures { result ≡ number_at payload.now 4 field }
{
    field.map_or(0, |at| words::u32_at(payload, at))
}

#[tactic(auto, using(crate::proofs::Laws::byte_one))]
fn byte_found(payload: &[u8], field: Option<usize>) -> u8
    ensures { result ≡ number_at payload.now 1 field }
{
    field.map_or(0, |at| words::byte_at(payload, at))
}

fn param_count(direct: bool, size: u32) -> i32
    ensures { result ≡ param_count direct size }
{
    if direct {
        (size % 65536).cast_signed()
    } else {
        size.cast_signed() / 8
    }
}

// The n bytes behind the header, or none.
fn code_of(slots: &[u8], object: Object, layout: Layout, n: u32) -> Span
    ensures { result ≡ code_span (raw_for slots.now object layout (rt_for slots.now object layout layout.header_size) n) n }
{
    match raw_from(slots, object, layout, layout.header_size, n) {
        Some(at) => Span {
            at,
            len: n as usize,
        },
        None => Span { at: 0, len: 0 },
    }
}

// Numbers in slots.

// smi_slot of an object's slots: it tests neither the low half nor bit 0.
#[tactic(auto, unfolding(crate::specs::Slots::smi_by))]
pub fn smi_slot_unchecked(
    slots: &[u8],
    payload: &[u8],
    first: u32,
    count: u32,
    ts: u8,
    slot: u64,
) -> Option<i64>
    ensures { result ≡ smi_by payload.now (raw_searched slots.now first count ts) ts slot }
{
    smi_raw(payload, ts, slot_raw(slots, first, count, ts, slot, ts))
}

// num_field of an object's slots.
#[tactic(auto, unfolding(crate::specs::Slots::field_num))]
pub fn num_field_unchecked(
    slots: &[u8],
    payload: &[u8],
    first: u32,
    count: u32,
    ts: u8,
    slot: u64,
    flags_smi: bool,
) -> Option<u32>
    ensures { result ≡ field_num payload.now (raw_searched slots.now first count ts) ts slot flags_smi }
{
    let plain = plain_num(payload, slot_raw(slots, first, count, ts, slot, 4));
    let tagged = smi_num(smi_slot_unchecked(slots, payload, first, count, ts, slot));
    num_by(flags_smi, plain, tagged)
}

// Where in the payload the first len bytes of a slot are.
fn slot_raw(slots: &[u8], first: u32, count: u32, ts: u8, slot: u64, len: u8) -> Option<usize>
    ensures { result ≡ slot_by (raw_searched slots.now first count ts) ts slot len }
{
    if 4294967295 < slot {
        return None;
    }
    serializer::raw_at_unchecked(slots, first, count, ts, slot * ts as u64, len as u64)
}

fn smi_raw(payload: &[u8], ts: u8, field: Option<usize>) -> Option<i64>
    ensures { result ≡ smi_raw payload.now ts field }
{
    smi_untested(payload, ts, field?)
}

fn smi_untested(payload: &[u8], ts: u8, at: usize) -> Option<i64>
    ensures { result ≡ untested payload.now ts at }
{
    match ts {
        8 => {
            let high = (words::u64_at(payload, at) / 4294967296) as u32;
            Some(i64::from(high.cast_signed()))
        }
        4 => {
            let raw = words::u32_at(payload, at);
            Some(i64::from(raw.cast_signed() >> 1))
        }
        _ => None,
    }
}

fn plain_num(payload: &[u8], field: Option<usize>) -> Option<u32>
    ensures { result ≡ plain_num payload.now field }
{
    field.map(|at| words::u32_at(payload, at))
}

fn smi_num(smi: Option<i64>) -> Option<u32>
    ensures { result ≡ smi_num smi }
{
    smi.map(words::low32)
}

// The number that the flag, the plain number and the small integer decide for.
fn num_by(flags_smi: bool, plain: Option<u32>, tagged: Option<u32>) -> Option<u32>
    ensures { result ≡ num_by flags_smi plain tagged }
{
    let (Some(r), Some(s)) = (plain, tagged) else {
        return plain.or(tagged);
    };
    if flags_smi || r == 0 {
        Some(s)
    } else {
        Some(r)
    }
}
