// An element of an array, by the walk downward.
ghost use Rattle.std.specs.Prelude.{◌≡◌, ℕ, ◌<◌, ◌≤◌, None};
ghost use Rattle.serializer.specs.Down.{walk_down};
ghost use Rattle.serializer.specs.mirror.Blocks.{Blocked};
ghost use Rattle.serializer.specs.mirror.Search.{elem_searched};
ghost use Rattle.serializer.specs.Element.{elem_bytes, elem_ref, elem_raw, elem_inner, elem_repeat, elem_value, elem_look, elem_or};

use crate::{Elem, Span};
use store::SlotValue;

// array_elem of an object's slots.
#[tactic(auto, using(crate::proofs::Windows::no_blocks))]
pub fn array_elem_unchecked(
    slots: &[u8],
    payload: &[u8],
    first: u32,
    count: u32,
    ts: u8,
    element: u64,
) -> Option<Elem>
    ensures { result ≡ elem_searched slots.now payload.now first count ts element }
{
    let none = [0u32; 1];
    array_elem_in(slots, payload, &none, first, count, ts, element)
}

// The same by a summary of the slots, as `elem_blocks` makes it: for many elements of one array.
#[tactic(auto, using(crate::proofs::Point::point_within), unfolding(crate::specs::mirror::Search::elem_searched))]
pub fn array_elem_in(
    slots: &[u8],
    payload: &[u8],
    blocks: &[u32],
    first: u32,
    count: u32,
    ts: u8,
    element: u64,
) -> Option<Elem>
    ensures { Blocked slots.now first count ts blocks.now
        → result ≡ elem_searched slots.now payload.now first count ts element }
{
    if ts == 0 {
        return None;
    }
    if 4294967295 < element {
        return None;
    }
    let want = element + 2;
    let point = crate::slots::partition_point(slots, first, count, want + 1);
    elem_down(slots, payload, blocks, first, point, ts, want)
}

// The walk from slot start downward, block by block.
#[tactic(auto, using(crate::proofs::Down::down_none, crate::proofs::Windows::block_passed))]
fn elem_down(
    slots: &[u8],
    payload: &[u8],
    blocks: &[u32],
    first: u32,
    start: u32,
    ts: u8,
    want: u64,
) -> Option<Elem>
    requires { (0 < ts) × (want < 8589934592) }
    ensures { (count : ℕ) → start ≤ count → Blocked slots.now first count ts blocks.now
        → result ≡ walk_down (elem_look payload.now ts want) None slots.now first want start }
{
    // A range of blocks would say no more plainly that the first of them is cut off at start.
    let mut k = start;
    while 0 < k {
        let top = k;
        let b = (k - 1) / 512;
        k = b * 512;
        if !crate::blocks::passes(blocks, b, want) {
            if let Some(e) = block_down(slots, payload, first, k, top, ts, want) {
                return e;
            }
        }
    }
    None
}

// The walk from slot hi downward to slot lo: what it finds, nothing where it stops, or that all these slots are passed over.
#[tactic(auto, using(crate::proofs::Down::down_more))]
fn block_down(
    slots: &[u8],
    payload: &[u8],
    first: u32,
    lo: u32,
    hi: u32,
    ts: u8,
    want: u64,
) -> Option<Option<Elem>>
    requires { (lo ≤ hi) × (want < 8589934592) }
    ensures { walk_down (elem_look payload.now ts want) None slots.now first want hi
        ≡ elem_or result (walk_down (elem_look payload.now ts want) None slots.now first want lo) }
{
    for k in (lo..hi).rev() {
        let slot = store::slot_of(slots, first as usize + k as usize);
        if let Some(e) = elem_in(slot.value, payload, slot.index, ts, want) {
            return Some(e);
        }
        if crate::slots::stops(slot.index, want) {
            return Some(None);
        }
    }
    None
}

// What a slot's value says of the element.
fn elem_in(value: SlotValue, payload: &[u8], index: u32, ts: u8, want: u64) -> Option<Option<Elem>>
    requires { want < 8589934592 }
    ensures { result ≡ elem_value payload.now value index ts want }
{
    match value {
        SlotValue::Object(n) => elem_ref(index, want, Some(Elem::Object(n))),
        SlotValue::Root => elem_ref(index, want, Some(Elem::Root)),
        SlotValue::OtherRef => elem_ref(index, want, Some(Elem::OtherRef)),
        SlotValue::Raw(run) => elem_raw(payload, run, index, ts, want),
        SlotValue::Repeat(rep) => elem_repeat(payload, rep, index, ts, want),
        SlotValue::Other => None,
    }
}

fn elem_ref(index: u32, want: u64, e: Option<Elem>) -> Option<Option<Elem>>
    ensures { result ≡ elem_ref index want e }
{
    (index as u64 == want).then_some(e)
}

fn elem_raw(payload: &[u8], run: store::Run, index: u32, ts: u8, want: u64) -> Option<Option<Elem>>
    requires { want < 8589934592 }
    ensures { result ≡ elem_raw payload.now run index ts want }
{
    let off = want * ts as u64;
    let start = index as u64 * ts as u64;
    if off < start {
        return None;
    }
    if start + (run.len as u64) < off + ts as u64 {
        return None;
    }
    let at = run.off as u64 + (off - start);
    Some(elem_bytes(payload, at as usize, ts as usize))
}

fn elem_repeat(
    payload: &[u8],
    rep: store::Repeat,
    index: u32,
    ts: u8,
    want: u64,
) -> Option<Option<Elem>>
    requires { want < 8589934592 }
    ensures { result ≡ elem_repeat payload.now rep index ts want }
{
    let off = want * ts as u64;
    let start = index as u64 * ts as u64;
    if off < start {
        return None;
    }
    let places = rep.count as u64 * ts as u64;
    if start + places <= off {
        return None;
    }
    let inner = rep.inner;
    Some(elem_inner(payload, inner, ts))
}

// What a repeat repeats.
fn elem_inner(payload: &[u8], inner: store::Inner, ts: u8) -> Option<Elem>
    ensures { result ≡ elem_inner payload.now inner ts }
{
    match inner {
        store::Inner::Object(n) => Some(Elem::Object(n)),
        store::Inner::Root => Some(Elem::Root),
        store::Inner::OtherRef => Some(Elem::OtherRef),
        store::Inner::Raw(run) => elem_bytes(
            payload,
            run.off as usize,
            run.len.min(ts as u32) as usize,
        ),
        store::Inner::Other => None,
    }
}

// A small integer, or the bytes.
fn elem_bytes(payload: &[u8], at: usize, len: usize) -> Option<Elem>
    ensures { result ≡ elem_bytes payload.now at len }
{
    Some(match crate::integers::smi_at(payload, at, len) {
        Some(v) => Elem::Smi(v),
        None => Elem::Bytes(Span { at, len }),
    })
}
