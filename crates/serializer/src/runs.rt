// The field that a raw run holds, by the walk downward.
ghost use Rattle.std.specs.Prelude.{◌≡◌, None};
ghost use Rattle.serializer.specs.Down.{walk_down};
ghost use Rattle.serializer.specs.mirror.Search.{raw_searched};
ghost use Rattle.serializer.specs.Field.{raw_run, raw_value, raw_look};

use store::SlotValue;

// raw_at of an object's slots: where in the payload the len bytes from byte off of the object on are.
#[tactic(auto, unfolding(crate::specs::mirror::Search::raw_searched))]
pub fn raw_at_unchecked(
    slots: &[u8],
    first: u32,
    count: u32,
    ts: u8,
    off: u64,
    len: u64,
) -> Option<usize>
    ensures { result ≡ raw_searched slots.now first count ts off len }
{
    if ts == 0 {
        return None;
    }
    if 4294967295 < off {
        return None;
    }
    if 4294967295 < len {
        return None;
    }
    let want = off / ts as u64;
    let start = crate::slots::partition_point(slots, first, count, want + 1);
    raw_down(slots, first, start, ts, want, off as u32, len as u32)
}

// The walk from slot start downward.
#[tactic(auto, using(crate::proofs::Down::down_more, crate::proofs::Down::down_none))]
fn raw_down(
    slots: &[u8],
    first: u32,
    start: u32,
    ts: u8,
    want: u64,
    off: u32,
    len: u32,
) -> Option<usize>
    ensures { result ≡ walk_down (raw_look ts off len) None slots.now first want start }
{
    for k in (0..start).rev() {
        let slot = store::slot_of(slots, first as usize + k as usize);
        if let Some(at) = raw_in(slot.value, slot.index, ts, off, len) {
            return Some(at);
        }
        if crate::slots::stops(slot.index, want) {
            return None;
        }
    }
    None
}

// Whether a slot's value holds the field.
fn raw_in(value: SlotValue, index: u32, ts: u8, off: u32, len: u32) -> Option<usize>
    ensures { result ≡ raw_value value index ts off len }
{
    let SlotValue::Raw(run) = value else {
        return None;
    };
    raw_run(run, index, ts, off, len)
}

fn raw_run(run: store::Run, index: u32, ts: u8, off: u32, len: u32) -> Option<usize>
    ensures { result ≡ raw_run run index ts off len }
{
    let start = index as u64 * ts as u64;
    let from = off as u64;
    if from < start {
        return None;
    }
    if start + (run.len as u64) < from + len as u64 {
        return None;
    }
    Some((run.off as u64 + (from - start)) as usize)
}
