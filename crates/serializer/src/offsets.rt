// Offsets of a BytecodeArray as it runs.
ghost use Rattle.std.specs.Prelude.{◌≡◌, ◌*◌, ◌/◌, Some};
ghost use Rattle.serializer.specs.Offset.{is_raw, raw_tail, behind, rt_off};

use store::SlotValue;

// bca_rt_off of an object's slots: where byte off of the capture is at run time.
#[tactic(auto, unfolding(crate::specs::Offset::rt_off))]
pub fn bca_rt_off_unchecked(slots: &[u8], first: u32, count: u32, ts: u8, unit: u8, off: u32) -> u64
    ensures { result ≡ rt_off slots.now first count ts unit off }
{
    if ts == unit {
        return off as u64;
    }
    match raw_tail(slots, first, count) {
        Some(index) => behind_tail(index, ts, unit, off),
        None => scaled(ts, unit, off),
    }
}

// The last plain raw slot in stored order.
#[tactic(auto, using(crate::proofs::Down::down_more, crate::proofs::Down::down_none))]
fn raw_tail(slots: &[u8], first: u32, count: u32) -> Option<u32>
    ensures { result ≡ raw_tail slots.now first count }
{
    for k in (0..count).rev() {
        let slot = store::slot_of(slots, first as usize + k as usize);
        if is_raw(slot.value) {
            return Some(slot.index);
        }
    }
    None
}

fn is_raw(value: SlotValue) -> bool
    ensures { result ≡ is_raw value }
{
    matches!(value, SlotValue::Raw(_))
}

fn behind_tail(index: u32, ts: u8, unit: u8, off: u32) -> u64
    ensures { result ≡ behind (Some index) ts unit off }
{
    let tail = index as u64 * unit as u64;
    let from = off as u64;
    if from < tail {
        return scaled(ts, unit, off);
    }
    index as u64 * ts as u64 + (from - tail)
}

// Tagged fields are ts bytes apart instead of unit.
fn scaled(ts: u8, unit: u8, off: u32) -> u64
    ensures { result ≡ off / unit * ts }
{
    if unit == 0 {
        0
    } else {
        off as u64 / unit as u64 * ts as u64
    }
}
