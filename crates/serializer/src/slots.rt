// A slot by its index.
ghost use Rattle.std.specs.Prelude.{◌≡◌};
ghost use Rattle.serializer.specs.Down.{stops};
ghost use Rattle.serializer.specs.mirror.Search.{point_at, slot_searched};

use store::SlotValue;

// slot_at of an object's slots.
#[tactic(auto, unfolding(crate::specs::mirror::Search::slot_searched))]
pub fn slot_at_unchecked(slots: &[u8], first: u32, count: u32, index: u64) -> Option<SlotValue>
    ensures { result ≡ slot_searched slots.now first count index }
{
    let i = partition_point(slots, first, count, index);
    if count <= i {
        return None;
    }
    let slot = store::slot_of(slots, first as usize + i as usize);
    (slot.index as u64 == index).then_some(slot.value)
}

// How many of the slots have an index below the one given, where they are in order of their index.
#[tactic(auto, using(crate::proofs::Point::reach_start, crate::proofs::Point::reach_up, crate::proofs::Point::reach_down))]
pub(crate) fn partition_point(slots: &[u8], first: u32, count: u32, below: u64) -> u32
    ensures { result ≡ point_at slots.now first count below }
{
    // The library's partition_point is over a slice of slots, and these lie as bytes.
    let mut lo: u32 = 0;
    let mut hi = count;
    while lo < hi {
        let mid = lo + (hi - lo) / 2;
        let index = store::slot_index(slots, first as usize + mid as usize);
        if (index as u64) < below {
            lo = mid + 1;
        } else {
            hi = mid;
        }
    }
    lo
}

// Whether a walk that seeks an index stops after a slot.
pub(crate) fn stops(index: u32, want: u64) -> bool
    ensures { result ≡ stops index want }
{
    index as u64 + 4 < want
}
