// A summary of an array's slots by blocks of 512, for many walks downward over them: a block that a walk would pass is not looked at.
ghost use Rattle.std.specs.Prelude.{◌≡◌, true, ◌+◌, ◌/◌, ◌≤◌, min};
ghost use Rattle.serializer.specs.mirror.Blocks.{held, WindowOf, InWindow, Blocked};

use store::SlotValue;

// The indices, from `from` on and below `to`, for which a walk downward passes a block of slots.
#[derive(Clone, Copy)]
struct Window {
    from: u32,
    to: u32,
}

// The window of block b at places 2b and 2b + 1, empty (0, 0) for blocks behind the 2,048th and where the array has at most 1,024
// slots: an ordinary one costs only the room.
pub fn elem_blocks(slots: &[u8], first: u32, count: u32, ts: u8) -> [u32; 4096]
    ensures { Blocked slots.now first count ts result }
{
    // Fixed room, as there is no heap.
    let mut blocks = [0u32; 4096];
    for b in 0..block_count(count) {
        let lo = b * 512;
        let w = window_of(slots, first, lo, block_end(lo, count), ts);
        let at = b as usize * 2;
        blocks[at] = w.from;
        blocks[at + 1] = w.to;
    }
    blocks
}

// How many blocks have a window.
fn block_count(count: u32) -> u32
    ensures { result ≤ 2048 }
{
    if count <= 1024 {
        return 0;
    }
    if 1048576 < count {
        return 2048;
    }
    (count - 1) / 512 + 1
}

// Where the block from slot lo on ends.
fn block_end(lo: u32, count: u32) -> u32
    ensures { result ≡ min (lo + 512) count }
{
    count.min(lo.saturating_add(512))
}

// The window of slots lo to hi - 1: it starts where their last element ends, and ends where a walk would stop at one of them.
fn window_of(slots: &[u8], first: u32, lo: u32, hi: u32, ts: u8) -> Window
    ensures { WindowOf slots.now first ts lo hi result.from result.to }
{
    let mut from: u32 = 0;
    let mut to = u32::MAX;
    for k in lo..hi {
        let slot = store::slot_of(slots, first as usize + k as usize);
        // A sum that does not fit is cut off where no window reaches.
        from = from.max(slot.index.saturating_add(held(slot.value, ts)));
        to = to.min(slot.index.saturating_add(5));
    }
    Window { from, to }
}

// How many elements a slot's value is, from the slot's index on.
fn held(value: SlotValue, ts: u8) -> u32
    ensures { result ≡ held value ts }
{
    match value {
        SlotValue::Other => 0,
        SlotValue::Object(_) => 1,
        SlotValue::Root => 1,
        SlotValue::OtherRef => 1,
        SlotValue::Raw(run) => whole(run.len, ts),
        SlotValue::Repeat(rep) => rep.count,
    }
}

// The whole elements in a run.
fn whole(len: u32, ts: u8) -> u32
    ensures { result ≡ len / ts }
{
    if ts == 0 { 0 } else { len / ts as u32 }
}

// Whether a walk for an index passes block b.
pub(crate) fn passes(blocks: &[u32], b: u32, want: u64) -> bool
    ensures { result ≡ true → InWindow blocks.now b want }
{
    let at = b as usize * 2;
    at + 1 < blocks.len() && blocks[at] as u64 <= want && want < blocks[at + 1] as u64
}
