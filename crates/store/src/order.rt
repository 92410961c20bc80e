// Indices that fall within an object: row 7.
ghost use Rattle.std.specs.Prelude.{◌≡◌, ◌*◌, ◌<◌, ◌≤◌, length};
ghost use Rattle.laws.specs.Scan.{first_from};
ghost use Rattle.store.specs.Records.{object_count};
ghost use Rattle.store.specs.mirror.Falls.{Later};
ghost use Rattle.store.specs.Check.{falls_in, falls};

// Row 7, slots whose index falls.

// The first slot below end that falls within the count slots from first on, or end.
// The end stands for none here and below: the next search ends at it, the least over all objects starts from it, and it fits a u32 of the table.
#[tactic(auto, using(crate::proofs::Falls::clear_start, crate::proofs::Falls::clear_next, crate::proofs::Falls::fall_here, crate::proofs::Falls::fall_none))]
fn first_fall_in(slots: &[u8], first: u32, count: u32, end: usize) -> usize
    ensures { result ≡ first_from (falls_in slots.now first count) 0 end }
{
    let stop = end.min(first as usize + count as usize);
    let mut before = crate::records::slot_index(slots, first as usize);
    for k in first as usize + 1..stop {
        let index = crate::records::slot_index(slots, k);
        if index < before {
            return k;
        }
        before = index;
    }
    end
}

// Falls are looked for by parts of 256 slots: an object costs the slots of one part at most, and not all of its own.
const PART: usize = 256;

// The parts of 1,048,576 slots, and of 4,096.
const PARTS: usize = 4096;

const FEW_PARTS: usize = 16;

// Writes down for each part behind the first the first slot from the part's start on whose index is lower than the one before it.
fn find_falls(slots: &[u8], later: &mut [u32], end: usize)
    requires { (0 < end) × (end ≤ 1048576) × (end ≤ length later.old * 256) }
    ensures { Later slots.now end later.new }
{
    let mut fall = end;
    let mut here = crate::records::slot_index(slots, end - 1);
    for k in (PART..end).rev() {
        let before = crate::records::slot_index(slots, k - 1);
        if here < before {
            fall = k;
        }
        later[k / PART] = fall as u32;
        here = before;
    }
}

// As first_fall_in: slot by slot to the end of first's part, and then as it is written down.
#[tactic(auto, using(crate::proofs::Parts::fall_near, crate::proofs::Parts::fall_edge, crate::proofs::Parts::fall_far, crate::proofs::Parts::fall_behind))]
fn fall_by_parts(slots: &[u8], later: &[u32], first: u32, count: u32, end: usize) -> usize
    requires { (end ≤ 1048576) × Later slots.now end later.now }
    ensures { result ≡ first_from (falls_in slots.now first count) 0 end }
{
    let part = first as usize / PART + 1;
    let edge = end.min(part * PART);
    let near = first_fall_in(slots, first, count, edge);
    if near < edge {
        return near;
    }
    if end <= edge {
        return end;
    }
    let far = later[part] as usize;
    if far < first as usize + count as usize {
        return far;
    }
    end
}

// The first slot below end that falls within an object, or end.
#[tactic(auto, using(crate::proofs::Falls::falls_none, crate::proofs::Parts::falls_least))]
fn fall_of_objects(objects: &[u8], slots: &[u8], later: &[u32], end: usize) -> usize
    requires { (end ≤ 1048576) × Later slots.now end later.now }
    ensures { result ≡ first_from (falls objects.now slots.now (object_count objects.now)) 0 end }
{
    let mut best = end;
    for seen in 0..crate::records::object_count(objects) {
        let object = crate::records::object_of(objects, seen);
        let fall = fall_by_parts(slots, later, object.first, object.count, end);
        best = best.min(fall);
    }
    best
}

fn fall_with(objects: &[u8], slots: &[u8], later: &mut [u32], end: usize) -> usize
    requires { (0 < end) × (end ≤ 1048576) × (end ≤ length later.old * 256) }
    ensures { result ≡ first_from (falls objects.now slots.now (object_count objects.now)) 0 end }
{
    find_falls(slots, later, end);
    fall_of_objects(objects, slots, later, end)
}

fn fall_in<const N: usize>(objects: &[u8], slots: &[u8], end: usize) -> usize
    requires { (0 < end) × (end ≤ N * 256) × (N ≤ 4096) }
    ensures { result ≡ first_from (falls objects.now slots.now (object_count objects.now)) 0 end }
{
    let mut later = [0u32; N];
    fall_with(objects, slots, &mut later, end)
}

// The same; where no index at all is lower than the one before it, no object is asked, and few slots take little room.
#[tactic(auto, using(crate::proofs::Parts::none_lower))]
pub(crate) fn first_fall(objects: &[u8], slots: &[u8], end: usize) -> usize
    requires { end ≤ 1048576 }
    ensures { result ≡ first_from (falls objects.now slots.now (object_count objects.now)) 0 end }
{
    let any = first_fall_in(slots, 0, end as u32, end);
    if end <= any {
        return end;
    }
    if end <= PART * FEW_PARTS {
        return fall_in::<FEW_PARTS>(objects, slots, end);
    }
    fall_in::<PARTS>(objects, slots, end)
}
