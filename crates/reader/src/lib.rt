// A slot reader: the lent slot records and a cursor, an iterator over the slots. The work is in `read_at` and `next_at`; `read_step`
// is a step of a reader that is not kept.
#![tactic(auto)]

ghost use Rattle.std.specs.Prelude.{◌≡◌};
ghost use Rattle.std.specs.Iterator.{YieldsFirst, item_count};
ghost use Rattle.store.specs.Records.{slot_count};
ghost use Rattle.reader.specs.Reading.{read_at, next_at, slots_from};
ghost use Rattle.reader.specs.Numbers.{read_numbers};

use store::Slot;

// The lent slot records, and the number of the record that is read next.
#[derive(Clone, Copy)]
pub struct SlotReader<'a> {
    pub slots: &'a [u8],
    pub at: usize,
}

// What was read, and the cursor behind it.
#[derive(Clone, Copy)]
pub struct Stepped {
    pub read: Option<Slot>,
    pub at: usize,
}

// A reader at a record.
pub fn new<'a>(slots: &'a [u8], at: usize) -> SlotReader<'a>
    ensures { (result.slots ≡ slots.entry) × (result.at ≡ at) }
{
    SlotReader { slots, at }
}

// The slot at the cursor, which moves to the next record; or the end, where the cursor stays.
pub fn next<'s, 'a>(r: &'s mut SlotReader<'a>) -> Option<Slot>
    ensures { (read_numbers r.old.at result
        ≡ read_numbers r.old.at (read_at r.old.slots.now r.old.at))
        × (r.new.slots ≡ r.old.slots)
        × (r.new.at ≡ next_at r.old.slots.now r.old.at) }
{
    let slots = r.slots;
    let at = r.at;
    r.at = next_at(slots, at);
    read_at(slots, at)
}

// What a reader at a record finds, and where its cursor is then.
pub fn read_step(slots: &[u8], at: usize) -> Stepped
    ensures { (read_numbers at result.read ≡ read_numbers at (read_at slots.now at)) × (result.at ≡ next_at slots.now at) }
{
    let mut r = new(slots, at);
    let read = next(&mut r);
    Stepped { read, at: r.at }
}

// The slots from the cursor on, one after the other.
impl<'a> Iterator for SlotReader<'a> {
    type Item = Slot;

    ghost next_gives = { YieldsFirst (λ s. slots_from s.slots.now s.at) };

    ghost remaining = { item_count (λ s. slots_from s.slots.now s.at) };

    fn next(&mut self) -> Option<Slot> {
        next(self)
    }
}

// How many slots a reader finds, one after the other from record 0 to the end.
#[tactic(auto, using(crate::proofs::Reading::slots_left))]
pub fn slots_read(slots: &[u8]) -> usize
    ensures { result ≡ slot_count slots.now }
{
    new(slots, 0).count()
}

#[tactic(auto, unfolding(crate::specs::Reading::read_at))]
fn read_at(slots: &[u8], at: usize) -> Option<Slot>
    ensures { result ≡ read_at slots.now at }
{
    if at < store::slot_count(slots) {
        Some(store::slot_of(slots, at))
    } else {
        None
    }
}

#[tactic(auto, unfolding(crate::specs::Reading::next_at))]
fn next_at(slots: &[u8], at: usize) -> usize
    ensures { result ≡ next_at slots.now at }
{
    let count = store::slot_count(slots);
    if at < count { at + 1 } else { at }
}
