// Slots: the one that is found at an index, and all records of a store in order.
use store::{Inner, Repeat, Slot, SlotValue};
use vectors::calls::File;
use vectors::items::{Files, behind, contents};
use vectors::said;

// A slot's value as it is recorded.
#[derive(Clone, Copy)]
struct Told {
    kind: u64,
    number: u64,
    len: u64,
    count: u64,
    inner: u64,
}

// 14: the slot of an object at an index.
pub fn slot_at(bytes: &[u8], files: Files, call: &[u8]) -> bool {
    let said = behind(call, 16);
    let answer = serializer::slot_at(
        contents(bytes, files, File::Objects),
        contents(bytes, files, File::Slots),
        contents(bytes, files, File::Payload),
        words::u64_at(call, 0) as usize,
        words::u64_at(call, 8),
    );
    match answer {
        Ok(Some(value)) => is_value(said, value_told(value)),
        Ok(None) => said::is_nothing(said),
        Err(refusal) => said::is_refused(said, refusal),
    }
}

fn is_value(said: &[u8], t: Told) -> bool {
    said::is_numbers(said, &[t.kind, t.number, t.len, t.count, t.inner])
}

// 25: the records of a good store, by the slot reader.
pub fn slot_records(bytes: &[u8], files: Files, said: &[u8]) -> bool {
    let objects = contents(bytes, files, File::Objects);
    let slots = contents(bytes, files, File::Slots);
    match store::check_store(objects, slots, contents(bytes, files, File::Payload)) {
        Ok(()) => words::byte_at(said, 0) == 1 && are_records(slots, behind(said, 1)),
        Err(refusal) => said::is_refused(said, refusal),
    }
}

// As many steps as there are records of 48 bytes; then the reader is at the end.
fn are_records(slots: &[u8], records: &[u8]) -> bool {
    let n = records.len() / 48;
    let mut at: usize = 0;
    let mut from: usize = 0;
    for _ in 0..n {
        let step = reader::read_step(slots, at);
        let read = step.read;
        if !is_found(records, from, read) {
            return false;
        }
        at = step.at;
        from = text::saturating_add(from, 48);
    }
    is_end(slots, at) && from == records.len()
}

fn is_end(slots: &[u8], at: usize) -> bool {
    let step = reader::read_step(slots, at);
    let read = step.read;
    match read {
        Some(_) => false,
        None => step.at == at,
    }
}

fn is_found(records: &[u8], at: usize, read: Option<Slot>) -> bool {
    match read {
        Some(slot) => is_record(records, at, slot),
        None => false,
    }
}

// Index, then the value.
fn is_record(records: &[u8], at: usize, slot: Slot) -> bool {
    let value = slot.value;
    let t = value_told(value);
    said::are_numbers(records, at, &[slot.index as u64, t.kind, t.number])
        && said::are_numbers(
            records,
            text::saturating_add(at, 24),
            &[t.len, t.count, t.inner],
        )
}

// Kind, number or offset, length, repeat count, inner kind.
fn value_told(value: SlotValue) -> Told {
    match value {
        SlotValue::Other => plain(0, 0, 0),
        SlotValue::Object(n) => plain(1, n as u64, 0),
        SlotValue::Root => plain(2, 0, 0),
        SlotValue::OtherRef => plain(3, 0, 0),
        SlotValue::Raw(run) => plain(4, run.off as u64, run.len as u64),
        SlotValue::Repeat(repeat) => repeated(repeat),
    }
}

fn plain(kind: u64, number: u64, len: u64) -> Told {
    Told {
        kind,
        number,
        len,
        count: 0,
        inner: 0,
    }
}

// A repeat has the numbers of its inner value.
fn repeated(repeat: Repeat) -> Told {
    let inner = repeat.inner;
    let one = inner_told(inner);
    Told {
        kind: 5,
        number: one.number,
        len: one.len,
        count: repeat.count as u64,
        inner: one.kind,
    }
}

fn inner_told(inner: Inner) -> Told {
    match inner {
        Inner::Other => plain(0, 0, 0),
        Inner::Object(n) => plain(1, n as u64, 0),
        Inner::Root => plain(2, 0, 0),
        Inner::OtherRef => plain(3, 0, 0),
        Inner::Raw(run) => plain(4, run.off as u64, run.len as u64),
    }
}
