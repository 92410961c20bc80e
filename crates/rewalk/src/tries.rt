// Functions with handler records: how many are closed, and how many handlers are reached. This is told from our answers and marks alone, whatever is recorded: of
// real functions with V8's own handler tables each is closed, and each handler is reached.
use crate::walks;
use refusal::Refusal;
use vectors::calls::File;
use vectors::items::{Files, Item, Kind, contents};
use walk::Walked;

// Functions, those that are closed, their records, and those of these whose handler has a mark.
#[derive(Clone, Copy)]
pub struct Tries {
    pub functions: u64,
    pub closed: u64,
    pub records: u64,
    pub reached: u64,
}

pub fn no_tries() -> Tries {
    Tries {
        functions: 0,
        closed: 0,
        records: 0,
        reached: 0,
    }
}

// The number of the walk with records among the functions.
const WALK_WITH: u8 = 27;

// Counts the functions of the walks with records.
pub fn tries_after(bytes: &[u8], files: Files, tries: Tries, item: Item) -> Tries {
    match item.kind {
        Some(Kind::Call(WALK_WITH)) => with_function(bytes, files, tries),
        _ => tries,
    }
}

fn with_function(bytes: &[u8], files: Files, tries: Tries) -> Tries {
    let mut marks = [7u8; 65536];
    let handlers = contents(bytes, files, File::Handlers);
    let walked = walks::walk_object(bytes, files, Some(handlers), &mut marks);
    Tries {
        functions: tries.functions.wrapping_add(1),
        closed: tries.closed.wrapping_add(u64::from(is_closed(walked))),
        records: tries.records.wrapping_add((handlers.len() / 12) as u64),
        reached: tries.reached.wrapping_add(reached(handlers, &marks)),
    }
}

fn is_closed(walked: Result<Walked, Refusal>) -> bool {
    matches!(walked, Ok(Walked::Closed))
}

// How many records have a mark at their handler.
fn reached(handlers: &[u8], marks: &[u8]) -> u64 {
    handlers
        .chunks_exact(12)
        .filter(|&record| words::byte_at(marks, words::u32_at(record, 8) as usize) == 1)
        .count() as u64
}

// Where there are any.
pub fn print(rt: &impl Print, tries: Tries) {
    if tries.functions == 0 {
        return;
    }
    let Tries {
        functions,
        closed,
        records,
        reached,
    } = tries;
    let _ = println!(rt;
        "tries: {functions} functions, {closed} closed; {records} handlers, {reached} reached"
    );
}
