// Replays the vectors that the oracle recorded: each call is asked of our own functions, and the answers are compared.
#![tactic(auto)]

mod calls;
mod for_c;
mod instructions;
mod slots;

use vectors::calls::{Call, row};
use vectors::counts::{
    Counts, NO_TOTAL, Outcome, Total, counted, no_counts, numbered, with_unknown,
};
use vectors::items::{Files, Item, Items, Kind, Part, files_after, kind_of, lent, no_files};
use vectors::lines::{both, print_counts, print_total, print_wrong, read};

// The recordings, in the order in which their counts are printed.
const RECORDINGS: [&str; 10] = [
    "rows.vec",
    "store.vec",
    "slots.vec",
    "code.vec",
    "v8.vec",
    "write.vec",
    "write-code.vec",
    "write-v8.vec",
    "convert.vec",
    "convert-v8.vec",
];

fn main(rt: HostRuntime) {
    let mut total = NO_TOTAL;
    for name in RECORDINGS {
        total = both(total, replay(&rt, name));
    }
    print_total(&rt, total);
    print_wrong(&rt, replay(&rt, "wrong.vec"));
}

// A file, in a buffer that is longer than any of them.
fn replay(rt: &(impl std::rt::Files + Print + Eprint), name: &str) -> Total {
    let mut buffer = [0u8; 1048576];
    replay_in(rt, name, &mut buffer)
}

fn replay_in(
    rt: &(impl std::rt::Files + Print + Eprint),
    name: &str,
    buffer: &mut [u8; 1048576],
) -> Total {
    let len = read(rt, name.as_bytes(), buffer);
    let whole = Part { at: 0, len };
    print_counts(rt, name.as_bytes(), replay_file(lent(buffer, whole)))
}

fn replay_file(bytes: &[u8]) -> Counts {
    let mut counts = no_counts();
    let mut files = no_files();
    for item in Items::new(bytes) {
        files = files_after(bytes, files, item);
        counts = counts_after(bytes, files, counts, item);
    }
    counts
}

fn counts_after(bytes: &[u8], files: Files, counts: Counts, item: Item) -> Counts {
    match kind_of(item) {
        Some(Kind::Sets(_) | Kind::Names(_)) => counts,
        Some(Kind::Call(number)) => counts_call(bytes, files, numbered(counts), number, item.body),
        None => with_unknown(counts),
    }
}

// Decoding is asked of the call for C too.
fn counts_call(bytes: &[u8], files: Files, counts: Counts, number: u8, body: Part) -> Counts {
    let Ok(call) = Call::try_from(number) else {
        return counted(counts, row(number), Outcome::Differs);
    };
    let outcome = calls::replayed(bytes, files, call, body);
    let after = counted(counts, row_of(call, number), outcome);
    if !matches!(call, Call::Decode) {
        return after;
    }
    let same = for_c::decode(bytes, files, lent(bytes, body));
    counted(after, Some(Call::JscdDecode), Outcome::from(same))
}

// The conversions have rows of their own; any other call has the row of its number.
fn row_of(call: Call, number: u8) -> Option<Call> {
    match call {
        Call::JscdToNew | Call::JscdToOld => Some(call),
        _ => row(number),
    }
}
