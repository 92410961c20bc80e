// Replays the recorded walks: each is asked of our own walk check, and answers and marks are compared.
#![tactic(auto)]

mod answers;
mod each;
mod shown;
mod tries;
mod walks;

use tries::{Tries, no_tries, tries_after};
use vectors::calls::{Call, File};
use vectors::counts::{
    Counts, NO_TOTAL, Outcome, Total, counted, no_counts, numbered, unasked, with_codes,
    with_unknown,
};
use vectors::items::{
    Files, Item, Items, Kind, Part, contents, files_after, kind_of, lent, no_files,
};
use vectors::lines::{both, print_counts, print_total, print_wrong, read};

// The recordings, and whether the named walks of each are printed; the last three have handler records.
const RECORDINGS: [(&str, bool); 11] = [
    ("walk-1.vec", true),
    ("walk-2.vec", false),
    ("walk-3.vec", false),
    ("walk-4.vec", false),
    ("walk-5.vec", false),
    ("walk-v8.vec", false),
    ("walk-caches.vec", false),
    ("walk-few.vec", false),
    ("walk-handlers.vec", true),
    ("walk-tries.vec", false),
    ("walk-tries-v8.vec", false),
];

fn main(rt: HostRuntime) {
    let mut total = NO_TOTAL;
    for (name, shows) in RECORDINGS {
        total = both(total, rewalk(&rt, name, shows));
    }
    print_total(&rt, total);
    print_wrong(&rt, rewalk(&rt, "wrong.vec", false));
}

// A file, in a buffer that is longer than any of them; its named walks are printed, or not.
fn rewalk(rt: &(impl std::rt::Files + Print + Eprint), name: &str, shows: bool) -> Total {
    let mut buffer = [0u8; 1048576];
    rewalk_in(rt, name, shows, &mut buffer)
}

// Where it has functions with handlers it is said how many handlers are reached.
fn rewalk_in(
    rt: &(impl std::rt::Files + Print + Eprint),
    name: &str,
    shows: bool,
    buffer: &mut [u8; 1048576],
) -> Total {
    let len = read(rt, name.as_bytes(), buffer);
    let whole = Part { at: 0, len };
    let seen = ask_file(rt, lent(buffer, whole), shows);
    let total = print_counts(rt, name.as_bytes(), seen.counts);
    tries::print(rt, seen.tries);
    total
}

// What the calls of a file came to.
#[derive(Clone, Copy)]
struct Seen {
    counts: Counts,
    tries: Tries,
}

// The calls of a file; those with a name are printed, or not.
fn ask_file(rt: &impl Print, bytes: &[u8], shows: bool) -> Seen {
    let mut counts = no_counts();
    let mut tries = no_tries();
    let mut files = no_files();
    for item in Items::new(bytes) {
        files = files_after(bytes, files, item);
        counts = counts_after(rt, bytes, files, counts, item, shows);
        tries = tries_after(bytes, files, tries, item);
    }
    Seen { counts, tries }
}

fn counts_after(
    rt: &impl Print,
    bytes: &[u8],
    files: Files,
    counts: Counts,
    item: Item,
    shows: bool,
) -> Counts {
    let call = lent(bytes, item.body);
    match kind_of(item) {
        Some(Kind::Sets(_) | Kind::Names(_)) => counts,
        Some(Kind::Call(function)) => {
            counts_call(rt, bytes, files, numbered(counts), function, call, shows)
        }
        None => with_unknown(counts),
    }
}

// Each walk is asked of its call for C too; walks with handler records have rows of their own.
fn counts_call(
    rt: &impl Print,
    bytes: &[u8],
    files: Files,
    counts: Counts,
    function: u8,
    call: &[u8],
    shows: bool,
) -> Counts {
    let Ok(asked) = Call::try_from(function) else {
        return unasked(counts);
    };
    let number = shows.then_some(counts.number);
    let with = Some(contents(bytes, files, File::Handlers));
    let (same, beside, told) = match asked {
        Call::Walk => (
            walks::of_object(rt, bytes, files, call, None, number),
            Call::JscdWalk,
            walks::for_c(bytes, files, call, None),
        ),
        Call::WalkCode => (
            walks::of_code(rt, bytes, files, call, None, number),
            Call::JscdWalkCode,
            walks::code_for_c(bytes, files, call, None),
        ),
        Call::WalkWith => (
            walks::of_object(rt, bytes, files, call, with, number),
            Call::JscdWalkWith,
            walks::for_c(bytes, files, call, with),
        ),
        Call::WalkCodeWith => (
            walks::of_code(rt, bytes, files, call, with, number),
            Call::JscdWalkCodeWith,
            walks::code_for_c(bytes, files, call, with),
        ),
        Call::WalkLastBytes => return counts_last_bytes(bytes, files, counts, call),
        _ => return unasked(counts),
    };
    let after = counted(counts, Some(asked), Outcome::from(same));
    counted(after, Some(beside), Outcome::from(told))
}

// Each call asks 256 codes for each prefix.
fn counts_last_bytes(bytes: &[u8], files: Files, counts: Counts, call: &[u8]) -> Counts {
    let same = each::last_bytes(bytes, files, call);
    let after = counted(counts, Some(Call::WalkLastBytes), Outcome::from(same));
    with_codes(after, u64::from(words::u32_at(call, 8)) * 256)
}
