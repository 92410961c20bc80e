// Replays recorded vectors as the program `replay` does: whole listings, headers, numbers in slots, targets and entries.
#![tactic(auto)]

mod entries;
mod fields;
mod for_c;
mod listings;
mod shown;

use vectors::calls::{Call, row};
use vectors::counts::{
    Counts, NO_TOTAL, Outcome, Total, counted, no_counts, numbered, with_unknown,
};
use vectors::items::{Files, Item, Items, Kind, Part, files_after, kind_of, lent, no_files};
use vectors::lines::{both, print_counts, print_total, print_wrong, read};

// The recordings, and whether the listings of each are printed.
const RECORDINGS: [(&str, bool); 9] = [
    ("named.vec", true),
    ("rows.vec", false),
    ("list.vec", false),
    ("jump.vec", false),
    ("entry.vec", false),
    ("header.vec", false),
    ("layout.vec", false),
    ("v8list.vec", false),
    ("caches.vec", false),
];

fn main(rt: HostRuntime) {
    let mut total = NO_TOTAL;
    for (name, shows) in RECORDINGS {
        total = both(total, relist(&rt, name, shows));
    }
    print_total(&rt, total);
    print_wrong(&rt, relist(&rt, "wrong.vec", false));
}

// A file, in a buffer that is longer than any of them; its listings are printed, or not.
fn relist(rt: &(impl std::rt::Files + Print + Eprint), name: &str, shows: bool) -> Total {
    let mut buffer = [0u8; 1048576];
    relist_in(rt, name, shows, &mut buffer)
}

fn relist_in(
    rt: &(impl std::rt::Files + Print + Eprint),
    name: &str,
    shows: bool,
    buffer: &mut [u8; 1048576],
) -> Total {
    let len = read(rt, name.as_bytes(), buffer);
    let whole = Part { at: 0, len };
    if shows {
        shown::show_file(rt, lent(buffer, whole));
    }
    print_counts(rt, name.as_bytes(), ask_file(lent(buffer, whole)))
}

fn ask_file(bytes: &[u8]) -> Counts {
    let mut counts = no_counts();
    let mut files = no_files();
    for item in Items::new(bytes) {
        files = files_after(bytes, files, item);
        counts = counts_after(bytes, files, counts, item);
    }
    counts
}

fn counts_after(bytes: &[u8], files: Files, counts: Counts, item: Item) -> Counts {
    match kind_of(item) {
        Some(Kind::Sets(_) | Kind::Names(_)) => counts,
        Some(Kind::Call(number)) => counts_call(bytes, files, numbered(counts), number, item.body),
        None => with_unknown(counts),
    }
}

// A listing, a target and an entry are asked of their calls for C too; a listing not where a file is longer than the listing program reads: then
// the program alone refuses. Each call has the row of its number.
fn counts_call(bytes: &[u8], files: Files, counts: Counts, number: u8, body: Part) -> Counts {
    let call = lent(bytes, body);
    let Ok(asked) = Call::try_from(number) else {
        return counted(counts, row(number), Outcome::Differs);
    };
    let after = counted(counts, row(number), answered(bytes, files, asked, call));
    let (beside, same) = match asked {
        Call::Listing if for_c::is_short(files) => {
            (Call::JscdList, for_c::list(bytes, files, call))
        }
        Call::LongListing => (Call::JscdList, for_c::long_list(bytes, files, call)),
        Call::JumpTarget => (Call::JscdTarget, for_c::target(bytes, files, call)),
        Call::JumpEntry => (Call::JscdEntry, for_c::entry(bytes, files, call)),
        _ => return after,
    };
    counted(after, Some(beside), Outcome::from(same))
}

// Our own function, on the same files.
fn answered(bytes: &[u8], files: Files, asked: Call, call: &[u8]) -> Outcome {
    let same = match asked {
        Call::Listing => listings::listing(bytes, files, call),
        Call::SmiSlot => fields::smi_slot(bytes, files, call),
        Call::NumField => fields::num_field(bytes, files, call),
        Call::JumpTarget => entries::jump_target(bytes, files, call),
        Call::JumpTable => entries::jump_table(bytes, files, call),
        Call::LongListing => listings::long_listing(bytes, files, call),
        Call::Header => fields::header(bytes, files, call),
        Call::JumpEntry => entries::jump_entry(bytes, files, call),
        Call::RawAt
        | Call::ArrayLen
        | Call::ArrayElem
        | Call::BcaRtOff
        | Call::DecodeSmiBytes
        | Call::MaxRegister
        | Call::RegName
        | Call::RenderOperand
        | Call::Decode
        | Call::SlotAt
        | Call::TableCheck
        | Call::StoreCheck
        | Call::InstructionText
        | Call::LastBytes => return Outcome::NotHere,
        _ => false,
    };
    Outcome::from(same)
}
