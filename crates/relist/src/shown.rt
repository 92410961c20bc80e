// Prints the listings of a vector file: what the listing program prints for the same files.
use crate::listings;
use vectors::items::{Files, Items, Kind, Part, files_after, lent, no_files};

// The number of the listing among the functions.
const LISTING: u8 = 0;

pub fn show_file(rt: &impl Print, bytes: &[u8]) {
    let mut files = no_files();
    for item in Items::new(bytes) {
        files = files_after(bytes, files, item);
        if matches!(item.kind, Some(Kind::Call(LISTING))) {
            show_listing(rt, bytes, files);
        }
    }
}

fn show_listing(rt: &impl Print, bytes: &[u8], files: Files) {
    let mut out = [0u8; 65536];
    let n = listings::list(bytes, files, &mut out);
    print_text(rt, &out, n);
}

// The first n bytes, or, where they are many, how many.
fn print_text(rt: &impl Print, text: &[u8], n: usize) {
    if 1000 < n {
        let _ = println!(rt; "{n} bytes");
        return;
    }
    let start = Part { at: 0, len: n };
    let _ = rt.write_all(lent(text, start));
}
