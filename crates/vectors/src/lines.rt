// A vector file read, and the lines that say what came out.
use crate::calls::NAMES;
use crate::counts::{Counts, Row, Total};
use std::io;
use std::rt::Files;

// A file into a buffer that is longer than any of them: how many bytes.
pub fn read(rt: &(impl Files + Eprint), name: &[u8], buffer: &mut [u8]) -> usize {
    let Some(size) = inputs::load_file(rt, name, buffer) else {
        return 0;
    };
    if size == buffer.len() {
        inputs::fail(rt, name, io::Error::other("too long"));
        return 0;
    }
    size
}

pub fn both(a: Total, b: Total) -> Total {
    Total {
        calls: a.calls.wrapping_add(b.calls),
        differences: a.differences.wrapping_add(b.differences),
    }
}

// A file's name and its rows.
pub fn print_counts(rt: &impl Print, name: &[u8], counts: Counts) -> Total {
    let _ = rt.write_all(name);
    let _ = println!(rt; "");
    print_rows(rt, counts);
    print_more(rt, "codes of walk_last_bytes", counts.codes);
    print_more(rt, "not asked here", counts.not_here);
    counts.total
}

fn print_more(rt: &impl Print, what: &str, n: u64) {
    if n != 0 {
        let _ = println!(rt; "{what}: {n}");
    }
}

fn print_rows(rt: &impl Print, counts: Counts) {
    for (row, name) in counts.rows.iter().zip(NAMES.iter()) {
        print_row(rt, name, *row);
    }
    print_row(rt, "unknown", counts.unknown);
}

// Name, calls, differences, and the number of the first call that differs; no line where there was no call.
fn print_row(rt: &impl Print, name: &str, row: Row) {
    let Row {
        calls,
        differences,
        first,
    } = row;
    if calls == 0 {
        return;
    }
    let _ = print!(rt; "{name} {calls} calls, {differences} differences");
    if differences != 0 && differences != calls {
        let _ = print!(rt; ", the first is call {first}");
    }
    let _ = println!(rt; "");
}

// What the files of recorded answers came to.
pub fn print_total(rt: &impl Print, total: Total) {
    let Total { calls, differences } = total;
    let _ = println!(rt; "total {calls} calls, {differences} differences");
}

// What the file of answers with one thing changed in each came to: a comparison that leaves something out shows here.
pub fn print_wrong(rt: &impl Print, total: Total) {
    let Total { calls, differences } = total;
    let _ = println!(rt; "wrong on purpose: {calls} calls, {differences} differ");
}
