// Whole listings of object 0.
use vectors::calls::File;
use vectors::items::{Files, Part, contents, lent};
use vectors::said;

// 0: what the program prints, in a buffer as long as the program's.
pub fn listing(bytes: &[u8], files: Files, call: &[u8]) -> bool {
    let mut out = [0u8; 65536];
    listing_in(bytes, files, call, &mut out)
}

fn listing_in(bytes: &[u8], files: Files, call: &[u8], out: &mut [u8; 65536]) -> bool {
    let n = list(bytes, files, out);
    if words::byte_at(call, 0) == 2 {
        return is_refusal_line(call, out, n);
    }
    said::is_text(call, out, n)
}

// Status 2, and the line of its number and place is the first n bytes of out.
fn is_refusal_line(said: &[u8], out: &[u8], n: usize) -> bool {
    let mut line = [0u8; 64];
    is_refusal_line_in(said, out, n, &mut line)
}

fn is_refusal_line_in(said: &[u8], out: &[u8], n: usize, line: &mut [u8]) -> bool {
    if !said::has_form(said, 2, 17) {
        return false;
    }
    let p = text::put_bytes(line, 0, b"refused ");
    let p = text::put_decimal(line, p, words::u64_at(said, 1));
    let p = text::put_bytes(line, p, b" at ");
    let p = text::put_decimal(line, p, words::u64_at(said, 9));
    let len = text::put_byte(line, p, b'\n');
    let part = Part { at: 0, len };
    said::is_start(lent(line, part), out, n)
}

// What the program prints, and its length.
pub fn list(bytes: &[u8], files: Files, out: &mut [u8; 65536]) -> usize {
    program::list_text(
        out,
        contents(bytes, files, File::Opcodes),
        contents(bytes, files, File::Types),
        contents(bytes, files, File::Runtime),
        contents(bytes, files, File::Intrinsic),
        contents(bytes, files, File::Layout),
        contents(bytes, files, File::Objects),
        contents(bytes, files, File::Slots),
        contents(bytes, files, File::Payload),
    )
}

// 22: the listing, in a buffer of 262,144 bytes.
pub fn long_listing(bytes: &[u8], files: Files, call: &[u8]) -> bool {
    let mut out = [0u8; 262144];
    long_listing_in(bytes, files, call, &mut out)
}

fn long_listing_in(bytes: &[u8], files: Files, call: &[u8], out: &mut [u8]) -> bool {
    let listed = disasm::list(
        out,
        contents(bytes, files, File::Opcodes),
        contents(bytes, files, File::Types),
        contents(bytes, files, File::Runtime),
        contents(bytes, files, File::Intrinsic),
        contents(bytes, files, File::Layout),
        contents(bytes, files, File::Objects),
        contents(bytes, files, File::Slots),
        contents(bytes, files, File::Payload),
        0,
    );
    match listed {
        Ok(n) => said::is_text(call, out, n),
        Err(refusal) => said::is_refused(call, refusal),
    }
}
