// The calls for C that decode and write one instruction, and that convert opcode files.
use tables::Form;
use vectors::calls::File;
use vectors::items::{Files, behind, contents, first};
use vectors::said::{self, Status};

// 13: its status, its place and its 28 numbers.
pub fn decode(bytes: &[u8], files: Files, call: &[u8]) -> bool {
    let mut place: usize = 7;
    let mut numbers = [7u64; 28];
    let start = words::u64_at(call, 0) as usize;
    let status = capi::jscd_decode(
        contents(bytes, files, File::Opcodes),
        contents(bytes, files, File::Types),
        contents(bytes, files, File::Layout),
        contents(bytes, files, File::Code),
        start,
        &mut place,
        &mut numbers,
    );
    is_told(behind(call, 8), start, status, place, numbers)
}

// 0 is an instruction, 255 the end, any other status a refusal's number; without an instruction the numbers are as they were.
fn is_told(said: &[u8], start: usize, status: u8, place: usize, numbers: [u64; 28]) -> bool {
    match Status::try_from(status) {
        Ok(Status::Done) => is_instr(said, place, numbers),
        Ok(Status::CodeEnd) => said::is_end(said) && place == start && are_kept(numbers),
        Err(number) => { said::is_refused_by(said, number, place) && are_kept(numbers) }
        Ok(Status::Leaves) => false,
    }
}

fn are_kept(numbers: [u64; 28]) -> bool {
    numbers.iter().all(|&n| n == 7)
}

// The place is where the instruction ends.
fn is_instr(said: &[u8], place: usize, numbers: [u64; 28]) -> bool {
    let count = words::u64_at(said, 25);
    count <= 8
        && said::has_form(said, 1, 33 + 24 * count as usize)
        && words::u64_at(said, 17) == place as u64
        && are_numbers(said, count, numbers)
}

fn are_numbers(said: &[u8], count: u64, numbers: [u64; 28]) -> bool {
    (0..28u8).all(|k| numbers[k as usize] == number(said, count, k))
}

// Number k by what is recorded: opcode, scale, end, how many operands, then three numbers for each of them. For C an operand's kind is
// one more, and 0 is no operand.
fn number(said: &[u8], count: u64, k: u8) -> u64 {
    let recorded = words::u64_at(said, 1 + 8 * k as usize);
    if k < 4 {
        return recorded;
    }
    let j = k - 4;
    if count <= (j / 3) as u64 {
        0
    } else if j % 3 == 0 {
        recorded.wrapping_add(1)
    } else {
        recorded
    }
}

// 26: the bytes of an instruction, into a buffer of the recorded length.
pub fn write(bytes: &[u8], files: Files, call: &[u8]) -> bool {
    let mut out = [7u8; 200];
    write_in(bytes, files, call, &mut out)
}

fn write_in(bytes: &[u8], files: Files, call: &[u8], out: &mut [u8]) -> bool {
    let n = words::u64_at(call, 224) as usize;
    is_written(bytes, files, call, first(out, n))
}

fn is_written(bytes: &[u8], files: Files, call: &[u8], out: &mut [u8]) -> bool {
    let mut place: usize = 7;
    let numbers = numbers_of(call);
    let status = capi::jscd_write(
        out,
        contents(bytes, files, File::Opcodes),
        contents(bytes, files, File::Types),
        contents(bytes, files, File::Layout),
        &numbers,
        &mut place,
    );
    is_put(behind(call, 232), status, place, out)
}

// 29 and 30: an opcode file in the other form, into a buffer of the recorded length.
pub fn converted(bytes: &[u8], files: Files, call: &[u8], to: Form) -> bool {
    let mut out = [7u8; 18496];
    converted_in(bytes, files, call, to, &mut out)
}

fn converted_in(bytes: &[u8], files: Files, call: &[u8], to: Form, out: &mut [u8]) -> bool {
    let n = words::u64_at(call, 0) as usize;
    is_converted(bytes, files, call, to, first(out, n))
}

fn is_converted(bytes: &[u8], files: Files, call: &[u8], to: Form, out: &mut [u8]) -> bool {
    let mut place: usize = 7;
    let status = status_of(bytes, files, to, out, &mut place);
    is_put(behind(call, 8), status, place, out)
}

fn status_of(bytes: &[u8], files: Files, to: Form, out: &mut [u8], place: &mut usize) -> u8 {
    let opcodes = contents(bytes, files, File::Opcodes);
    let types = contents(bytes, files, File::Types);
    match to {
        Form::New => capi::jscd_to_new(out, opcodes, types, place),
        Form::Old => capi::jscd_to_old(out, opcodes, types, place),
    }
}

// Behind what was put, and after a refusal, the buffer is as it was.
fn is_put(said: &[u8], status: u8, place: usize, out: &[u8]) -> bool {
    if status == 0 {
        return said::is_text(said, out, place) && said::are_kept(out, place);
    }
    said::is_refused_by(said, status, place) && said::are_kept(out, 0)
}

// The 28 numbers that a call begins with.
fn numbers_of(call: &[u8]) -> [u64; 28] {
    let mut numbers = [0u64; 28];
    for k in 0..28 {
        numbers[k] = words::u64_at(call, 8 * k);
    }
    numbers
}
