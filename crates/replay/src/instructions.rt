// Calls on lent code: one instruction decoded, and its registers, operands and whole text.
use decoder::Instr;
use operand::Operand;
use refusal::Refusal;
use tables::Frame;
use vectors::calls::File;
use vectors::items::{Files, Part, behind, contents, lent};
use vectors::runs::Runs;
use vectors::said;

// 13: the instruction at a place.
pub fn decode(bytes: &[u8], files: Files, call: &[u8]) -> bool {
    let start = words::u64_at(call, 0) as usize;
    let code = contents(bytes, files, File::Code);
    is_decoded(behind(call, 8), start, instr_of(bytes, files, code, start))
}

// 11: the name of a register.
pub fn reg_name(bytes: &[u8], files: Files, call: &[u8]) -> bool {
    let mut out = [0u8; 32];
    reg_name_in(bytes, files, call, &mut out)
}

fn reg_name_in(bytes: &[u8], files: Files, call: &[u8], out: &mut [u8]) -> bool {
    let index = number32(call, 0);
    let params = number32(call, 8);
    let n = bytecode::reg_name(out, 0, frame_of(bytes, files), params, index);
    said::is_text(behind(call, 16), out, n)
}

// What decoding answers: an instruction, none at the code's end, or a refusal.
type Decoded = Result<Option<Instr>, Refusal>;

// 12: an operand as text.
pub fn render_operand(bytes: &[u8], files: Files, call: &[u8]) -> bool {
    let said = behind(call, 24);
    match checked_instr(bytes, files, call) {
        Ok(Some(instr)) => is_operand_of(bytes, files, call, instr),
        Ok(None) => said::is_end(said),
        Err(refusal) => said::is_refused(said, refusal),
    }
}

fn is_operand_of(bytes: &[u8], files: Files, call: &[u8], instr: Instr) -> bool {
    let k = words::u64_at(call, 8) as usize;
    if instr.count <= k {
        return said::is_nothing(behind(call, 24));
    }
    match operand_of(instr, k) {
        Some(op) => is_written(bytes, files, call, op),
        None => false,
    }
}

fn is_written(bytes: &[u8], files: Files, call: &[u8], op: Operand) -> bool {
    let mut out = [0u8; 128];
    is_written_in(bytes, files, call, op, &mut out)
}

fn is_written_in(bytes: &[u8], files: Files, call: &[u8], op: Operand, out: &mut [u8]) -> bool {
    let n = put_operand(out, 0, bytes, files, number32(call, 16), op);
    said::is_text(behind(call, 24), out, n)
}

// 17: name and operands as text.
pub fn instruction_text(bytes: &[u8], files: Files, call: &[u8]) -> bool {
    let said = behind(call, 16);
    match checked_instr(bytes, files, call) {
        Ok(Some(instr)) => is_instr_text(bytes, files, call, instr),
        Ok(None) => said::is_end(said),
        Err(refusal) => said::is_refused(said, refusal),
    }
}

fn is_instr_text(bytes: &[u8], files: Files, call: &[u8], instr: Instr) -> bool {
    let mut out = [0u8; 1024];
    is_instr_text_in(bytes, files, call, instr, &mut out)
}

fn is_instr_text_in(bytes: &[u8], files: Files, call: &[u8], instr: Instr, out: &mut [u8]) -> bool {
    let opcodes = contents(bytes, files, File::Opcodes);
    let at = bytecode::instr_name(out, 0, opcodes, instr.opcode, instr.scale);
    let n = put_operands(out, at, bytes, files, number32(call, 8), instr);
    said::is_text(behind(call, 16), out, n)
}

// Each operand, a blank before the first and a comma and a blank before each other.
fn put_operands(
    out: &mut [u8],
    at: usize,
    bytes: &[u8],
    files: Files,
    params: i32,
    instr: Instr,
) -> usize {
    let mut p = at;
    for k in 0..instr.count {
        p = put_between(out, p, k);
        if let Some(op) = operand_of(instr, k) {
            p = put_operand(out, p, bytes, files, params, op);
        }
    }
    p
}

fn put_between(out: &mut [u8], at: usize, k: usize) -> usize {
    if k == 0 {
        text::put_bytes(out, at, b" ")
    } else {
        text::put_bytes(out, at, b", ")
    }
}

fn put_operand(
    out: &mut [u8],
    at: usize,
    bytes: &[u8],
    files: Files,
    params: i32,
    op: Operand,
) -> usize {
    let types = contents(bytes, files, File::Types);
    let runtime = contents(bytes, files, File::Runtime);
    let intrinsic = contents(bytes, files, File::Intrinsic);
    let frame = frame_of(bytes, files);
    bytecode::render_operand(out, at, types, runtime, intrinsic, frame, params, Some(op))
}

// 18: the instruction in the code with one byte more, for each byte, against runs of equal answers.
pub fn last_bytes(bytes: &[u8], files: Files, call: &[u8]) -> bool {
    let code = contents(bytes, files, File::Code);
    let start = words::u64_at(call, 0) as usize;
    code.len() <= 7
        && words::byte_at(call, 8) == 1
        && are_decoded(bytes, files, start, Runs::new(behind(call, 9)))
}

fn are_decoded(bytes: &[u8], files: Files, start: usize, mut runs: Runs) -> bool {
    for b in 0..=255u8 {
        let decoded = decode_with(bytes, files, start, b);
        let Some(said) = runs.next() else {
            return false;
        };
        if !is_decoded(said, start, decoded) {
            return false;
        }
    }
    runs.is_done()
}

// The instruction in the code with byte b behind it.
fn decode_with(bytes: &[u8], files: Files, start: usize, b: u8) -> Decoded {
    let mut code = [0u8; 8];
    decode_with_in(bytes, files, start, b, &mut code)
}

fn decode_with_in(bytes: &[u8], files: Files, start: usize, b: u8, code: &mut [u8]) -> Decoded {
    let at = text::put_bytes(code, 0, contents(bytes, files, File::Code));
    let len = text::put_byte(code, at, b);
    let whole = Part { at: 0, len };
    instr_of(bytes, files, lent(code, whole), start)
}

// What the calls share.

// The instruction at a place of some code.
fn instr_of(bytes: &[u8], files: Files, code: &[u8], start: usize) -> Decoded {
    let opcodes = contents(bytes, files, File::Opcodes);
    let types = contents(bytes, files, File::Types);
    let layout = contents(bytes, files, File::Layout);
    bytecode::decode(opcodes, types, layout, code, start)
}

// The instruction at the place that a call begins with, after the check of all five table files.
fn checked_instr(bytes: &[u8], files: Files, call: &[u8]) -> Decoded {
    checked(bytes, files)?;
    let start = words::u64_at(call, 0) as usize;
    instr_of(bytes, files, contents(bytes, files, File::Code), start)
}

// The check of all five table files.
fn checked(bytes: &[u8], files: Files) -> Result<(), Refusal> {
    let opcodes = contents(bytes, files, File::Opcodes);
    let types = contents(bytes, files, File::Types);
    let runtime = contents(bytes, files, File::Runtime);
    let intrinsic = contents(bytes, files, File::Intrinsic);
    let layout = contents(bytes, files, File::Layout);
    tables::check_table(opcodes, types, runtime, intrinsic, layout)
}

fn frame_of(bytes: &[u8], files: Files) -> Frame {
    let layout = tables::layout_of(contents(bytes, files, File::Layout));
    layout.frame
}

// A signed argument of 32 bits.
fn number32(call: &[u8], at: u8) -> i32 {
    words::u32_at(call, usize::from(at)).cast_signed()
}

// Operand k of an instruction.
fn operand_of(instr: Instr, k: usize) -> Option<Operand> {
    if k < 8 {
        instr.operands[k].operand
    } else {
        None
    }
}

// The recorded instruction, refusal or end.
fn is_decoded(said: &[u8], start: usize, decoded: Decoded) -> bool {
    match decoded {
        Ok(Some(instr)) => instr.offset == start && is_instr(said, instr),
        Ok(None) => said::is_end(said),
        Err(refusal) => said::is_refused(said, refusal),
    }
}

// Opcode, scale, end and number of operands, then three numbers for each operand.
fn is_instr(said: &[u8], instr: Instr) -> bool {
    if 8 < instr.count {
        return false;
    }
    let head = [
        u64::from(instr.opcode),
        u64::from(instr.scale),
        instr.end as u64,
        instr.count as u64,
    ];
    let n = instr.count as u8;
    said::has_form(said, 1, 33 + 24 * n as usize)
        && said::are_numbers(said, 1, &head)
        && (0..n).all(|k| is_operand(said, 33 + 24 * k as usize, operand_of(instr, k as usize)))
}

fn is_operand(said: &[u8], at: usize, op: Option<Operand>) -> bool {
    op.is_some_and(|op| said::are_numbers(said, at, &numbers_of(op)))
}

// Its kind, then two numbers.
fn numbers_of(op: Operand) -> [u64; 3] {
    match op {
        Operand::Reg(i) => [0, i64::from(i).cast_unsigned(), 0],
        Operand::RegList { first, count } => {
            [1, i64::from(first).cast_unsigned(), u64::from(count)]
        }
        Operand::Imm(v) => [2, v.cast_unsigned(), 0],
        Operand::Idx(v) => [3, u64::from(v), 0],
        Operand::Flag8(v) => [4, u64::from(v), 0],
        Operand::Flag16(v) => [5, u64::from(v), 0],
        Operand::RuntimeId(v) => [6, u64::from(v), 0],
        Operand::IntrinsicId(v) => [7, u64::from(v), 0],
        Operand::Raw { ty, value } => [8, u64::from(ty), value],
    }
}
