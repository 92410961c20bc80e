// One instruction: decoded with 01's checks, and its operands, registers and name as text.
#![tactic(auto)]

ghost use Rattle.std.specs.Prelude.{◌≡◌, [], ◌++◌, cond, eqb};
ghost use Rattle.laws.specs.Ascii.{ascii};
ghost use Rattle.refusal.specs.Check.{first_refusal};
ghost use Rattle.text.specs.Put.{Put};
ghost use Rattle.text.specs.Texts.{decimal, signed_decimal};
ghost use Rattle.tables.specs.Check.{check_table};
ghost use Rattle.tables.specs.Texts.{type_name, runtime_name, intrinsic_name};
ghost use Rattle.layout.specs.Layout.{signed_value};
ghost use Rattle.flow.specs.Opcodes.{opcodes_of};
ghost use Rattle.decoder.specs.Listed.{decodes};
ghost use Rattle.bytecode.specs.Texts.{parameter_index, param_name, reg_name, list_name, operand_text, instr_name};
ghost use Rattle.bytecode.specs.Decode.{check_code, decode_one};
ghost use Rattle.bytecode.specs.Numbers.{decoded_numbers};

use decoder::Instr;
use operand::Operand;
use refusal::{Fault, Refusal};
use tables::Frame;

// The instruction at place start of lent code: rows 1 to 5 and 10, then 20 and 11 to 15; "end" at the code's length.
#[tactic(auto, unfolding(crate::specs::Decode::decode_one))]
pub fn decode(
    opcodes: &[u8],
    types: &[u8],
    layout: &[u8],
    code: &[u8],
    start: usize,
) -> Result<Option<Instr>, Refusal>
    ensures { (decoded_numbers start result
        ≡ decoded_numbers start (decode_one opcodes.now types.now layout.now code.now start))
        × (result ≡ decode_one opcodes.now types.now layout.now code.now start) }
{
    check_lent(opcodes, types, layout, code)?;
    decode_unchecked(opcodes, types, layout, code, start)
}

// A register's name.
#[tactic(auto, using(words::proofs::Signs::same_bits), unfolding(crate::specs::Texts::reg_name))]
pub fn reg_name(out: &mut [u8], at: usize, frame: Frame, params: i32, index: i32) -> usize
    ensures { Put out.old at (reg_name frame params index) out.new result }
{
    if index == frame.context {
        return text::put_bytes(out, at, b"<context>");
    }
    if index == frame.closure {
        return text::put_bytes(out, at, b"<closure>");
    }
    if index < 0 {
        let p = parameter_index(frame.param_base, frame.first_param, params, index);
        return param_name(out, at, p);
    }
    let p = text::put_byte(out, at, b'r');
    text::put_signed32(out, p, index)
}

// An operand as text; of a place without one nothing.
#[tactic(auto, unfolding(crate::specs::Texts::operand_text))]
pub fn render_operand(
    out: &mut [u8],
    at: usize,
    types: &[u8],
    runtime: &[u8],
    intrinsic: &[u8],
    frame: Frame,
    params: i32,
    op: Option<Operand>,
) -> usize
    ensures { Put out.old at (operand_text
        (record { types = types.now; runtime = runtime.now; intrinsic = intrinsic.now }) frame params op) out.new result }
{
    let Some(op) = op else {
        return text::saturating_add(at, 0);
    };
    match op {
        Operand::Reg(i) => reg_name(out, at, frame, params, i),
        Operand::RegList { first, count } => list_name(out, at, frame, params, first, count),
        Operand::Imm(v) => put_imm(out, at, v),
        Operand::Idx(v) => put_index(out, at, v),
        Operand::Flag8(v) => put_flag(out, at, v as u32),
        Operand::Flag16(v) => put_flag(out, at, v as u32),
        Operand::RuntimeId(v) => put_runtime(out, at, runtime, v),
        Operand::IntrinsicId(v) => put_intrinsic(out, at, intrinsic, v),
        Operand::Raw { ty, value } => put_raw(out, at, types, ty, value),
    }
}

// An instruction's name, with its prefix.
#[tactic(auto, unfolding(crate::specs::Texts::instr_name))]
pub fn instr_name(out: &mut [u8], at: usize, opcodes: &[u8], opcode: u8, scale: u8) -> usize
    ensures { Put out.old at (instr_name (opcodes_of opcodes.now) opcode scale) out.new result }
{
    let p = text::put_bytes(out, at, tables::op_name(opcodes, opcode));
    if scale == 1 {
        return p;
    }
    put_prefix(out, p, scale)
}

// The prefix behind a name. Few instructions have one: its words stand in a function of their own, and are laid out for those alone.
fn put_prefix(out: &mut [u8], at: usize, scale: u8) -> usize
    ensures { Put out.old at (cond (eqb scale 2) (ascii ".Wide") (ascii ".ExtraWide")) out.new result }
{
    if scale == 2 {
        text::put_bytes(out, at, b".Wide")
    } else {
        text::put_bytes(out, at, b".ExtraWide")
    }
}

// Rows 1 to 5 and 10.
fn check_lent(opcodes: &[u8], types: &[u8], layout: &[u8], code: &[u8]) -> Result<(), Refusal>
    ensures { result ≡ first_refusal (check_table opcodes.now types.now [] [] layout.now) (check_code code.now) }
{
    tables::check_table(opcodes, types, b"", b"", layout)?;
    check_code(code)
}

pub fn check_code(code: &[u8]) -> Result<(), Refusal>
    ensures { result ≡ check_code code.now }
{
    refusal::refuse_unless(code.len() <= 65536, Fault::LongCode)
}

#[tactic(auto, using(words::proofs::Signs::sub_wraps))]
fn parameter_index(base: Option<i32>, first: i32, params: i32, index: i32) -> i32
    ensures { result ≡ parameter_index base first params index }
{
    match base {
        Some(b) => words::param_number(index, b, params),
        None => first.wrapping_sub(index),
    }
}

#[tactic(auto, using(words::proofs::Signs::same_bits), unfolding(crate::specs::Texts::param_name))]
fn param_name(out: &mut [u8], at: usize, p: i32) -> usize
    ensures { Put out.old at (param_name p) out.new result }
{
    if p == 0 {
        return text::put_bytes(out, at, b"<this>");
    }
    let n = p.wrapping_sub(1);
    let q = text::put_byte(out, at, b'a');
    text::put_signed32(out, q, n)
}

// A list by its first and last register.
fn list_name(out: &mut [u8], at: usize, frame: Frame, params: i32, first: i32, count: u32) -> usize
    ensures { Put out.old at (list_name frame params first count) out.new result }
{
    if count == 0 {
        let p = reg_name(out, at, frame, params, 0);
        let p = text::put_byte(out, p, b'-');
        return reg_name(out, p, frame, params, 0);
    }
    let last = words::list_last(first, count);
    let p = reg_name(out, at, frame, params, first);
    let p = text::put_byte(out, p, b'-');
    reg_name(out, p, frame, params, last)
}

fn put_imm(out: &mut [u8], at: usize, v: i64) -> usize
    ensures { Put out.old at (ascii "[" ++ signed_decimal v ++ ascii "]") out.new result }
{
    let p = text::put_byte(out, at, b'[');
    let p = text::put_signed(out, p, v);
    text::put_byte(out, p, b']')
}

fn put_index(out: &mut [u8], at: usize, v: u32) -> usize
    ensures { Put out.old at (ascii "[" ++ decimal v ++ ascii "]") out.new result }
{
    let p = text::put_byte(out, at, b'[');
    let p = text::put_decimal(out, p, v as u64);
    text::put_byte(out, p, b']')
}

fn put_flag(out: &mut [u8], at: usize, v: u32) -> usize
    ensures { Put out.old at (ascii "#" ++ decimal v) out.new result }
{
    let p = text::put_byte(out, at, b'#');
    text::put_decimal(out, p, v as u64)
}

fn put_runtime(out: &mut [u8], at: usize, runtime: &[u8], v: u32) -> usize
    ensures { Put out.old at (ascii "[" ++ runtime_name runtime.now v ++ ascii "]") out.new result }
{
    let p = text::put_byte(out, at, b'[');
    let p = tables::put_runtime_name(out, p, runtime, v);
    text::put_byte(out, p, b']')
}

fn put_intrinsic(out: &mut [u8], at: usize, intrinsic: &[u8], v: u32) -> usize
    ensures { Put out.old at (ascii "[_" ++ intrinsic_name intrinsic.now v ++ ascii "]") out.new result }
{
    let p = text::put_bytes(out, at, b"[_");
    let p = tables::put_intrinsic_name(out, p, intrinsic, v);
    text::put_byte(out, p, b']')
}

fn put_raw(out: &mut [u8], at: usize, types: &[u8], ty: u8, value: u64) -> usize
    ensures { Put out.old at (type_name types.now ty ++ ascii ":" ++ decimal value) out.new result }
{
    let p = text::put_bytes(out, at, tables::type_name(types, ty));
    let p = text::put_byte(out, p, b':');
    text::put_decimal(out, p, value)
}

// The instruction at place start, by the prefix opcodes and the layout's reg_file_start.
#[tactic(auto, unfolding(layout::specs::Layout::layout_of))]
pub fn decode_unchecked(
    opcodes: &[u8],
    types: &[u8],
    layout: &[u8],
    code: &[u8],
    start: usize,
) -> Result<Option<Instr>, Refusal>
    ensures { result ≡ decodes code.now (opcodes_of opcodes.now) types.now
        (signed_value layout.now 13) start }
{
    let prefixes = tables::prefix_ops(opcodes);
    let frame = tables::layout_of(layout).frame;
    decoder::decode_at(code, opcodes, types, start, frame.reg_file_start, prefixes)
}
