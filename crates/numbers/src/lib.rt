// An instruction as 28 numbers, for C, and the instruction that 28 numbers tell.
#![tactic(auto)]

ghost use Rattle.std.specs.Prelude.{◌≡◌, ◌^◌, ◌<◌, true, ◌&&◌, eqb, ltb};
ghost use Rattle.std.specs.Int.{w64};
ghost use mir.Val.{to_z};
ghost use Rattle.numbers.specs.Told.{told64};
ghost use Rattle.numbers.specs.Back.{is_i32, told_operand, told_at, told_from, told_scale, opcode_known, told_instr};
ghost use Rattle.numbers.specs.mirror.Instr.{operand_in, operand_number, instr_number, NumbersAre};

use decoder::{Instr, OperandRecord};
use operand::Operand;

// The 28 numbers of an instruction.
pub fn instr_numbers(instr: Instr) -> [u64; 28]
    ensures { NumbersAre instr result 28 }
{
    let mut numbers = [0u64; 28];
    for k in 0u8..28 {
        numbers[k as usize] = instr_number(instr, k);
    }
    numbers
}

// Number k of an instruction.
fn instr_number(instr: Instr, k: u8) -> u64
    requires { k < 28 }
    ensures { result ≡ instr_number instr k }
{
    match k {
        0 => instr.opcode as u64,
        1 => instr.scale as u64,
        2 => instr.end as u64,
        3 => instr.count as u64,
        _ => {
            let j = k - 4;
            operand_number(operand_in(instr, j / 3), j % 3)
        }
    }
}

// The operand in place j of the eight.
fn operand_in(instr: Instr, j: u8) -> Option<Operand>
    requires { j < 8 }
    ensures { result ≡ operand_in instr j }
{
    instr.operands[j as usize].operand
}

// Number j of a place: the kind of its operand, then two numbers; 0 where it has none.
fn operand_number(op: Option<Operand>, j: u8) -> u64
    requires { j < 3 }
    ensures { result ≡ operand_number op j }
{
    match j {
        0 => operand::kind_number(op) as u64,
        1 => operand::first_number(op).cast_unsigned(),
        _ => operand::second_number(op),
    }
}

// The 64 bits of a signed number.
pub fn bits_of(i: i32) -> u64
    ensures { result ≡ told64 i }
{
    i64::from(i).cast_unsigned()
}

// The way back.

// The instruction that 28 numbers tell, at place 0: an operand that three of them do not tell is none, a scale above 255 is 0.
#[tactic(auto, unfolding(crate::specs::Back::told_instr))]
pub fn instr_of(numbers: &[u64; 28]) -> Instr
    ensures { result ≡ told_instr numbers.now }
{
    let operands = operands_of(numbers);
    let opcode = (numbers[0] % 256) as u8;
    let scale = scale_of(numbers[1]);
    Instr {
        offset: 0,
        opcode,
        scale,
        end: numbers[2] as usize,
        count: numbers[3] as usize,
        operands,
    }
}

// Whether the first number may be an opcode; if not, the instruction's opcode is not it.
pub fn opcode_known(numbers: &[u64; 28]) -> bool
    ensures { result ≡ opcode_known numbers.now }
{
    numbers[0] < 256
}

// A scale above 255 as 0, which is no scale.
fn scale_of(n: u64) -> u8
    ensures { result ≡ told_scale n }
{
    u8::try_from(n).unwrap_or(0)
}

// The eight operands.
fn operands_of(numbers: &[u64; 28]) -> [OperandRecord; 8]
    ensures { result ≡ told_from numbers.now 0 8 }
{
    let mut slots = [OperandRecord { operand: None }; 8];
    for j in 0..8 {
        slots[j] = slot_of(numbers, j);
    }
    slots
}

// Operand j of the eight.
fn slot_of(numbers: &[u64; 28], j: usize) -> OperandRecord
    requires { j < 8 }
    ensures { result ≡ told_at numbers.now j }
{
    let at = 4 + 3 * j;
    OperandRecord {
        operand: operand_of(numbers[at], numbers[at + 1], numbers[at + 2]),
    }
}

// The operand that a kind and two numbers tell: each number is in the range of its field, and a second one that is not there is 0.
#[tactic(auto, unfolding(crate::specs::Back::told_operand))]
fn operand_of(kind: u64, a: u64, b: u64) -> Option<Operand>
    ensures { result ≡ told_operand kind a b }
{
    match kind {
        1 if is_reg(a, b) => Some(Operand::Reg(narrow(a))),
        2 if is_reg_list(a, b) => Some(Operand::RegList {
            first: narrow(a),
            count: b as u32,
        }),
        3 if b == 0 => Some(Operand::Imm(a.cast_signed())),
        4 if is_one(a, 4294967296, b) => Some(Operand::Idx(a as u32)),
        5 if is_one(a, 256, b) => Some(Operand::Flag8(a as u8)),
        6 if is_one(a, 65536, b) => Some(Operand::Flag16(a as u16)),
        7 if is_one(a, 4294967296, b) => Some(Operand::RuntimeId(a as u32)),
        8 if is_one(a, 4294967296, b) => Some(Operand::IntrinsicId(a as u32)),
        9 if a < 256 => Some(Operand::Raw {
            ty: a as u8,
            value: b,
        }),
        _ => None,
    }
}

// Whether two numbers are a register, and 0.
fn is_reg(a: u64, b: u64) -> bool
    ensures { result ≡ (is_i32 a && eqb b 0) }
{
    is_i32(a) && b == 0
}

// Whether they are a list's first register, and its count.
fn is_reg_list(a: u64, b: u64) -> bool
    ensures { result ≡ (is_i32 a && ltb b (2 ^ 32)) }
{
    is_i32(a) && b < 4294967296
}

// Whether they are one below a limit, and 0.
fn is_one(a: u64, limit: u64, b: u64) -> bool
    ensures { result ≡ (ltb a limit && eqb b 0) }
{
    a < limit && b == 0
}

// Whether 64 bits say a number that an i32 holds.
#[tactic(auto, unfolding(crate::specs::Back::is_i32))]
fn is_i32(a: u64) -> bool
    ensures { result ≡ is_i32 a }
{
    a < 2147483648 || 18446744071562067968 <= a
}

// That number.
fn narrow(a: u64) -> i32
    ensures { is_i32 a ≡ true → result ≡ to_z w64 a }
{
    ((a % 4294967296) as u32).cast_signed()
}
