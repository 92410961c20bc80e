// One instruction at a place of the code.
#![tactic(auto)]

ghost use Rattle.std.specs.Prelude.{◌≡◌, ◌<◌, ◌≤◌, ℤ, length, Some, Ok};
ghost use Rattle.flow.specs.Opcodes.{opcodes_of};
ghost use Rattle.decoder.specs.Decode.{operand_types, decode_head, decode_at};
ghost use Rattle.decoder.specs.mirror.Extent.{size_of, size_from, extent_of};

use operand::{Operand, Step};
use prefix::Head;
use refusal::Refusal;
use tables::Prefixes;

// One of an instruction's eight places: an operand, or none where it is not used.
#[derive(Clone, Copy)]
pub struct OperandRecord {
    pub operand: Option<Operand>,
}

const UNUSED: OperandRecord = OperandRecord { operand: None };

// An instruction: its operands are the first count of the eight places. No heap, so room for the most that there are; C is told the count.
#[derive(Clone, Copy)]
pub struct Instr {
    pub offset: usize,
    pub opcode: u8,
    pub scale: u8,
    pub end: usize,
    pub count: usize,
    pub operands: [OperandRecord; 8],
}

// An instruction without its operands: what a pass needs that only goes from one to the next.
#[derive(Clone, Copy)]
pub struct Extent {
    pub opcode: u8,
    pub scale: u8,
    pub end: usize,
}

// The instruction at a place, none at the code's end. It checks nothing: a byte past the end of a table is 0.
#[tactic(auto, unfolding(crate::specs::Decode::decode_at))]
pub fn decode_at(
    code: &[u8],
    opcodes: &[u8],
    types: &[u8],
    start: usize,
    reg_file_start: i32,
    prefixes: Prefixes,
) -> Result<Option<Instr>, Refusal>
    ensures { result ≡ decode_at code.now (opcodes_of opcodes.now) types.now start reg_file_start prefixes }
{
    match prefix::head_at(code, tables::opcode_count(opcodes), start, prefixes)? {
        Some(head) => decode_op(code, opcodes, types, start, head, reg_file_start),
        None => Ok(None),
    }
}

// The extent of the instruction at a place: decoding by sizes alone. Operands are read only where the code ends too early.
#[tactic(auto, unfolding(crate::specs::Decode::decode_at))]
pub fn extent_at(
    code: &[u8],
    opcodes: &[u8],
    types: &[u8],
    start: usize,
    prefixes: Prefixes,
) -> Result<Option<Extent>, Refusal>
    ensures { (rfs : ℤ) → result ≡ extent_of (decode_at code.now (opcodes_of opcodes.now) types.now
        start rfs prefixes) }
{
    let ops = tables::opcode_count(opcodes);
    match prefix::head_at(code, ops, start, prefixes)? {
        Some(head) => extent_op(code, opcodes, types, start, head),
        None => Ok(None),
    }
}

// The instruction with this opcode at a place.
fn decode_op(
    code: &[u8],
    opcodes: &[u8],
    types: &[u8],
    start: usize,
    head: Head,
    reg_file_start: i32,
) -> Result<Option<Instr>, Refusal>
    ensures { result ≡ decode_head (Ok (Some head)) code.now (opcodes_of opcodes.now) types.now start reg_file_start }
{
    let n = tables::operand_count(opcodes, head.opcode).min(8);
    let mut slots = [UNUSED; 8];
    let mut p = head.at;
    let mut count: usize = 0;
    let mut before: u8 = 0;
    for k in 0..n {
        let t = tables::type_code(opcodes, head.opcode, k);
        let read = operand::operand_at(code, types, t, before, head.scale, p, reg_file_start)?;
        if let Some(Step { operand, next }) = read {
            slots[count] = OperandRecord {
                operand: Some(operand),
            };
            count += 1;
            p = next;
        }
        before = t;
    }
    Ok(Some(Instr {
        offset: start,
        opcode: head.opcode,
        scale: head.scale,
        end: p,
        count,
        operands: slots,
    }))
}

// The extent of the instruction with this opcode.
#[tactic(auto, using(crate::proofs::Extents::extent_done))]
fn extent_op(
    code: &[u8],
    opcodes: &[u8],
    types: &[u8],
    start: usize,
    head: Head,
) -> Result<Option<Extent>, Refusal>
    ensures { (rfs : ℤ) → result ≡ extent_of (decode_head (Ok (Some head))
        code.now (opcodes_of opcodes.now) types.now start rfs) }
{
    let size = operands_size(opcodes, types, head.opcode, head.scale);
    if operand::within_len(code.len(), head.at, size) {
        return Ok(Some(Extent {
            opcode: head.opcode,
            scale: head.scale,
            end: head.at + size,
        }));
    }
    let decoded = decode_op(code, opcodes, types, start, head, 0)?;
    Ok(decoded.map(|i| Extent {
        opcode: i.opcode,
        scale: i.scale,
        end: i.end,
    }))
}

// How many bytes the operands of an opcode take at a scale.
#[tactic(auto, using(crate::proofs::Extents::size_end))]
fn operands_size(opcodes: &[u8], types: &[u8], opcode: u8, scale: u8) -> usize
    ensures { result ≡ size_from types.now scale 0 (operand_types (opcodes_of opcodes.now) opcode) }
{
    let n = tables::operand_count(opcodes, opcode).min(8);
    let mut size: usize = 0;
    let mut before: u8 = 0;
    for k in 0..n {
        let t = tables::type_code(opcodes, opcode, k);
        size += type_size(types, scale, before, t);
        before = t;
    }
    size
}

// How many bytes an operand of type code t takes, with the count that a list reads; before is the type code before it.
#[tactic(auto, using(crate::proofs::Extents::width_eight), unfolding(crate::specs::mirror::Extent::size_of))]
fn type_size(types: &[u8], scale: u8, before: u8, t: u8) -> usize
    ensures { (result ≡ size_of types.now scale before t) × (result ≤ 16) }
{
    if operand::counted(t, before) {
        return 0;
    }
    let w = tables::type_width(types, t, scale);
    if !operand::is_list(t) {
        return w;
    }
    w + tables::type_width(types, 8, scale)
}
