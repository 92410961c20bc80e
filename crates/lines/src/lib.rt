// One line of the listing, written into a lent part of the listing buffer.
#![tactic(auto)]

ghost use Rattle.std.specs.Prelude.{◌≡◌, [], cond, false, min};
ghost use Rattle.laws.specs.Ascii.{ascii};
ghost use Rattle.text.specs.Put.{Put};
ghost use Rattle.lines.specs.mirror.Room.{entries_of, target_room, line_room};
ghost use Rattle.flow.specs.Opcodes.{opcodes_of};
ghost use Rattle.targets.specs.Targets.{found};
ghost use Rattle.targets.specs.mirror.Search.{PoolBlocked};
ghost use Rattle.lines.specs.Line.{before, target_text, entry_text, shown_after, entries_from, table_text};
ghost use Rattle.lines.specs.mirror.View.{names_of, elems_of};
ghost use Rattle.lines.specs.mirror.Parts.{place_by, instr_by, goes_by};

use decoder::Instr;
use flow::{Flow, Kind};
use function::Function;
use targets::{BadSwitch, Case, Entries};

// The first part of a line, from the start of the buffer that is lent: offset, bytes, name and operands. `bytes` are those of the instruction.
// The instruction is lent, here and below: it is long, and would be copied with each call.
pub fn put_instr(
    out: &mut [u8],
    bytes: &[u8],
    opcodes: &[u8],
    types: &[u8],
    runtime: &[u8],
    intrinsic: &[u8],
    f: Function,
    instr: &Instr,
) -> usize
    ensures { Put out.old 0 (instr_by bytes.now (opcodes_of opcodes.now)
        (names_of types.now runtime.now intrinsic.now) f.frame f.params instr.now) out.new result }
{
    let frame = f.frame;
    let n = instr.count.min(8);
    let p = put_place(out, bytes, instr.offset);
    let mut p = bytecode::instr_name(out, p, opcodes, instr.opcode, instr.scale);
    for k in 0..n {
        p = put_before(out, p, k);
        let op = instr.operands[k].operand;
        p = bytecode::render_operand(out, p, types, runtime, intrinsic, frame, f.params, op);
    }
    p
}

// The second part of a line: where the instruction goes, and the line's end. Most instructions go on or end a path, which is told by nothing.
pub fn put_goes(
    out: &mut [u8],
    at: usize,
    slots: &[u8],
    payload: &[u8],
    blocks: &[u32],
    f: Function,
    flow: Flow,
    instr: &Instr,
) -> usize
    ensures { PoolBlocked slots.now f.ts f.pool blocks.now
        → Put out.old at
        (goes_by (elems_of slots.now payload.now f) (found f.pool) flow instr.now) out.new result }
{
    match flow.kind {
        Kind::On | Kind::Ends => text::put_byte(out, at, b'\n'),
        _ => put_targets(out, at, slots, payload, blocks, f, flow, instr),
    }
}

// The target, the entries and the line's end.
fn put_targets(
    out: &mut [u8],
    at: usize,
    slots: &[u8],
    payload: &[u8],
    blocks: &[u32],
    f: Function,
    flow: Flow,
    instr: &Instr,
) -> usize
    ensures { PoolBlocked slots.now f.ts f.pool blocks.now
        → Put out.old at
        (goes_by (elems_of slots.now payload.now f) (found f.pool) flow instr.now) out.new result }
{
    let pool = f.pool;
    let target = targets::jump_target_in(slots, payload, blocks, f.ts, pool, flow, *instr);
    let p = put_target(out, at, target);
    let table = targets::jump_table_unchecked(pool, flow, *instr);
    let here = targets::here(*instr);
    let p = put_table(out, p, slots, payload, blocks, f, here, table);
    text::put_byte(out, p, b'\n')
}

// A length that no line of an instruction of this flow, operand count, size and table is longer than.
pub fn line_room(
    flow: Flow,
    count: u8,
    size: u8,
    table: Result<Option<Entries>, BadSwitch>,
) -> usize
    ensures { result ≡ line_room flow (min count 8) size table }
{
    let kind = flow.kind;
    let n = (count as usize).min(8);
    let p = 110 + target_room(kind) as usize + 72 * n + 46 * entries_of(table) as usize;
    p + 3 * size as usize
}

// The room for a target.
fn target_room(kind: Kind) -> u8
    ensures { result ≡ target_room kind }
{
    match kind {
        Kind::On | Kind::Ends | Kind::Switch => 0,
        Kind::Jumps | Kind::Branches | Kind::JumpsBack => 30,
    }
}

// How many entries a table has.
fn entries_of(table: Result<Option<Entries>, BadSwitch>) -> u16
    ensures { result ≡ entries_of table }
{
    match table {
        Ok(Some(e)) => e.count,
        _ => 0,
    }
}

// The offset and the bytes of an instruction.
fn put_place(out: &mut [u8], bytes: &[u8], start: usize) -> usize
    ensures { Put out.old 0 (place_by bytes.now start) out.new result }
{
    let p = text::put_bytes(out, 0, b"           @ ");
    let p = text::put_decimal_padded(out, p, start as u64, 4);
    let p = text::put_bytes(out, p, b" : ");
    let p = text::put_hex_padded(out, p, bytes, 18);
    text::put_byte(out, p, b' ')
}

// What stands in front of operand k.
fn put_before(out: &mut [u8], at: usize, k: usize) -> usize
    ensures { Put out.old at (before k) out.new result }
{
    if k == 0 {
        text::put_byte(out, at, b' ')
    } else {
        text::put_bytes(out, at, b", ")
    }
}

fn put_target(out: &mut [u8], at: usize, target: Option<u64>) -> usize
    ensures { Put out.old at (target_text target) out.new result }
{
    match target {
        Some(t) => {
            let p = text::put_bytes(out, at, b" (jscd @ ");
            let p = text::put_decimal(out, p, t);
            text::put_byte(out, p, b')')
        }
        None => text::saturating_add(at, 0),
    }
}

fn put_table(
    out: &mut [u8],
    at: usize,
    slots: &[u8],
    payload: &[u8],
    blocks: &[u32],
    f: Function,
    here: u64,
    table: Result<Option<Entries>, BadSwitch>,
) -> usize
    ensures { PoolBlocked slots.now f.ts f.pool blocks.now
        → Put out.old at (table_text (elems_of slots.now payload.now f) here table) out.new result }
{
    match table {
        Ok(None) | Err(BadSwitch) => text::saturating_add(at, 0),
        Ok(Some(e)) => {
            let p = text::put_bytes(out, at, b" {");
            let p = put_entries(out, p, slots, payload, blocks, f, here, e);
            text::put_bytes(out, p, b" }")
        }
    }
}

fn put_entries(
    out: &mut [u8],
    at: usize,
    slots: &[u8],
    payload: &[u8],
    blocks: &[u32],
    f: Function,
    here: u64,
    e: Entries,
) -> usize
    ensures { PoolBlocked slots.now f.ts f.pool blocks.now
        → Put out.old at
        (entries_from (elems_of slots.now payload.now f) here e false 0 e.count) out.new result }
{
    let pool = f.pool;
    let n = e.count;
    let mut p = text::saturating_add(at, 0);
    let mut shown = false;
    for k in 0..n {
        let entry = targets::jump_entry_in(slots, payload, blocks, f.ts, pool, here, e, k);
        p = put_entry(out, p, shown, entry);
        shown = shown_after(shown, entry);
    }
    p
}

fn put_entry(out: &mut [u8], at: usize, shown: bool, entry: Option<Case>) -> usize
    ensures { Put out.old at (entry_text shown entry) out.new result }
{
    match entry {
        None => text::saturating_add(at, 0),
        Some(c) => {
            let p = put_comma(out, at, shown);
            let p = text::put_byte(out, p, b' ');
            let p = text::put_signed32(out, p, c.case);
            let p = text::put_bytes(out, p, b": @");
            text::put_decimal(out, p, c.target)
        }
    }
}

fn put_comma(out: &mut [u8], at: usize, shown: bool) -> usize
    ensures { Put out.old at (cond shown (ascii ",") []) out.new result }
{
    if shown {
        text::put_byte(out, at, b',')
    } else {
        text::saturating_add(at, 0)
    }
}

fn shown_after(shown: bool, entry: Option<Case>) -> bool
    ensures { result ≡ shown_after shown entry }
{
    shown || entry.is_some()
}
