// The target of a jump, and the table of a switch and its entries, at a place of lent code, with 01's checks of all that is lent.
#![tactic(auto)]

ghost use Rattle.std.specs.Prelude.{◌≡◌, Ok};
ghost use Rattle.flow.specs.Opcodes.{opcodes_of};
ghost use Rattle.targets.specs.Targets.{found};
ghost use Rattle.targets.specs.mirror.Search.{pool_searched};
ghost use Rattle.function.specs.Files.{lent_files};
ghost use Rattle.jumps.specs.Numbers.{target_numbers, table_numbers, entry_numbers};
ghost use Rattle.jumps.specs.Jumps.{target_of, target_call, table_of, table_call, entry_told, entry_in, entry_of, entry_call};

use decoder::Instr;
use refusal::{Fault, Refusal};
use targets::{BadSwitch, Case, Entries, PoolSlots};

// An entry of a switch. Skipped is an element that is no small integer; Beyond is no entry of the table.
#[derive(Clone, Copy)]
pub enum Entry {
    Shown(Case),
    Skipped,
    Beyond,
}

// The calls answer None at the code's end, Some(None) where the instruction has no target or table.

// The target of the jump at a place: rows 1 to 8, 10, 20 and 11 to 15.
pub fn jump_target(
    code: &[u8],
    at: usize,
    opcodes: &[u8],
    types: &[u8],
    layout: &[u8],
    objects: &[u8],
    slots: &[u8],
    payload: &[u8],
    object: Option<usize>,
) -> Result<Option<Option<u64>>, Refusal>
    ensures { target_numbers at result ≡ target_numbers at (target_call
        (lent_files opcodes.now types.now layout.now objects.now slots.now payload.now)
        object code.now at) }
{
    function::check_lent(
        code, opcodes, types, layout, objects, slots, payload, object,
    )?;
    let shape = tables::layout_of(layout);
    let pool = function::lent_pool(objects, slots, shape, object);
    let decoded = bytecode::decode_unchecked(opcodes, types, layout, code, at)?;
    Ok(target_of(opcodes, slots, payload, shape.tagged_size, pool, decoded))
}

// The table of the switch at a place: rows 1 to 8, 10, 20 and 11 to 16.
pub fn jump_table(
    code: &[u8],
    at: usize,
    opcodes: &[u8],
    types: &[u8],
    layout: &[u8],
    objects: &[u8],
    slots: &[u8],
    payload: &[u8],
    object: Option<usize>,
) -> Result<Option<Option<Entries>>, Refusal>
    ensures { table_numbers at result ≡ table_numbers at (table_call
        (lent_files opcodes.now types.now layout.now objects.now slots.now payload.now)
        object code.now at) }
{
    function::check_lent(
        code, opcodes, types, layout, objects, slots, payload, object,
    )?;
    let shape = tables::layout_of(layout);
    let pool = function::lent_pool(objects, slots, shape, object);
    let decoded = bytecode::decode_unchecked(opcodes, types, layout, code, at)?;
    table_of(opcodes, pool, decoded, at)
}

// Entry k of the switch at a place, with the checks of jump_table.
pub fn jump_entry(
    code: &[u8],
    at: usize,
    opcodes: &[u8],
    types: &[u8],
    layout: &[u8],
    objects: &[u8],
    slots: &[u8],
    payload: &[u8],
    object: Option<usize>,
    k: usize,
) -> Result<Option<Option<Entry>>, Refusal>
    ensures { entry_numbers at result ≡ entry_numbers at (entry_call
        (lent_files opcodes.now types.now layout.now objects.now slots.now payload.now)
        object code.now at k) }
{
    function::check_lent(
        code, opcodes, types, layout, objects, slots, payload, object,
    )?;
    let shape = tables::layout_of(layout);
    let pool = function::lent_pool(objects, slots, shape, object);
    let decoded = bytecode::decode_unchecked(opcodes, types, layout, code, at)?;
    let table = table_of(opcodes, pool, decoded, at)?;
    let Some(instr) = decoded else {
        return Ok(None);
    };
    let from = targets::here(instr);
    Ok(entry_of(slots, payload, shape.tagged_size, pool, from, table, k))
}

// The target of what was decoded.
#[tactic(auto, unfolding(crate::specs::Jumps::target_of))]
fn target_of(
    opcodes: &[u8],
    slots: &[u8],
    payload: &[u8],
    ts: u8,
    pool: Option<PoolSlots>,
    decoded: Option<Instr>,
) -> Option<Option<u64>>
    ensures { Ok result ≡ target_of (opcodes_of opcodes.now) (pool_searched slots.now payload.now ts pool) (Ok decoded) }
{
    let jump = decoded?;
    let flow = flow::flow_of(opcodes, jump.opcode);
    Some(targets::jump_target_unchecked(slots, payload, ts, pool, flow, jump))
}

// The table of what was decoded at a place; number 16 at the instruction's start.
#[tactic(auto, unfolding(crate::specs::Jumps::table_of))]
fn table_of(
    opcodes: &[u8],
    pool: Option<PoolSlots>,
    decoded: Option<Instr>,
    at: usize,
) -> Result<Option<Option<Entries>>, Refusal>
    ensures { result ≡ table_of (opcodes_of opcodes.now) (found pool) (Ok decoded) at }
{
    let Some(switch) = decoded else {
        return Ok(None);
    };
    let flow = flow::flow_of(opcodes, switch.opcode);
    match targets::jump_table_unchecked(pool, flow, switch) {
        Ok(table) => Ok(Some(table)),
        Err(BadSwitch) => Err(Refusal {
            fault: Fault::BadSwitch,
            place: at,
        }),
    }
}

// Entry k of a table whose distances count from place from.
fn entry_of(
    slots: &[u8],
    payload: &[u8],
    ts: u8,
    pool: Option<PoolSlots>,
    from: u64,
    table: Option<Option<Entries>>,
    k: usize,
) -> Option<Option<Entry>>
    ensures { Ok result ≡ entry_of (pool_searched slots.now payload.now ts pool) from (Ok table) k }
{
    let Some(e) = table? else {
        return Some(None);
    };
    Some(Some(entry_in(slots, payload, ts, pool, from, e, k)))
}

fn entry_in(
    slots: &[u8],
    payload: &[u8],
    ts: u8,
    pool: Option<PoolSlots>,
    from: u64,
    e: Entries,
    k: usize,
) -> Entry
    ensures { result ≡ entry_in (pool_searched slots.now payload.now ts pool) from e k }
{
    if k < e.count as usize {
        entry_told(targets::jump_entry_unchecked(slots, payload, ts, pool, from, e, k as u16))
    } else {
        Entry::Beyond
    }
}

fn entry_told(entry: Option<Case>) -> Entry
    ensures { result ≡ entry_told entry }
{
    match entry {
        Some(c) => Entry::Shown(c),
        None => Entry::Skipped,
    }
}
