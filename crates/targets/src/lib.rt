// Where an instruction goes: jump targets and switch entries. Nothing here checks its input; every function is total.
#![tactic(auto)]

ghost use Rattle.std.specs.Prelude.{◌≡◌, ◌+◌};
ghost use Rattle.targets.specs.Targets.{found, operand_of, here, index_of, number_of, target_by, jump_target, is_switch, base_of, table_by, jump_table, entry_at};
ghost use Rattle.targets.specs.mirror.Jumps.{is_jump};
ghost use Rattle.targets.specs.mirror.Search.{pool_searched, PoolBlocked};

use decoder::Instr;
use flow::{Flow, Kind};
use operand::Operand;
use serializer::Elem;

// The slots of the constant pool.
#[derive(Clone, Copy)]
pub struct PoolSlots {
    pub first: u32,
    pub count: u32,
}

// The entries of a switch: the pool elements from start on, with case numbers from base on.
#[derive(Clone, Copy)]
pub struct Entries {
    pub start: u32,
    pub count: u16,
    pub base: i32,
}

// 16: a switch of fewer than 0 entries, or of more than 4,096.
#[derive(Clone, Copy, Debug, PartialEq, Eq)]
pub struct BadSwitch;

// An entry of a switch that is shown: its case number, and where it goes.
#[derive(Clone, Copy)]
pub struct Case {
    pub case: i32,
    pub target: u64,
}

// The summary of the pool's slots that the `_in` calls take: made once where many elements are sought.
pub fn pool_blocks(slots: &[u8], ts: u8, pool: Option<PoolSlots>) -> [u32; 4096]
    ensures { PoolBlocked slots.now ts pool result }
{
    match pool {
        Some(p) => serializer::elem_blocks(slots, p.first, p.count, ts),
        None => [0u32; 4096],
    }
}

// Element n of the pool.
pub fn pool_elem(
    slots: &[u8],
    payload: &[u8],
    ts: u8,
    pool: Option<PoolSlots>,
    n: u64,
) -> Option<Elem>
    ensures { result ≡ pool_searched slots.now payload.now ts pool n }
{
    let none = [0u32; 1];
    pool_elem_in(slots, payload, &none, ts, pool, n)
}

#[tactic(auto, unfolding(crate::specs::mirror::Search::pool_searched))]
pub fn pool_elem_in(
    slots: &[u8],
    payload: &[u8],
    blocks: &[u32],
    ts: u8,
    pool: Option<PoolSlots>,
    n: u64,
) -> Option<Elem>
    ensures { PoolBlocked slots.now ts pool blocks.now
        → result ≡ pool_searched slots.now payload.now ts pool n }
{
    let p = pool?;
    serializer::array_elem_in(slots, payload, blocks, p.first, p.count, ts, n)
}

// The target of a jump.
pub fn jump_target_unchecked(
    slots: &[u8],
    payload: &[u8],
    ts: u8,
    pool: Option<PoolSlots>,
    flow: Flow,
    instr: Instr,
) -> Option<u64>
    ensures { result ≡ jump_target (pool_searched slots.now payload.now ts pool) flow instr }
{
    let none = [0u32; 1];
    jump_target_in(slots, payload, &none, ts, pool, flow, instr)
}

// Each step is taken apart or answers no target.
#[tactic(auto, unfolding(crate::specs::Targets::jump_target, crate::specs::Targets::distance_by, crate::specs::Targets::index_of, crate::specs::mirror::Search::pool_searched))]
pub fn jump_target_in(
    slots: &[u8],
    payload: &[u8],
    blocks: &[u32],
    ts: u8,
    pool: Option<PoolSlots>,
    flow: Flow,
    instr: Instr,
) -> Option<u64>
    ensures { PoolBlocked slots.now ts pool blocks.now
        → result ≡ jump_target (pool_searched slots.now payload.now ts pool) flow instr }
{
    let kind = flow.kind;
    if !is_jump(kind) {
        return None;
    }
    let op = operand_of(instr, flow.first);
    if !flow.pool {
        let Some(d) = number_of(op) else {
            return None;
        };
        return target_by(kind, here(instr), d);
    }
    let Some(Operand::Idx(n)) = op else {
        return None;
    };
    let Some(p) = pool else {
        return None;
    };
    let Some(Elem::Smi(d)) = serializer::array_elem_in(
        slots, payload, blocks, p.first, p.count, ts, n as u64,
    ) else {
        return None;
    };
    target_by(kind, here(instr), d)
}

// The table of a switch, with a prefix or without.
#[tactic(auto, unfolding(crate::specs::Targets::jump_table))]
pub fn jump_table_unchecked(
    pool: Option<PoolSlots>,
    flow: Flow,
    instr: Instr,
) -> Result<Option<Entries>, BadSwitch>
    ensures { result ≡ jump_table (found pool) flow instr }
{
    let kind = flow.kind;
    if !is_switch(kind) {
        return Ok(None);
    }
    let first = flow.first;
    let start = index_of(operand_of(instr, first));
    let size = number_of(operand_after(instr, first, 1));
    let based = flow.base;
    let base = base_of(based, operand_after(instr, first, 2));
    table_by(pool, start, size, base)
}

// Entry k of a switch whose distances count from place at.
pub fn jump_entry_unchecked(
    slots: &[u8],
    payload: &[u8],
    ts: u8,
    pool: Option<PoolSlots>,
    at: u64,
    e: Entries,
    k: u16,
) -> Option<Case>
    ensures { result ≡ entry_at (pool_searched slots.now payload.now ts pool) at e k }
{
    let none = [0u32; 1];
    jump_entry_in(slots, payload, &none, ts, pool, at, e, k)
}

#[tactic(auto, using(words::proofs::Signs::add_wraps), unfolding(crate::specs::Targets::entry_at))]
pub fn jump_entry_in(
    slots: &[u8],
    payload: &[u8],
    blocks: &[u32],
    ts: u8,
    pool: Option<PoolSlots>,
    at: u64,
    e: Entries,
    k: u16,
) -> Option<Case>
    ensures { PoolBlocked slots.now ts pool blocks.now
        → result ≡ entry_at (pool_searched slots.now payload.now ts pool) at e k }
{
    let n = e.start as u64 + k as u64;
    let Some(Elem::Smi(v)) = pool_elem_in(slots, payload, blocks, ts, pool, n) else {
        return None;
    };
    Some(Case {
        case: e.base.wrapping_add(i32::from(k)),
        target: words::target_after(at, v),
    })
}

// Where an instruction's distances count from: its opcode byte.
pub fn here(instr: Instr) -> u64
    ensures { result ≡ here instr }
{
    let prefix = if 1 < instr.scale { 1 } else { 0 };
    (instr.offset as u64).wrapping_add(prefix)
}

// Operand k of an instruction.
#[tactic(auto, unfolding(crate::specs::Targets::operand_of))]
pub fn operand_of(instr: Instr, k: u8) -> Option<Operand>
    ensures { result ≡ operand_of instr k }
{
    let at = k as usize;
    if 8 <= at || instr.count <= at {
        return None;
    }
    instr.operands[at].operand
}

// The operand n behind operand k.
#[tactic(auto, unfolding(crate::specs::Targets::operand_of))]
fn operand_after(instr: Instr, k: u8, n: u8) -> Option<Operand>
    ensures { result ≡ operand_of instr (k + n) }
{
    operand_of(instr, k.checked_add(n)?)
}

#[tactic(auto, unfolding(crate::specs::Targets::index_of))]
fn index_of(op: Option<Operand>) -> Option<u32>
    ensures { result ≡ index_of op }
{
    match op? {
        Operand::Idx(v) => Some(v),
        _ => None,
    }
}

#[tactic(auto, unfolding(crate::specs::Targets::number_of))]
fn number_of(op: Option<Operand>) -> Option<i64>
    ensures { result ≡ number_of op }
{
    match op? {
        Operand::Idx(v) => Some(v as i64),
        Operand::Imm(v) => Some(v),
        _ => None,
    }
}

// Whether a kind of instruction has a target.
fn is_jump(kind: Kind) -> bool
    ensures { result ≡ is_jump kind }
{
    matches!(kind, Kind::Jumps | Kind::Branches | Kind::JumpsBack)
}

// The target at distance d from place at.
fn target_by(kind: Kind, at: u64, d: i64) -> Option<u64>
    ensures { result ≡ target_by kind at (Some d) }
{
    match kind {
        Kind::On | Kind::Ends | Kind::Switch => None,
        Kind::Jumps | Kind::Branches => Some(words::target_after(at, d)),
        Kind::JumpsBack => Some(words::target_before(at, d)),
    }
}

fn is_switch(kind: Kind) -> bool
    ensures { result ≡ is_switch kind }
{
    matches!(kind, Kind::Switch)
}

// The case base of a switch.
fn base_of(based: bool, op: Option<Operand>) -> Option<i64>
    ensures { result ≡ base_of based op }
{
    if based { number_of(op) } else { Some(0) }
}

// The table, or number 16.
#[tactic(auto, unfolding(crate::specs::Targets::table_by, crate::specs::Targets::sized_by))]
fn table_by(
    pool: Option<PoolSlots>,
    start: Option<u32>,
    size: Option<i64>,
    base: Option<i64>,
) -> Result<Option<Entries>, BadSwitch>
    ensures { result ≡ table_by (found pool) start size base }
{
    let (Some(_), Some(start), Some(n), Some(base)) = (pool, start, size, base) else {
        return Ok(None);
    };
    if n < 0 || 4096 < n {
        return Err(BadSwitch);
    }
    Ok(Some(Entries {
        start,
        count: n as u16,
        base: words::wrap_i32(base),
    }))
}
