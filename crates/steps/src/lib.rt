// What the walk check keeps of an instruction, so that its search need not decode: where it goes, in two numbers (search/specs/mirror/Kept.antt).
#![tactic(auto)]

ghost use Rattle.std.specs.Prelude.{◌≡◌};
ghost use Rattle.targets.specs.Targets.{found, jump_target};
ghost use Rattle.targets.specs.mirror.Search.{pool_searched, PoolBlocked};
ghost use Rattle.search.specs.mirror.Kept.{word_of};
ghost use Rattle.steps.specs.Steps.{to_target};
ghost use Rattle.steps.specs.mirror.Keeping.{prefix_of, kept_end, kept_on, kept_to, kept_table, kept_of};

use decoder::Instr;
use flow::{Flow, Kind};
use targets::{BadSwitch, Entries, PoolSlots};

// The word of no target: a place where nothing starts.
const NOWHERE: u32 = 4294967295;

// The head and the word of an instruction.
#[derive(Clone, Copy)]
pub struct Kept {
    pub head: u32,
    pub word: u32,
}

// What is kept of an instruction of so many bytes, by a summary of the pool's slots. Number 16 may refuse its table.
pub fn kept_of(
    slots: &[u8],
    payload: &[u8],
    blocks: &[u32],
    ts: u8,
    pool: Option<PoolSlots>,
    flow: Flow,
    instr: Instr,
    size: u8,
) -> Result<Kept, BadSwitch>
    ensures { PoolBlocked slots.now ts pool blocks.now
        → result ≡ kept_of (pool_searched slots.now payload.now ts pool) (found pool) flow instr size }
{
    match flow.kind {
        Kind::On => Ok(kept_on(size)),
        Kind::Ends => Ok(kept_end(size)),
        Kind::Jumps | Kind::JumpsBack => Ok(kept_jump(
            slots,
            payload,
            blocks,
            ts,
            pool,
            flow,
            instr,
            size as u32 + 512,
        )),
        Kind::Branches => Ok(kept_jump(
            slots,
            payload,
            blocks,
            ts,
            pool,
            flow,
            instr,
            size as u32 + 768,
        )),
        Kind::Switch => kept_table(
            targets::jump_table_unchecked(pool, flow, instr),
            prefix_of(instr.scale),
            size,
        ),
    }
}

// Of one that ends the walk.
pub fn kept_end(size: u8) -> Kept
    ensures { result ≡ kept_end size }
{
    Kept {
        head: size as u32,
        word: 0,
    }
}

// Of one that goes on.
pub fn kept_on(size: u8) -> Kept
    ensures { result ≡ kept_on size }
{
    Kept {
        head: size as u32 + 256,
        word: 0,
    }
}

// Of a jump: its target under a head.
fn kept_jump(
    slots: &[u8],
    payload: &[u8],
    blocks: &[u32],
    ts: u8,
    pool: Option<PoolSlots>,
    flow: Flow,
    instr: Instr,
    head: u32,
) -> Kept
    ensures { PoolBlocked slots.now ts pool blocks.now
        → result ≡ kept_to head (jump_target (pool_searched slots.now payload.now ts pool) flow instr) }
{
    let target = targets::jump_target_in(slots, payload, blocks, ts, pool, flow, instr);
    Kept {
        head,
        word: word_of(target),
    }
}

// The word of a target: a place too high for one, and no target, are kept as a place where nothing starts.
fn word_of(target: Option<u64>) -> u32
    ensures { result ≡ word_of (to_target target) }
{
    match target {
        Some(t) => t.min(NOWHERE as u64) as u32,
        None => NOWHERE,
    }
}

// Of a switch: the number of its first element, and how many there are. Without a table it goes on.
fn kept_table(
    table: Result<Option<Entries>, BadSwitch>,
    prefix: u8,
    size: u8,
) -> Result<Kept, BadSwitch>
    ensures { result ≡ kept_table table prefix size }
{
    match table? {
        Some(e) => Ok(Kept {
            head: size as u32 + 1280 + 2048 * prefix as u32 + 4096 * e.count as u32,
            word: e.start,
        }),
        None => Ok(kept_on(size)),
    }
}

// How many bytes of prefix an instruction has.
fn prefix_of(scale: u8) -> u8
    ensures { result ≡ prefix_of scale }
{
    if 1 < scale { 1 } else { 0 }
}
