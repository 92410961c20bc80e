// A function, as its listing, its jumps and its walks see it: the lent files and their checks, its pool, and the checks that are met as
// its code is decoded. What takes checked files checks nothing, and searches as the Rust does, which on checked files finds the same.
#![tactic(auto)]

ghost use Rattle.std.specs.Prelude.{◌≡◌};
ghost use Rattle.function.specs.Files.{files_of, lent_files, check_files, check_pool_object, check_lent};
ghost use Rattle.function.specs.Pool.{pool_by};
ghost use Rattle.function.specs.Code.{table_check};
ghost use Rattle.function.specs.mirror.Pool.{pool_found, lent_found};
ghost use Rattle.function.specs.mirror.Function.{function_of};

use refusal::{Fault, Refusal};
use store::{Object, SlotValue};
use tables::{Frame, Layout, Prefixes};
use targets::{BadSwitch, Entries, PoolSlots};

// What is found once of a function: the tagged size, its pool, the frame, the parameter count, the prefix opcodes. Lent code has no header:
// its parameter count is 0, and no walk or target reads it.
#[derive(Clone, Copy)]
pub struct Function {
    pub ts: u8,
    pub pool: Option<PoolSlots>,
    pub frame: Frame,
    pub params: i32,
    pub prefixes: Prefixes,
}

// Rows 1 to 8, of an object that is to be a BytecodeArray.
pub fn check_files(
    opcodes: &[u8],
    types: &[u8],
    runtime: &[u8],
    intrinsic: &[u8],
    layout: &[u8],
    objects: &[u8],
    slots: &[u8],
    payload: &[u8],
    object: usize,
) -> Result<(), Refusal>
    ensures { result ≡ check_files
        (files_of opcodes.now types.now runtime.now intrinsic.now layout.now
        objects.now slots.now payload.now) object }
{
    tables::check_table(opcodes, types, runtime, intrinsic, layout)?;
    store::check_store(objects, slots, payload)?;
    store::check_code_object(objects, object)
}

// Rows 1 to 8 and 10, of lent code.
pub fn check_lent(
    code: &[u8],
    opcodes: &[u8],
    types: &[u8],
    layout: &[u8],
    objects: &[u8],
    slots: &[u8],
    payload: &[u8],
    object: Option<usize>,
) -> Result<(), Refusal>
    ensures { result ≡ check_lent
        (lent_files opcodes.now types.now layout.now objects.now slots.now payload.now)
        object code.now }
{
    tables::check_table(opcodes, types, b"", b"", layout)?;
    check_pool_object(objects, slots, payload, object)?;
    bytecode::check_code(code)
}

// Rows 6 to 8, where an object is lent.
fn check_pool_object(
    objects: &[u8],
    slots: &[u8],
    payload: &[u8],
    object: Option<usize>,
) -> Result<(), Refusal>
    ensures { result ≡ check_pool_object objects.now slots.now payload.now object }
{
    match object {
        None => Ok(()),
        Some(n) => {
            store::check_store(objects, slots, payload)?;
            store::check_object(objects, n)
        }
    }
}

// What is found once of a function, of its table, layout, pool and parameter count.
pub fn function_of(opcodes: &[u8], shape: Layout, pool: Option<PoolSlots>, params: i32) -> Function
    ensures { result ≡ function_of opcodes.now shape pool params }
{
    Function {
        ts: shape.tagged_size,
        pool,
        frame: shape.frame,
        params,
        prefixes: tables::prefix_ops(opcodes),
    }
}

// The pool of an object.
pub fn pool_of(objects: &[u8], slots: &[u8], shape: Layout, object: Object) -> Option<PoolSlots>
    ensures { result ≡ pool_found objects.now slots.now shape object }
{
    let slot = shape.pool_slot as u64;
    pool_by(
        objects,
        serializer::slot_at_unchecked(slots, object.first, object.count, slot),
    )
}

// The pool that lent code uses.
pub fn lent_pool(
    objects: &[u8],
    slots: &[u8],
    shape: Layout,
    object: Option<usize>,
) -> Option<PoolSlots>
    ensures { result ≡ lent_found objects.now slots.now shape object }
{
    pool_of(objects, slots, shape, store::object_of(objects, object?))
}

// The pool that a slot refers to.
#[tactic(auto, unfolding(crate::specs::Pool::pool_by))]
fn pool_by(objects: &[u8], found: Option<SlotValue>) -> Option<PoolSlots>
    ensures { result ≡ pool_by objects.now found }
{
    let Some(SlotValue::Object(n)) = found else {
        return None;
    };
    let object = store::object_of(objects, n as usize);
    Some(PoolSlots {
        first: object.first,
        count: object.count,
    })
}

// Number 16 at the instruction's start.
pub fn table_check(table: Result<Option<Entries>, BadSwitch>, at: usize) -> Result<(), Refusal>
    ensures { result ≡ table_check table at }
{
    match table {
        Ok(_) => Ok(()),
        Err(BadSwitch) => Err(Refusal {
            fault: Fault::BadSwitch,
            place: at,
        }),
    }
}
