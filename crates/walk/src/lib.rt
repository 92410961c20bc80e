// The walk check: one pass decodes the listed instructions, makes the checks and keeps where each goes; a search over what is kept finds the answer.
#![tactic(auto)]

ghost use Rattle.std.specs.Prelude.{◌≡◌, ◌≤◌, ◌||◌, eqb, ltb, length, [], Some, Ok};
ghost use Rattle.decoder.specs.declared.Instr.{Instr};
ghost use Rattle.decoder.specs.Decode.{decode_at};
ghost use Rattle.flow.specs.Opcodes.{opcodes_of};
ghost use Rattle.targets.specs.Targets.{found};
ghost use Rattle.targets.specs.mirror.Search.{pool_searched, PoolBlocked};
ghost use Rattle.search.specs.mirror.Kept.{finding_as};
ghost use Rattle.steps.specs.mirror.Keeping.{kept_of};
ghost use Rattle.function.specs.Files.{Files, files_of, lent_files};
ghost use Rattle.walk.specs.Walk.{answer, walk_source, WalkedAs, Promise, Given, given_of, object_source, object_with, walk_call, walk_with};
ghost use Rattle.walk.specs.Walk.{lent_source, lent_with, walk_lent, walk_lent_with};
ghost use Rattle.walk.specs.mirror.Search.{source_of, Prefixed, Clear, Started, WalkedBy, walk_searched, kept_check};

use flow::{Flow, Kind};
use function::Function;
use header::Header;
use refusal::{Fault, Refusal};
use search::Elements;
pub use search::Walked;
use steps::Kept;
use store::Object;
use targets::BadSwitch;

// The walks of an object, a BytecodeArray: rows 1 to 9, 11 to 16, 19 and 18. After a refusal the marks are as they were.
pub fn walk(
    marks: &mut [u8],
    opcodes: &[u8],
    types: &[u8],
    runtime: &[u8],
    intrinsic: &[u8],
    layout: &[u8],
    objects: &[u8],
    slots: &[u8],
    payload: &[u8],
    object: usize,
) -> Result<Walked, Refusal>
    ensures { let f : Files = files_of opcodes.now types.now runtime.now intrinsic.now
        layout.now objects.now slots.now payload.now in
        WalkedAs (walk_call f object marks.old) result marks.new × Promise (object_source f object) result marks.new }
{
    walk_with(
        marks, opcodes, types, runtime, intrinsic, layout, objects, slots, payload, object, b"",
    )
}

// The same with what is lent beside: handler records, and rows 24 and 25 of them behind 18.
pub fn walk_with(
    marks: &mut [u8],
    opcodes: &[u8],
    types: &[u8],
    runtime: &[u8],
    intrinsic: &[u8],
    layout: &[u8],
    objects: &[u8],
    slots: &[u8],
    payload: &[u8],
    object: usize,
    handlers: &[u8],
) -> Result<Walked, Refusal>
    ensures { let f : Files = files_of opcodes.now types.now runtime.now intrinsic.now
        layout.now objects.now slots.now payload.now in
        let g : Given = given_of handlers.now in
        WalkedAs (walk_with f g object marks.old) result marks.new × Promise (object_with f g object) result marks.new }
{
    function::check_files(
        opcodes, types, runtime, intrinsic, layout, objects, slots, payload, object,
    )?;
    let o = store::object_of(objects, object);
    walk_object(
        marks, opcodes, types, runtime, intrinsic, layout, objects, slots, payload, o, handlers,
    )
}

// The walks of lent code, with the pool of an object if one is lent: rows 1 to 8, 10, 11 to 16 and 18.
pub fn walk_code(
    marks: &mut [u8],
    code: &[u8],
    opcodes: &[u8],
    types: &[u8],
    layout: &[u8],
    objects: &[u8],
    slots: &[u8],
    payload: &[u8],
    object: Option<usize>,
) -> Result<Walked, Refusal>
    ensures { let f : Files = lent_files opcodes.now types.now layout.now
        objects.now slots.now payload.now in
        WalkedAs (walk_lent f object code.now marks.old) result marks.new
        × Promise (lent_source f object code.now) result marks.new }
{
    walk_code_with(
        marks, code, opcodes, types, layout, objects, slots, payload, object, b"",
    )
}

// The same with handler records: then rows 24 and 25.
pub fn walk_code_with(
    marks: &mut [u8],
    code: &[u8],
    opcodes: &[u8],
    types: &[u8],
    layout: &[u8],
    objects: &[u8],
    slots: &[u8],
    payload: &[u8],
    object: Option<usize>,
    handlers: &[u8],
) -> Result<Walked, Refusal>
    ensures { let f : Files = lent_files opcodes.now types.now layout.now
        objects.now slots.now payload.now in
        let g : Given = given_of handlers.now in
        WalkedAs (walk_lent_with f g object code.now marks.old) result marks.new
        × Promise (lent_with f g object code.now) result marks.new }
{
    function::check_lent(
        code, opcodes, types, layout, objects, slots, payload, object,
    )?;
    let shape = tables::layout_of(layout);
    let pool = function::lent_pool(objects, slots, shape, object);
    let f = function::function_of(opcodes, shape, pool, 0);
    walk_source(marks, code, opcodes, types, slots, payload, handlers, f)
}

// The walks of an object whose files are good.
fn walk_object(
    marks: &mut [u8],
    opcodes: &[u8],
    types: &[u8],
    runtime: &[u8],
    intrinsic: &[u8],
    layout: &[u8],
    objects: &[u8],
    slots: &[u8],
    payload: &[u8],
    object: Object,
    handlers: &[u8],
) -> Result<Walked, Refusal>
    ensures { let s : Files = files_of opcodes.now types.now runtime.now intrinsic.now
        layout.now objects.now slots.now payload.now in
        WalkedBy (walk_searched s (given_of handlers.now) object marks.old) result marks.new }
{
    let shape = tables::layout_of(layout);
    let h = header::header_at_unchecked(slots, payload, object, shape)?;
    refusal::refuse_unless(is_held(h), Fault::CodeNotHeld)?;
    let pool = function::pool_of(objects, slots, shape, object);
    let f = function::function_of(opcodes, shape, pool, h.parameter_count);
    let held = serializer::lent(payload, h.code_at, h.code_len);
    walk_source(marks, held, opcodes, types, slots, payload, handlers, f)
}

// Whether a run holds the code that a header tells of; none is needed where that is empty.
fn is_held(h: Header) -> bool
    ensures { result ≡ (eqb h.length 0 || ltb 0 h.code_len) }
{
    h.length == 0 || 0 < h.code_len
}

// The walks of a code of at most 65,536 bytes, once its files are good. Room by the code's length: most code is short, and the room is cleared in
// each call.
fn walk_source(
    marks: &mut [u8],
    code: &[u8],
    opcodes: &[u8],
    types: &[u8],
    slots: &[u8],
    payload: &[u8],
    handlers: &[u8],
    f: Function,
) -> Result<Walked, Refusal>
    requires { (length code.now ≤ 65536) × Prefixed opcodes.now f }
    ensures { WalkedBy (walk_source
        (source_of code.now opcodes.now types.now slots.now payload.now
        handlers.now f) marks.old) result marks.new }
{
    if code.len() <= 1024 {
        return walk_within::<1024>(marks, code, opcodes, types, slots, payload, handlers, f);
    }
    if code.len() <= 8192 {
        return walk_within::<8192>(marks, code, opcodes, types, slots, payload, handlers, f);
    }
    walk_within::<65536>(marks, code, opcodes, types, slots, payload, handlers, f)
}

// The same with room for N bytes: a head and two words for each, and two bytes an offset queued. Arrays side by side and not one of a struct: that would
// be no plainer, since the pass for the handlers fills and reads the third alone.
fn walk_within<const N: usize>(
    marks: &mut [u8],
    code: &[u8],
    opcodes: &[u8],
    types: &[u8],
    slots: &[u8],
    payload: &[u8],
    handlers: &[u8],
    f: Function,
) -> Result<Walked, Refusal>
    requires { (length code.now ≤ N) × (N ≤ 65536) × Prefixed opcodes.now f }
    ensures { WalkedBy (walk_source
        (source_of code.now opcodes.now types.now slots.now payload.now
        handlers.now f) marks.old) result marks.new }
{
    let mut heads = [0u32; N];
    let mut words = [0u32; N];
    let mut catches = [0u32; N];
    let mut queue = [0u16; N];
    walk_in(
        marks,
        code,
        opcodes,
        types,
        slots,
        payload,
        handlers,
        f,
        &mut heads,
        &mut words,
        &mut catches,
        &mut queue,
    )
}

// The walks of a code, in room of zeros for it: 11 to 16, 18, 24 and 25, then the search. Of empty code it finds nothing that leaves.
fn walk_in(
    marks: &mut [u8],
    code: &[u8],
    opcodes: &[u8],
    types: &[u8],
    slots: &[u8],
    payload: &[u8],
    handlers: &[u8],
    f: Function,
    heads: &mut [u32],
    words: &mut [u32],
    catches: &mut [u32],
    queue: &mut [u16],
) -> Result<Walked, Refusal>
    requires { (length code.now ≤ 65536) × (length code.now ≤ length heads.old) × (length code.now ≤ length words.old)
        × (length code.now ≤ length catches.old) × (length code.now ≤ length queue.old)
        × Clear heads.old × Clear catches.old × Prefixed opcodes.now f }
    ensures { WalkedBy (walk_source
        (source_of code.now opcodes.now types.now slots.now payload.now
        handlers.now f) marks.old) result marks.new }
{
    let n = code.len();
    let pool = f.pool;
    let h = &mut heads[..n];
    let w = &mut words[..n];
    let c = &mut catches[..n];
    keep_code(code, opcodes, types, slots, payload, f, h, w)?;
    let late = handlers::check_handlers(handlers, n);
    refusal::refuse_unless(n <= marks.len(), Fault::ShortMarks)?;
    late?;
    handlers::catch_table(code, opcodes, handlers, f.prefixes, c);
    let e = Elements { ts: f.ts, pool };
    Ok(search::search(slots, payload, e, h, w, c, &mut marks[..n], queue))
}

// Makes the checks 11 to 16, and keeps of each listed instruction where it goes: at its offset, in room where no head stands yet.
fn keep_code(
    code: &[u8],
    opcodes: &[u8],
    types: &[u8],
    slots: &[u8],
    payload: &[u8],
    f: Function,
    heads: &mut [u32],
    words: &mut [u32],
) -> Result<(), Refusal>
    requires { Prefixed opcodes.now f × (length code.now ≤ 65536) × (length heads.old ≡ length code.now)
        × (length words.old ≡ length code.now) × Clear heads.old }
    ensures { Started
        (source_of code.now opcodes.now types.now slots.now payload.now [] f)
        heads.new words.new result }
{
    let pool = f.pool;
    let blocks = targets::pool_blocks(slots, f.ts, pool);
    keep_all(
        code, opcodes, types, slots, payload, &blocks, f, heads, words,
    )
}

// The same with a summary of the pool's slots.
fn keep_all(
    code: &[u8],
    opcodes: &[u8],
    types: &[u8],
    slots: &[u8],
    payload: &[u8],
    blocks: &[u32],
    f: Function,
    heads: &mut [u32],
    words: &mut [u32],
) -> Result<(), Refusal>
    requires { Prefixed opcodes.now f × (length code.now ≤ 65536) × (length heads.old ≡ length code.now)
        × (length words.old ≡ length code.now) × Clear heads.old
        × PoolBlocked slots.now f.ts f.pool blocks.now }
    ensures { Started
        (source_of code.now opcodes.now types.now slots.now payload.now [] f)
        heads.new words.new result }
{
    let mut check = Ok(());
    let mut i: usize = 0;
    // A step is as long as the instruction: a range or an iterator would be no plainer.
    while i < code.len() {
        let Some(x) = decoder::extent_at(code, opcodes, types, i, f.prefixes)? else {
            return check;
        };
        let size = (x.end - i) as u8;
        let flow = flow::flow_of(opcodes, x.opcode);
        let kept = keep_at(
            code, opcodes, types, slots, payload, blocks, f, flow, i, size,
        );
        check = check.and(kept_check(kept, i));
        // One whose table is refused is stored as one that goes on.
        let k = kept.unwrap_or(steps::kept_on(size));
        heads[i] = k.head;
        words[i] = k.word;
        i = x.end;
    }
    check
}

// What is kept of the instruction at i, of so many bytes, where one stands. Only one that jumps needs its operands.
fn keep_at(
    code: &[u8],
    opcodes: &[u8],
    types: &[u8],
    slots: &[u8],
    payload: &[u8],
    blocks: &[u32],
    f: Function,
    flow: Flow,
    i: usize,
    size: u8,
) -> Result<Kept, BadSwitch>
    requires { PoolBlocked slots.now f.ts f.pool blocks.now }
    ensures { (instr : Instr) → decode_at code.now (opcodes_of opcodes.now) types.now i f.frame.reg_file_start f.prefixes ≡ Ok (Some instr)
        → result ≡ kept_of (pool_searched slots.now payload.now f.ts f.pool) (found f.pool) flow instr size }
{
    match flow.kind {
        Kind::On => Ok(steps::kept_on(size)),
        Kind::Ends => Ok(steps::kept_end(size)),
        _ => keep_jump(
            code, opcodes, types, slots, payload, blocks, f, flow, i, size,
        ),
    }
}

// The same with its operands; where none stands, nothing is promised.
fn keep_jump(
    code: &[u8],
    opcodes: &[u8],
    types: &[u8],
    slots: &[u8],
    payload: &[u8],
    blocks: &[u32],
    f: Function,
    flow: Flow,
    i: usize,
    size: u8,
) -> Result<Kept, BadSwitch>
    requires { PoolBlocked slots.now f.ts f.pool blocks.now }
    ensures { (instr : Instr) → decode_at code.now (opcodes_of opcodes.now) types.now i f.frame.reg_file_start f.prefixes ≡ Ok (Some instr)
        → result ≡ kept_of (pool_searched slots.now payload.now f.ts f.pool) (found f.pool) flow instr size }
{
    let rfs = f.frame.reg_file_start;
    let Ok(Some(instr)) = decoder::decode_at(code, opcodes, types, i, rfs, f.prefixes) else {
        return Ok(steps::kept_on(size));
    };
    steps::kept_of(slots, payload, blocks, f.ts, f.pool, flow, instr, size)
}

// Number 16 for a table that is refused.
fn kept_check(kept: Result<Kept, BadSwitch>, at: usize) -> Result<(), Refusal>
    ensures { result ≡ kept_check kept at }
{
    match kept {
        Ok(_) => Ok(()),
        Err(BadSwitch) => Err(Refusal {
            fault: Fault::BadSwitch,
            place: at,
        }),
    }
}
