// What the programs print: a refusal's line, the listing of object 0, and the answer of the walk check on it.
#![tactic(auto)]

ghost use Rattle.std.specs.Prelude.{◌≡◌, length};
ghost use Rattle.text.specs.Put.{Put};
ghost use Rattle.text.specs.mirror.Written.{WrittenBy};
ghost use Rattle.function.specs.Files.{files_of};
ghost use Rattle.search.specs.declared.Walked.TheVariants as walked;
ghost use Rattle.walk.specs.Walk.{given_of};
ghost use Rattle.program.specs.Printed.{refusal_text, within_limit, limited, shown, Printed, walk_text, walk_answer, WalkPrinted};

use refusal::{Fault, Refusal};
use walk::Walked;

// The line `refused 14 at 1`, by hand: the contract tells each byte, which `Display` cannot.
fn put_refusal(out: &mut [u8], at: usize, r: Refusal) -> usize
    ensures { Put out.old at (refusal_text r) out.new result }
{
    let p = text::put_bytes(out, at, b"refused ");
    let p = text::put_decimal(out, p, r.fault.number() as u64);
    let p = text::put_bytes(out, p, b" at ");
    let p = text::put_decimal(out, p, r.place as u64);
    text::put_byte(out, p, b'\n')
}

// What `jscd_list` prints, from the start of the buffer on: the listing of object 0, or the line of its refusal. It answers how long that is.
pub fn list_text(
    out: &mut [u8; 65536],
    opcodes: &[u8],
    types: &[u8],
    runtime: &[u8],
    intrinsic: &[u8],
    layout: &[u8],
    objects: &[u8],
    slots: &[u8],
    payload: &[u8],
) -> usize
    ensures { Printed (shown
        (files_of opcodes.now types.now runtime.now intrinsic.now layout.now
        objects.now slots.now payload.now) 65536) out.old out.new result }
{
    let listed = list_limited(
        out, opcodes, types, runtime, intrinsic, layout, objects, slots, payload,
    );
    match listed {
        Ok(n) => n,
        Err(r) => put_refusal(out, 0, r),
    }
}

// The listing of object 0, of store files that are within the program's limit.
fn list_limited(
    out: &mut [u8],
    opcodes: &[u8],
    types: &[u8],
    runtime: &[u8],
    intrinsic: &[u8],
    layout: &[u8],
    objects: &[u8],
    slots: &[u8],
    payload: &[u8],
) -> Result<usize, Refusal>
    ensures { WrittenBy (limited
        (files_of opcodes.now types.now runtime.now intrinsic.now layout.now
        objects.now slots.now payload.now) out.old) result out.new }
{
    if within_limit(objects.len(), slots.len(), payload.len()) {
        return disasm::list(
            out, opcodes, types, runtime, intrinsic, layout, objects, slots, payload, 0,
        );
    }
    tables::check_table(opcodes, types, runtime, intrinsic, layout)?;
    Err(Refusal {
        fault: Fault::StoreSize,
        place: 0,
    })
}

// What `jscd_walk` prints, from the start of the buffer on: the answer of the walk check on object 0 with handler records, which may be none, or the
// line of its refusal.
pub fn walk_text(
    out: &mut [u8; 65536],
    opcodes: &[u8],
    types: &[u8],
    runtime: &[u8],
    intrinsic: &[u8],
    layout: &[u8],
    objects: &[u8],
    slots: &[u8],
    payload: &[u8],
    handlers: &[u8],
) -> usize
    ensures { WalkPrinted
        (files_of opcodes.now types.now runtime.now intrinsic.now layout.now
        objects.now slots.now payload.now) (given_of handlers.now) out.old out.new result }
{
    let walked = walk_marked(
        opcodes, types, runtime, intrinsic, layout, objects, slots, payload, handlers,
    );
    put_walked(out, 0, walked)
}

// A line for the answer of a walk check.
fn put_walked(out: &mut [u8], at: usize, walked: Result<Walked, Refusal>) -> usize
    ensures { Put out.old at (walk_text walked) out.new result }
{
    match walked {
        Ok(Walked::Closed) => text::put_bytes(out, at, b"closed\n"),
        Ok(Walked::Leaves(steps, offset)) => put_leaves(out, at, steps, offset),
        Err(r) => put_refusal(out, at, r),
    }
}

// The line `leaves steps 2 from 4`.
fn put_leaves(out: &mut [u8], at: usize, steps: usize, offset: usize) -> usize
    ensures { Put out.old at (walk_text (Ok (walked.Leaves steps offset))) out.new result }
{
    let p = text::put_bytes(out, at, b"leaves steps ");
    let p = text::put_decimal(out, p, steps as u64);
    let p = text::put_bytes(out, p, b" from ");
    let p = text::put_decimal(out, p, offset as u64);
    text::put_byte(out, p, b'\n')
}

// The walks of object 0, with marks for the longest code.
fn walk_marked(
    opcodes: &[u8],
    types: &[u8],
    runtime: &[u8],
    intrinsic: &[u8],
    layout: &[u8],
    objects: &[u8],
    slots: &[u8],
    payload: &[u8],
    handlers: &[u8],
) -> Result<Walked, Refusal>
    ensures { result ≡ walk_answer
        (files_of opcodes.now types.now runtime.now intrinsic.now layout.now
        objects.now slots.now payload.now) (given_of handlers.now) 65536 }
{
    let mut marks = [0u8; 65536];
    walk_limited(
        &mut marks, opcodes, types, runtime, intrinsic, layout, objects, slots, payload, handlers,
    )
}

// The walks of object 0, of store files that are within the program's limit.
fn walk_limited(
    marks: &mut [u8],
    opcodes: &[u8],
    types: &[u8],
    runtime: &[u8],
    intrinsic: &[u8],
    layout: &[u8],
    objects: &[u8],
    slots: &[u8],
    payload: &[u8],
    handlers: &[u8],
) -> Result<Walked, Refusal>
    ensures { result ≡ walk_answer
        (files_of opcodes.now types.now runtime.now intrinsic.now layout.now
        objects.now slots.now payload.now) (given_of handlers.now) (length marks.old) }
{
    if within_limit(objects.len(), slots.len(), payload.len()) {
        return walk::walk_with(
            marks, opcodes, types, runtime, intrinsic, layout, objects, slots, payload, 0, handlers,
        );
    }
    tables::check_table(opcodes, types, runtime, intrinsic, layout)?;
    Err(Refusal {
        fault: Fault::StoreSize,
        place: 0,
    })
}

// Store files of at most 65,536 bytes.
#[tactic(auto, unfolding(crate::specs::Printed::within_limit))]
fn within_limit(objects: usize, slots: usize, payload: usize) -> bool
    ensures { result ≡ within_limit objects slots payload }
{
    objects <= 65536 && slots <= 65536 && payload <= 65536
}
