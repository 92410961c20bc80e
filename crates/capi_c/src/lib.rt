// The calls of `capi` under C's names, for the archive: each is that function, with its contract.
#![tactic(auto)]

ghost use Rattle.std.specs.Prelude.{◌≡◌};
ghost use Rattle.function.specs.Files.{Files, files_of, lent_files};
ghost use Rattle.convert.specs.Convert.{to_new_call, to_old_call};
ghost use Rattle.disasm.specs.Listing.{list_call};
ghost use Rattle.decoder.specs.Decode.{Decoded};
ghost use Rattle.bytecode.specs.Decode.{decode_one};
ghost use Rattle.bytecode.specs.Numbers.{decoded_numbers};
ghost use Rattle.jumps.specs.Jumps.{target_call, entry_call};
ghost use Rattle.jumps.specs.Numbers.{target_numbers, entry_numbers};
ghost use Rattle.walk.specs.Walk.{Given, given_of, object_source, object_with, walk_call, walk_with, lent_source, lent_with, walk_lent, walk_lent_with};
ghost use Rattle.capi.specs.Told.{buffer_told, write_numbers, WriteReads, walk_told, WalkPromise, pool_object, numbers_told, decode_told};

// The listing of an object into `out`: its length in `place`, or the refusal's place, with `out` as it was.
#[unsafe(no_mangle)]
pub extern "C" fn jscd_list(
    out: &mut [u8],
    opcodes: &[u8],
    types: &[u8],
    runtime: &[u8],
    intrinsic: &[u8],
    layout: &[u8],
    objects: &[u8],
    slots: &[u8],
    payload: &[u8],
    object: usize,
    place: &mut usize,
) -> u8
    ensures { let f : Files = files_of opcodes.now types.now runtime.now intrinsic.now
        layout.now objects.now slots.now payload.now in
        (result, place.new, out.new) ≡ buffer_told (list_call f object out.old) }
{
    capi::jscd_list(
        out, opcodes, types, runtime, intrinsic, layout, objects, slots, payload, object, place,
    )
}

// An opcode file of 01's form with its flows filled in by name, into `out`: its length in `place`, or the refusal's place, with `out` as it was.
#[unsafe(no_mangle)]
pub extern "C" fn jscd_to_new(out: &mut [u8], opcodes: &[u8], types: &[u8], place: &mut usize) -> u8
    ensures { (result, place.new, out.new) ≡ buffer_told (to_new_call opcodes.now types.now out.old) }
{
    capi::jscd_to_new(out, opcodes, types, place)
}

// The way back.
#[unsafe(no_mangle)]
pub extern "C" fn jscd_to_old(out: &mut [u8], opcodes: &[u8], types: &[u8], place: &mut usize) -> u8
    ensures { (result, place.new, out.new) ≡ buffer_told (to_old_call opcodes.now types.now out.old) }
{
    capi::jscd_to_old(out, opcodes, types, place)
}

// The bytes of the instruction that 28 numbers tell, as jscd_decode tells them, into `out`: their number in `place`, or the refusal's place, with `out`
// as it was. Where the instruction ends is not read.
#[unsafe(no_mangle)]
pub extern "C" fn jscd_write(
    out: &mut [u8],
    opcodes: &[u8],
    types: &[u8],
    layout: &[u8],
    numbers: &[u64; 28],
    place: &mut usize,
) -> u8
    ensures { ((result, place.new, out.new) ≡ buffer_told (write_numbers opcodes.now types.now layout.now
        numbers.now out.old))
        × WriteReads opcodes.now types.now layout.now numbers.now result place.new out.new }
{
    capi::jscd_write(out, opcodes, types, layout, numbers, place)
}

// The walks of an object. 254: one leaves, its steps in `steps`, the offset it leaves from in `place`. Else `steps` is 0, and `place` the
// refusal's place or 0: C has no Option. The marks are those of the walk check; after a refusal they are as they were.
#[unsafe(no_mangle)]
pub extern "C" fn jscd_walk(
    marks: &mut [u8],
    opcodes: &[u8],
    types: &[u8],
    runtime: &[u8],
    intrinsic: &[u8],
    layout: &[u8],
    objects: &[u8],
    slots: &[u8],
    payload: &[u8],
    object: usize,
    steps: &mut usize,
    place: &mut usize,
) -> u8
    ensures { let f : Files = files_of opcodes.now types.now runtime.now intrinsic.now
        layout.now objects.now slots.now payload.now in
        ((result, steps.new, place.new, marks.new) ≡ walk_told (walk_call f object marks.old))
        × WalkPromise (object_source f object) marks.new result steps.new place.new }
{
    capi::jscd_walk(
        marks, opcodes, types, runtime, intrinsic, layout, objects, slots, payload, object, steps,
        place,
    )
}

// The same with what is lent beside: handler records.
#[unsafe(no_mangle)]
pub extern "C" fn jscd_walk_with(
    marks: &mut [u8],
    opcodes: &[u8],
    types: &[u8],
    runtime: &[u8],
    intrinsic: &[u8],
    layout: &[u8],
    objects: &[u8],
    slots: &[u8],
    payload: &[u8],
    object: usize,
    handlers: &[u8],
    steps: &mut usize,
    place: &mut usize,
) -> u8
    ensures { let f : Files = files_of opcodes.now types.now runtime.now intrinsic.now
        layout.now objects.now slots.now payload.now in
        let g : Given = given_of handlers.now in
        ((result, steps.new, place.new, marks.new) ≡ walk_told (walk_with f g object marks.old))
        × WalkPromise (object_with f g object) marks.new result steps.new place.new }
{
    capi::jscd_walk_with(
        marks, opcodes, types, runtime, intrinsic, layout, objects, slots, payload, object,
        handlers, steps, place,
    )
}

// The walks of lent code, with the pool of object number `object` where `lent` is not 0. The answer and the marks are told as by jscd_walk.
#[unsafe(no_mangle)]
pub extern "C" fn jscd_walk_code(
    marks: &mut [u8],
    code: &[u8],
    opcodes: &[u8],
    types: &[u8],
    layout: &[u8],
    objects: &[u8],
    slots: &[u8],
    payload: &[u8],
    lent: u8,
    object: usize,
    steps: &mut usize,
    place: &mut usize,
) -> u8
    ensures { let f : Files = lent_files opcodes.now types.now layout.now objects.now
        slots.now payload.now in
        ((result, steps.new, place.new, marks.new)
        ≡ walk_told (walk_lent f (pool_object lent object) code.now marks.old))
        × WalkPromise (lent_source f (pool_object lent object) code.now) marks.new result steps.new place.new }
{
    capi::jscd_walk_code(
        marks, code, opcodes, types, layout, objects, slots, payload, lent, object, steps, place,
    )
}

// The same with handler records.
#[unsafe(no_mangle)]
pub extern "C" fn jscd_walk_code_with(
    marks: &mut [u8],
    code: &[u8],
    opcodes: &[u8],
    types: &[u8],
    layout: &[u8],
    objects: &[u8],
    slots: &[u8],
    payload: &[u8],
    lent: u8,
    object: usize,
    handlers: &[u8],
    steps: &mut usize,
    place: &mut usize,
) -> u8
    ensures { let f : Files = lent_files opcodes.now types.now layout.now objects.now
        slots.now payload.now in
        let g : Given = given_of handlers.now in
        ((result, steps.new, place.new, marks.new)
        ≡ walk_told (walk_lent_with f g (pool_object lent object) code.now marks.old))
        × WalkPromise (lent_with f g (pool_object lent object) code.now) marks.new result steps.new place.new }
{
    capi::jscd_walk_code_with(
        marks, code, opcodes, types, layout, objects, slots, payload, lent, object, handlers,
        steps, place,
    )
}

// The target of the jump at a place of lent code: `values` is 1 and the target, or 0 where there is none. 255: the place is the code's end.
// `place` is that place, the refusal's place, or 0. A value that is not there is 0: C has no Option.
#[unsafe(no_mangle)]
pub extern "C" fn jscd_target(
    code: &[u8],
    at: usize,
    opcodes: &[u8],
    types: &[u8],
    layout: &[u8],
    objects: &[u8],
    slots: &[u8],
    payload: &[u8],
    lent: u8,
    object: usize,
    place: &mut usize,
    values: &mut [u64; 2],
) -> u8
    ensures { let f : Files = lent_files opcodes.now types.now layout.now objects.now
        slots.now payload.now in
        (result, place.new, values.new)
        ≡ numbers_told 2 (target_numbers at (target_call f (pool_object lent object) code.now at)) }
{
    capi::jscd_target(
        code, at, opcodes, types, layout, objects, slots, payload, lent, object, place, values,
    )
}

// Entry k of the switch at a place of lent code: `values` is 1, the case and the target; 2 where the element is skipped, 3 where the table has no
// entry k, 0 where there is no table: C has no enum with values. Else as jscd_target.
#[unsafe(no_mangle)]
pub extern "C" fn jscd_entry(
    code: &[u8],
    at: usize,
    opcodes: &[u8],
    types: &[u8],
    layout: &[u8],
    objects: &[u8],
    slots: &[u8],
    payload: &[u8],
    lent: u8,
    object: usize,
    k: usize,
    place: &mut usize,
    values: &mut [u64; 3],
) -> u8
    ensures { let f : Files = lent_files opcodes.now types.now layout.now objects.now
        slots.now payload.now in
        (result, place.new, values.new)
        ≡ numbers_told 3 (entry_numbers at (entry_call f (pool_object lent object) code.now at k)) }
{
    capi::jscd_entry(
        code, at, opcodes, types, layout, objects, slots, payload, lent, object, k, place, values,
    )
}

// The instruction at a place of lent code, as 28 numbers: opcode, scale, the place where it ends, how many operands, and three numbers
// for each of eight operands. `place` is where it ends, the refusal's place, or the start place at the end. Unless it answers, the 28
// numbers are as they were.
#[unsafe(no_mangle)]
pub extern "C" fn jscd_decode(
    opcodes: &[u8],
    types: &[u8],
    layout: &[u8],
    code: &[u8],
    start: usize,
    place: &mut usize,
    numbers: &mut [u64; 28],
) -> u8
    ensures { let d : Decoded = decode_one opcodes.now types.now layout.now code.now start in
        (result, place.new, numbers.new) ≡ decode_told (decoded_numbers start d) numbers.old }
{
    capi::jscd_decode(opcodes, types, layout, code, start, place, numbers)
}
