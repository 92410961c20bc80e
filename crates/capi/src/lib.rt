// The calls for C and Rust, which `capi_c` gives C by their names: numbers and lent bytes in, one number out. 0 is an answer, 1 to 27 a refusal's number, 255 the end of the
// code, 254 a walk that leaves. The place, or the answer's length, is written behind a pointer. All that is lent to a call is a parameter of its
// own, and so is each number of its answer: the calls on lent code have up to thirteen parameters.
#![tactic(auto)]

ghost use Rattle.std.specs.Prelude.{◌≡◌};
ghost use Rattle.function.specs.Files.{Files, files_of, lent_files};
ghost use Rattle.convert.specs.Convert.{to_new_call, to_old_call};
ghost use Rattle.disasm.specs.Listing.{list_call};
ghost use Rattle.decoder.specs.Decode.{Decoded};
ghost use Rattle.bytecode.specs.Decode.{decode_one};
ghost use Rattle.bytecode.specs.Numbers.{decoded_numbers};
ghost use Rattle.jumps.specs.Jumps.{target_call, entry_call};
ghost use Rattle.jumps.specs.Numbers.{target_numbers, entry_numbers};
ghost use Rattle.walk.specs.Walk.{Given, given_of, object_source, object_with, walk_call, walk_with, lent_source, lent_with, walk_lent, walk_lent_with};
ghost use Rattle.capi.specs.Told.{written_told, buffer_told, no_opcode, write_numbers, WriteReads, walk_numbers, walk_told, WalkPromise, pool_object, numbers_told, decode_told};

use jumps::Entry;
use refusal::{Fault, Refusal};
use walk::Walked;

// The listing of an object into `out`: its length in `place`, or the refusal's place, with `out` as it was.
pub fn jscd_list(
    out: &mut [u8],
    opcodes: &[u8],
    types: &[u8],
    runtime: &[u8],
    intrinsic: &[u8],
    layout: &[u8],
    objects: &[u8],
    slots: &[u8],
    payload: &[u8],
    object: usize,
    place: &mut usize,
) -> u8
    ensures { let f : Files = files_of opcodes.now types.now runtime.now intrinsic.now
        layout.now objects.now slots.now payload.now in
        (result, place.new, out.new) ≡ buffer_told (list_call f object out.old) }
{
    let listed = disasm::list(
        out, opcodes, types, runtime, intrinsic, layout, objects, slots, payload, object,
    );
    tell_written(listed, place)
}

// An opcode file of 01's form with its flows filled in by name, into `out`: its length in `place`, or the refusal's place, with `out` as it was.
pub fn jscd_to_new(out: &mut [u8], opcodes: &[u8], types: &[u8], place: &mut usize) -> u8
    ensures { (result, place.new, out.new) ≡ buffer_told (to_new_call opcodes.now types.now out.old) }
{
    let written = convert::to_new(out, opcodes, types);
    tell_written(written, place)
}

// The way back, a call of its own: the C interface.
pub fn jscd_to_old(out: &mut [u8], opcodes: &[u8], types: &[u8], place: &mut usize) -> u8
    ensures { (result, place.new, out.new) ≡ buffer_told (to_old_call opcodes.now types.now out.old) }
{
    let written = convert::to_old(out, opcodes, types);
    tell_written(written, place)
}

// The bytes of the instruction that 28 numbers tell, as jscd_decode tells them, into `out`: their number in `place`, or the refusal's place, with `out`
// as it was. Where the instruction ends is not read.
pub fn jscd_write(
    out: &mut [u8],
    opcodes: &[u8],
    types: &[u8],
    layout: &[u8],
    numbers: &[u64; 28],
    place: &mut usize,
) -> u8
    ensures { ((result, place.new, out.new) ≡ buffer_told (write_numbers opcodes.now types.now layout.now
        numbers.now out.old))
        × WriteReads opcodes.now types.now layout.now numbers.now result place.new out.new }
{
    let known = numbers::opcode_known(numbers);
    let instr = numbers::instr_of(numbers);
    if !known {
        let check = writer::check_scale(opcodes, types, layout, instr.scale);
        return tell_written(no_opcode(check), place);
    }
    let written = writer::write(out, opcodes, types, layout, instr);
    tell_written(written, place)
}

// The refusal of an opcode that no table has, behind what is checked before it.
fn no_opcode(check: Result<(), Refusal>) -> Result<usize, Refusal>
    ensures { result ≡ no_opcode check }
{
    check?;
    Err(Refusal {
        fault: Fault::WrongOpcode,
        place: 0,
    })
}

// The numbers of an answer of a call that writes into a buffer; by hand, as the others below: C is told each kind of answer by other pointers.
fn tell_written(written: Result<usize, Refusal>, place: &mut usize) -> u8
    ensures { (result, place.new) ≡ written_told written }
{
    match written {
        Ok(n) => {
            *place = n;
            0
        }
        Err(r) => {
            *place = r.place;
            r.fault.number()
        }
    }
}

// The walks of an object. 254: one leaves, its steps in `steps`, the offset it leaves from in `place`. Else `steps` is 0, and `place` the
// refusal's place or 0: C has no Option. The marks are those of the walk check; after a refusal they are as they were.
pub fn jscd_walk(
    marks: &mut [u8],
    opcodes: &[u8],
    types: &[u8],
    runtime: &[u8],
    intrinsic: &[u8],
    layout: &[u8],
    objects: &[u8],
    slots: &[u8],
    payload: &[u8],
    object: usize,
    steps: &mut usize,
    place: &mut usize,
) -> u8
    ensures { let f : Files = files_of opcodes.now types.now runtime.now intrinsic.now
        layout.now objects.now slots.now payload.now in
        ((result, steps.new, place.new, marks.new) ≡ walk_told (walk_call f object marks.old))
        × WalkPromise (object_source f object) marks.new result steps.new place.new }
{
    let walked = walk::walk(
        marks, opcodes, types, runtime, intrinsic, layout, objects, slots, payload, object,
    );
    tell_walked(walked, steps, place)
}

// The same with what is lent beside: handler records.
pub fn jscd_walk_with(
    marks: &mut [u8],
    opcodes: &[u8],
    types: &[u8],
    runtime: &[u8],
    intrinsic: &[u8],
    layout: &[u8],
    objects: &[u8],
    slots: &[u8],
    payload: &[u8],
    object: usize,
    handlers: &[u8],
    steps: &mut usize,
    place: &mut usize,
) -> u8
    ensures { let f : Files = files_of opcodes.now types.now runtime.now intrinsic.now
        layout.now objects.now slots.now payload.now in
        let g : Given = given_of handlers.now in
        ((result, steps.new, place.new, marks.new) ≡ walk_told (walk_with f g object marks.old))
        × WalkPromise (object_with f g object) marks.new result steps.new place.new }
{
    let walked = walk::walk_with(
        marks, opcodes, types, runtime, intrinsic, layout, objects, slots, payload, object,
        handlers,
    );
    tell_walked(walked, steps, place)
}

// The walks of lent code, with the pool of object number `object` where `lent` is not 0. The answer and the marks are told as by jscd_walk.
pub fn jscd_walk_code(
    marks: &mut [u8],
    code: &[u8],
    opcodes: &[u8],
    types: &[u8],
    layout: &[u8],
    objects: &[u8],
    slots: &[u8],
    payload: &[u8],
    lent: u8,
    object: usize,
    steps: &mut usize,
    place: &mut usize,
) -> u8
    ensures { let f : Files = lent_files opcodes.now types.now layout.now objects.now
        slots.now payload.now in
        ((result, steps.new, place.new, marks.new)
        ≡ walk_told (walk_lent f (pool_object lent object) code.now marks.old))
        × WalkPromise (lent_source f (pool_object lent object) code.now) marks.new result steps.new place.new }
{
    let pool = pool_object(lent, object);
    let walked = walk::walk_code(
        marks, code, opcodes, types, layout, objects, slots, payload, pool,
    );
    tell_walked(walked, steps, place)
}

// The same with handler records.
pub fn jscd_walk_code_with(
    marks: &mut [u8],
    code: &[u8],
    opcodes: &[u8],
    types: &[u8],
    layout: &[u8],
    objects: &[u8],
    slots: &[u8],
    payload: &[u8],
    lent: u8,
    object: usize,
    handlers: &[u8],
    steps: &mut usize,
    place: &mut usize,
) -> u8
    ensures { let f : Files = lent_files opcodes.now types.now layout.now objects.now
        slots.now payload.now in
        let g : Given = given_of handlers.now in
        ((result, steps.new, place.new, marks.new)
        ≡ walk_told (walk_lent_with f g (pool_object lent object) code.now marks.old))
        × WalkPromise (lent_with f g (pool_object lent object) code.now) marks.new result steps.new place.new }
{
    let pool = pool_object(lent, object);
    let walked = walk::walk_code_with(
        marks, code, opcodes, types, layout, objects, slots, payload, pool, handlers,
    );
    tell_walked(walked, steps, place)
}

// The numbers of a walk check's answer; by hand: the C interface.
fn tell_walked(walked: Result<Walked, Refusal>, steps: &mut usize, place: &mut usize) -> u8
    ensures { (result, steps.new, place.new) ≡ walk_numbers walked }
{
    *steps = 0;
    *place = 0;
    match walked {
        Ok(Walked::Closed) => 0,
        Ok(Walked::Leaves(n, o)) => {
            *steps = n;
            *place = o;
            254
        }
        Err(r) => {
            *place = r.place;
            r.fault.number()
        }
    }
}

// The object whose pool lent code uses, if one is lent.
fn pool_object(lent: u8, object: usize) -> Option<usize>
    ensures { result ≡ pool_object lent object }
{
    if lent == 0 { None } else { Some(object) }
}

// The target of the jump at a place of lent code: `values` is 1 and the target, or 0 where there is none. 255: the place is the code's end.
// `place` is that place, the refusal's place, or 0. A value that is not there is 0: C has no Option.
pub fn jscd_target(
    code: &[u8],
    at: usize,
    opcodes: &[u8],
    types: &[u8],
    layout: &[u8],
    objects: &[u8],
    slots: &[u8],
    payload: &[u8],
    lent: u8,
    object: usize,
    place: &mut usize,
    values: &mut [u64; 2],
) -> u8
    ensures { let f : Files = lent_files opcodes.now types.now layout.now objects.now
        slots.now payload.now in
        (result, place.new, values.new)
        ≡ numbers_told 2 (target_numbers at (target_call f (pool_object lent object) code.now at)) }
{
    let pool = pool_object(lent, object);
    let answer = jumps::jump_target(
        code, at, opcodes, types, layout, objects, slots, payload, pool,
    );
    tell_target(answer, at, place, values)
}

// Entry k of the switch at a place of lent code: `values` is 1, the case and the target; 2 where the element is skipped, 3 where the table has no
// entry k, 0 where there is no table: C has no enum with values. Else as jscd_target.
pub fn jscd_entry(
    code: &[u8],
    at: usize,
    opcodes: &[u8],
    types: &[u8],
    layout: &[u8],
    objects: &[u8],
    slots: &[u8],
    payload: &[u8],
    lent: u8,
    object: usize,
    k: usize,
    place: &mut usize,
    values: &mut [u64; 3],
) -> u8
    ensures { let f : Files = lent_files opcodes.now types.now layout.now objects.now
        slots.now payload.now in
        (result, place.new, values.new)
        ≡ numbers_told 3 (entry_numbers at (entry_call f (pool_object lent object) code.now at k)) }
{
    let pool = pool_object(lent, object);
    let answer = jumps::jump_entry(
        code, at, opcodes, types, layout, objects, slots, payload, pool, k,
    );
    tell_entry(answer, at, place, values)
}

// The numbers of a target's answer; by hand: the C interface.
fn tell_target(
    answer: Result<Option<Option<u64>>, Refusal>,
    at: usize,
    place: &mut usize,
    values: &mut [u64; 2],
) -> u8
    ensures { (result, place.new, values.new) ≡ numbers_told 2 (target_numbers at answer) }
{
    *place = 0;
    *values = [0, 0];
    match answer {
        Ok(Some(Some(t))) => {
            *values = [1, t];
            0
        }
        Ok(Some(None)) => 0,
        Ok(None) => {
            *place = at;
            255
        }
        Err(r) => {
            *place = r.place;
            r.fault.number()
        }
    }
}

// The numbers of an entry's answer; by hand: the C interface.
fn tell_entry(
    answer: Result<Option<Option<Entry>>, Refusal>,
    at: usize,
    place: &mut usize,
    values: &mut [u64; 3],
) -> u8
    ensures { (result, place.new, values.new) ≡ numbers_told 3 (entry_numbers at answer) }
{
    *place = 0;
    *values = [0, 0, 0];
    match answer {
        Ok(Some(Some(Entry::Shown(c)))) => {
            *values = [1, numbers::bits_of(c.case), c.target];
            0
        }
        Ok(Some(Some(Entry::Skipped))) => {
            *values = [2, 0, 0];
            0
        }
        Ok(Some(Some(Entry::Beyond))) => {
            *values = [3, 0, 0];
            0
        }
        Ok(Some(None)) => 0,
        Ok(None) => {
            *place = at;
            255
        }
        Err(r) => {
            *place = r.place;
            r.fault.number()
        }
    }
}

// The instruction at a place of lent code, as 28 numbers: opcode, scale, the place where it ends, how many operands, and three numbers
// for each of eight operands. `place` is where it ends, the refusal's place, or the start place at the end. Unless it answers, the 28
// numbers are as they were.
pub fn jscd_decode(
    opcodes: &[u8],
    types: &[u8],
    layout: &[u8],
    code: &[u8],
    start: usize,
    place: &mut usize,
    numbers: &mut [u64; 28],
) -> u8
    ensures { let d : Decoded = decode_one opcodes.now types.now layout.now code.now start in
        (result, place.new, numbers.new) ≡ decode_told (decoded_numbers start d) numbers.old }
{
    match bytecode::decode(opcodes, types, layout, code, start) {
        Ok(Some(instr)) => {
            *place = instr.end;
            *numbers = numbers::instr_numbers(instr);
            0
        }
        Ok(None) => {
            *place = start;
            255
        }
        Err(r) => {
            *place = r.place;
            r.fault.number()
        }
    }
}
