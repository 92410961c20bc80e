// The walk check of object 0 and of lent code, without handler records or with those that are lent beside.
use crate::{answers, shown};
use refusal::Refusal;
use vectors::calls::File;
use vectors::items::{Files, behind, contents};
use vectors::said::Status;
use walk::Walked;

// In place of an object's number: no store and no pool.
const NO_OBJECT: u64 = u64::MAX;

// Room for the marks of the longest code, and some more.
const ROOM: usize = 65540;

// Object 0, with a mark buffer of the given length. The call's number, where it has one, says whether it is printed.
pub fn of_object(
    rt: &impl Print,
    bytes: &[u8],
    files: Files,
    call: &[u8],
    handlers: Option<&[u8]>,
    number: Option<u64>,
) -> bool {
    let mut buffer = [7u8; ROOM];
    let Some(marks) = buffer.get_mut(..words::u64_at(call, 0) as usize) else {
        return false;
    };
    let walked = walk_object(bytes, files, handlers, marks);
    show(rt, bytes, files, handlers, number, walked);
    answers::is_walked(behind(call, 8), walked, marks, code_len(bytes, files))
}

pub fn walk_object(
    bytes: &[u8],
    files: Files,
    handlers: Option<&[u8]>,
    marks: &mut [u8],
) -> Result<Walked, Refusal> {
    let opcodes = contents(bytes, files, File::Opcodes);
    let types = contents(bytes, files, File::Types);
    let runtime = contents(bytes, files, File::Runtime);
    let intrinsic = contents(bytes, files, File::Intrinsic);
    let layout = contents(bytes, files, File::Layout);
    let objects = contents(bytes, files, File::Objects);
    let slots = contents(bytes, files, File::Slots);
    let payload = contents(bytes, files, File::Payload);
    match handlers {
        Some(handlers) => walk::walk_with(
            marks, opcodes, types, runtime, intrinsic, layout, objects, slots, payload, 0, handlers,
        ),
        None => walk::walk(
            marks, opcodes, types, runtime, intrinsic, layout, objects, slots, payload, 0,
        ),
    }
}

fn show(
    rt: &impl Print,
    bytes: &[u8],
    files: Files,
    handlers: Option<&[u8]>,
    number: Option<u64>,
    walked: Result<Walked, Refusal>,
) {
    let code = contents(bytes, files, File::Code);
    match handlers {
        Some(handlers) => shown::show_with(rt, number, code, handlers, walked),
        None => shown::show(rt, number, code, walked),
    }
}

// The length of object 0's code, 0 where it is refused.
fn code_len(bytes: &[u8], files: Files) -> usize {
    let header = header::header_at(
        contents(bytes, files, File::Objects),
        contents(bytes, files, File::Slots),
        contents(bytes, files, File::Payload),
        contents(bytes, files, File::Layout),
        0,
    );
    header.map_or(0, |header| header.code_len)
}

// The same, asked of the call for C.
pub fn for_c(bytes: &[u8], files: Files, call: &[u8], handlers: Option<&[u8]>) -> bool {
    let mut buffer = [7u8; ROOM];
    let Some(marks) = buffer.get_mut(..words::u64_at(call, 0) as usize) else {
        return false;
    };
    let mut steps: usize = 7;
    let mut place: usize = 7;
    let status = status_of(bytes, files, handlers, marks, &mut steps, &mut place);
    is_told(
        behind(call, 8),
        told(status, steps, place),
        marks,
        code_len(bytes, files),
    )
}

fn status_of(
    bytes: &[u8],
    files: Files,
    handlers: Option<&[u8]>,
    marks: &mut [u8],
    steps: &mut usize,
    place: &mut usize,
) -> u8 {
    let opcodes = contents(bytes, files, File::Opcodes);
    let types = contents(bytes, files, File::Types);
    let runtime = contents(bytes, files, File::Runtime);
    let intrinsic = contents(bytes, files, File::Intrinsic);
    let layout = contents(bytes, files, File::Layout);
    let objects = contents(bytes, files, File::Objects);
    let slots = contents(bytes, files, File::Slots);
    let payload = contents(bytes, files, File::Payload);
    match handlers {
        Some(handlers) => capi::jscd_walk_with(
            marks, opcodes, types, runtime, intrinsic, layout, objects, slots, payload, 0,
            handlers, steps, place,
        ),
        None => capi::jscd_walk(
            marks, opcodes, types, runtime, intrinsic, layout, objects, slots, payload, 0, steps,
            place,
        ),
    }
}

// What C is told: steps are 0 unless a walk leaves, and the place too where all are closed.
fn told(status: u8, steps: usize, place: usize) -> Option<Result<Walked, (u8, usize)>> {
    match Status::try_from(status) {
        Ok(Status::Done) => (steps == 0 && place == 0).then_some(Ok(Walked::Closed)),
        Ok(Status::Leaves) => Some(Ok(Walked::Leaves(steps, place))),
        Err(number) => (steps == 0).then_some(Err((number, place))),
        Ok(Status::CodeEnd) => None,
    }
}

fn is_told(said: &[u8], told: Option<Result<Walked, (u8, usize)>>, marks: &[u8], n: usize) -> bool {
    match told {
        Some(walked) => answers::is_told(said, walked, marks, n),
        None => false,
    }
}

// The lent code, with a mark buffer of the given length.
pub fn of_code(
    rt: &impl Print,
    bytes: &[u8],
    files: Files,
    call: &[u8],
    handlers: Option<&[u8]>,
    number: Option<u64>,
) -> bool {
    let mut buffer = [7u8; ROOM];
    let Some(marks) = buffer.get_mut(..words::u64_at(call, 8) as usize) else {
        return false;
    };
    let code = contents(bytes, files, File::Code);
    let object = words::u64_at(call, 0);
    let walked = walk_code(bytes, files, object, code, handlers, marks);
    show(rt, bytes, files, handlers, number, walked);
    answers::is_walked(behind(call, 16), walked, marks, code.len())
}

// The same, asked of the call for C.
pub fn code_for_c(bytes: &[u8], files: Files, call: &[u8], handlers: Option<&[u8]>) -> bool {
    let mut buffer = [7u8; ROOM];
    let Some(marks) = buffer.get_mut(..words::u64_at(call, 8) as usize) else {
        return false;
    };
    let mut steps: usize = 7;
    let mut place: usize = 7;
    let object = words::u64_at(call, 0);
    let status = code_status(
        bytes, files, handlers, object, marks, &mut steps, &mut place,
    );
    let code = contents(bytes, files, File::Code);
    is_told(
        behind(call, 16),
        told(status, steps, place),
        marks,
        code.len(),
    )
}

fn code_status(
    bytes: &[u8],
    files: Files,
    handlers: Option<&[u8]>,
    object: u64,
    marks: &mut [u8],
    steps: &mut usize,
    place: &mut usize,
) -> u8 {
    let opcodes = contents(bytes, files, File::Opcodes);
    let types = contents(bytes, files, File::Types);
    let layout = contents(bytes, files, File::Layout);
    let objects = contents(bytes, files, File::Objects);
    let slots = contents(bytes, files, File::Slots);
    let payload = contents(bytes, files, File::Payload);
    let code = contents(bytes, files, File::Code);
    let lent = u8::from(object != NO_OBJECT);
    let number = object as usize;
    match handlers {
        Some(handlers) => capi::jscd_walk_code_with(
            marks, code, opcodes, types, layout, objects, slots, payload, lent, number, handlers,
            steps, place,
        ),
        None => capi::jscd_walk_code(
            marks, code, opcodes, types, layout, objects, slots, payload, lent, number, steps,
            place,
        ),
    }
}

pub fn walk_code(
    bytes: &[u8],
    files: Files,
    object: u64,
    code: &[u8],
    handlers: Option<&[u8]>,
    marks: &mut [u8],
) -> Result<Walked, Refusal> {
    let opcodes = contents(bytes, files, File::Opcodes);
    let types = contents(bytes, files, File::Types);
    let layout = contents(bytes, files, File::Layout);
    let objects = contents(bytes, files, File::Objects);
    let slots = contents(bytes, files, File::Slots);
    let payload = contents(bytes, files, File::Payload);
    let pool = (object != NO_OBJECT).then_some(object as usize);
    match handlers {
        Some(handlers) => walk::walk_code_with(
            marks, code, opcodes, types, layout, objects, slots, payload, pool, handlers,
        ),
        None => walk::walk_code(
            marks, code, opcodes, types, layout, objects, slots, payload, pool,
        ),
    }
}
