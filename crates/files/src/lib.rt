// The programs' input and output: the eight record files are read, and the answer is printed. What is printed for eight files, and handler records beside
// them, is the contract of `answer`. No contract can say what is read or written.
#![tactic(auto)]

ghost use Rattle.std.specs.Prelude.{◌≡◌};
ghost use Rattle.function.specs.Files.{files_of};
ghost use Rattle.walk.specs.Walk.{given_of};
ghost use Rattle.program.specs.Printed.{Printed};
ghost use Rattle.files.specs.PrintedBy.{printed_by};

use std::rt::{Env, Files};

// The usual names of the eight files, in the order of document 01.
const NAMES: [&[u8]; 8] = [
    b"opcodes.bin",
    b"types.bin",
    b"runtime.bin",
    b"intrinsic.bin",
    b"layout.bin",
    b"objects.bin",
    b"slots.bin",
    b"payload.bin",
];

// Which answer is printed.
#[derive(Clone, Copy)]
pub enum Program {
    List,
    Walk,
}

// The whole program, on its arguments: files in the order of document 01, or none for those of the usual names in the current folder. In front of
// them the walk program takes handler records: --handlers and a file.
pub fn run(rt: &(impl Files + Env + Print + Eprint), what: Program) {
    let count = inputs::argument_count(rt).min(255);
    run_on(rt, what, 1, count as u8);
}

// The same on the arguments from number from on, below to.
pub fn run_on(rt: &(impl Files + Env + Print + Eprint), what: Program, from: u8, to: u8) {
    if takes_handlers(rt, what, from, to) {
        run_files(rt, what, from as u16 + 2, to as u16, Some(from as u16 + 1));
    } else {
        run_files(rt, what, from as u16, to as u16, None);
    }
}

// Whether the first of these arguments is the walk program's option.
fn takes_handlers(rt: &impl Env, what: Program, from: u8, to: u8) -> bool {
    match what {
        Program::List => false,
        Program::Walk => from < to && inputs::is_argument(rt, from as usize, b"--handlers"),
    }
}

// The program on the files from argument first on, below to, and with the handler records of an argument, if any. Argument 0, the program's own name, is no
// file: for it stand the usual names.
fn run_files(
    rt: &(impl Files + Env + Print + Eprint),
    what: Program,
    first: u16,
    to: u16,
    handlers: Option<u16>,
) {
    if to == first {
        run_by(rt, what, None, handlers);
    } else if first <= to && to - first == 8 {
        run_by(rt, what, (first != 0).then_some(first), handlers);
    } else {
        usage(rt, what);
    }
}

// The same, with the usual names where no argument is the first file. A file's limit is 65,536 bytes; it has room for one more, in which a longer file
// shows.
fn run_by(
    rt: &(impl Files + Env + Print + Eprint),
    what: Program,
    first: Option<u16>,
    handlers: Option<u16>,
) {
    let mut room = [0u8; 589833];
    let Some(sizes) = load_all(rt, first, handlers, &mut room) else {
        return;
    };
    print(
        rt,
        what,
        file(&room, 0, sizes[0]),
        file(&room, 1, sizes[1]),
        file(&room, 2, sizes[2]),
        file(&room, 3, sizes[3]),
        file(&room, 4, sizes[4]),
        file(&room, 5, sizes[5]),
        file(&room, 6, sizes[6]),
        file(&room, 7, sizes[7]),
        file(&room, 8, sizes[8]),
    );
}

// How long the eight files and the handler records are, which are file 8; none where one was not read, and none behind it is.
fn load_all(
    rt: &(impl Files + Env + Eprint),
    first: Option<u16>,
    handlers: Option<u16>,
    room: &mut [u8; 589833],
) -> Option<[usize; 9]> {
    let mut sizes = [0; 9];
    for (i, name) in NAMES.iter().enumerate() {
        sizes[i] = load(rt, first, i as u8, name, room)?;
    }
    if let Some(i) = handlers {
        sizes[8] = inputs::load_argument(rt, i as usize, &mut room[524296..])?;
    }
    Some(sizes)
}

// The contents of file i.
fn file<'a>(room: &'a [u8; 589833], i: u8, size: usize) -> &'a [u8] {
    serializer::lent(room, i as usize * 65537, size)
}

fn usage(rt: &impl Eprint, what: Program) {
    let name = name_of(what);
    let files = "[opcodes types runtime intrinsic layout objects slots payload]";
    let _ = eprintln!(rt; "usage: {name} {files}");
}

fn name_of(what: Program) -> &'static str {
    match what {
        Program::List => "jscd_list",
        Program::Walk => "jscd_walk [--handlers FILE]",
    }
}

fn print(
    rt: &(impl Print + Eprint),
    what: Program,
    opcodes: &[u8],
    types: &[u8],
    runtime: &[u8],
    intrinsic: &[u8],
    layout: &[u8],
    objects: &[u8],
    slots: &[u8],
    payload: &[u8],
    handlers: &[u8],
) {
    let mut out = [0u8; 65536];
    let n = answer(
        what, &mut out, opcodes, types, runtime, intrinsic, layout, objects, slots, payload,
        handlers,
    );
    if let Err(error) = rt.write_all(&out[..n]) {
        inputs::fail(rt, b"standard output", error);
    }
}

// The program's text, from the start of the buffer on, and how long it is.
fn answer(
    what: Program,
    out: &mut [u8; 65536],
    opcodes: &[u8],
    types: &[u8],
    runtime: &[u8],
    intrinsic: &[u8],
    layout: &[u8],
    objects: &[u8],
    slots: &[u8],
    payload: &[u8],
    handlers: &[u8],
) -> usize
    ensures { Printed (printed_by what
        (files_of opcodes.now types.now runtime.now intrinsic.now layout.now
        objects.now slots.now payload.now) (given_of handlers.now)) out.old out.new result }
{
    match what {
        Program::List => program::list_text(
            out, opcodes, types, runtime, intrinsic, layout, objects, slots, payload,
        ),
        Program::Walk => program::walk_text(
            out, opcodes, types, runtime, intrinsic, layout, objects, slots, payload, handlers,
        ),
    }
}

// Reads file i of the eight, by its argument or by its usual name, into its part of the room.
fn load(
    rt: &(impl Files + Env + Eprint),
    first: Option<u16>,
    i: u8,
    name: &[u8],
    room: &mut [u8],
) -> Option<usize> {
    let at = i as usize * 65537;
    let end = at + 65537;
    if room.len() < end {
        return None;
    }
    let buffer = &mut room[at..end];
    match first {
        Some(first) => inputs::load_argument(rt, first as usize + i as usize, buffer),
        None => inputs::load_file(rt, name, buffer),
    }
}
