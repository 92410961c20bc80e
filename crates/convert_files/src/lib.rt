// The input and output of `jscd_convert`: an opcode file and a type file are read, and the converted opcode file is printed. A refusal goes to standard error, since
// standard output is to be a file.
#![tactic(auto)]

ghost use Rattle.text.specs.Numbers.{WrittenAs};
ghost use Rattle.convert_files.specs.ConvertedBy.{converted_by};

use refusal::Refusal;
use std::rt::{Env, Files};
use tables::Form;

// The whole program, on its arguments: new or old, the opcodes and the types.
pub fn run(rt: &(impl Files + Env + Print + Eprint)) {
    let count = inputs::argument_count(rt).min(255);
    run_on(rt, 1, count as u8);
}

// The same on the arguments from number from on, below to.
pub fn run_on(rt: &(impl Files + Env + Print + Eprint), from: u8, to: u8) {
    let first = from as usize;
    if to as usize != first + 3 {
        usage(rt);
    } else if inputs::is_argument(rt, first, b"new") {
        run_by(rt, Form::New, from);
    } else if inputs::is_argument(rt, first, b"old") {
        run_by(rt, Form::Old, from);
    } else {
        usage(rt);
    }
}

fn usage(rt: &impl Eprint) {
    let _ = eprintln!(rt;
        "usage: jscd_convert new|old opcodes types\nnew makes records of 72 bytes of those of 64, old the other way; the opcode file goes to standard output"
    );
}

// Converts the opcodes and types that the two arguments behind number from name. A table's files have at most 18,432 and 2,048 bytes; there is room for one more, in which a longer file
// shows.
fn run_by(rt: &(impl Files + Env + Print + Eprint), to: Form, from: u8) {
    let mut opcodes = [0u8; 18433];
    let mut types = [0u8; 2049];
    let Some(o) = inputs::load_argument(rt, from as usize + 1, &mut opcodes) else {
        return;
    };
    let Some(t) = inputs::load_argument(rt, from as usize + 2, &mut types) else {
        return;
    };
    print(rt, to, &opcodes[..o], &types[..t]);
}

fn print(rt: &(impl Print + Eprint), to: Form, opcodes: &[u8], types: &[u8]) {
    let mut out = [0u8; 18432];
    let written = converted(to, &mut out, opcodes, types);
    match written {
        Ok(n) => print_file(rt, &out, n),
        Err(r) => {
            let _ = eprintln!(rt; "{r}");
        }
    }
}

fn converted(to: Form, out: &mut [u8], opcodes: &[u8], types: &[u8]) -> Result<usize, Refusal>
    ensures { WrittenAs (converted_by to opcodes.now types.now out.old) result out.new }
{
    match to {
        Form::New => convert::to_new(out, opcodes, types),
        Form::Old => convert::to_old(out, opcodes, types),
    }
}

fn print_file(rt: &(impl Print + Eprint), out: &[u8], n: usize) {
    if let Err(error) = rt.write_all(serializer::lent(out, 0, n)) {
        inputs::fail(rt, b"standard output", error);
    }
}
