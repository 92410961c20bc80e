// Prints the listing of object 0 of eight record files, or a refusal.
#![tactic(auto)]

use files::Program;

fn main(rt: HostRuntime) {
    files::run(&rt, Program::List);
}
