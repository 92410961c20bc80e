// Prints whether every walk through object 0 of eight record files stays within its listing, or a refusal.
#![tactic(auto)]

use files::Program;

fn main(rt: HostRuntime) {
    files::run(&rt, Program::Walk);
}
