// Prints an opcode file with the other form of records.
#![tactic(auto)]

fn main(rt: HostRuntime) {
    convert_files::run(&rt);
}
