// The programs on files at their limit, beyond it, missing, or no files at all, on names of both kinds, on codes of document 01, on empty code, on refused records, on
// handler records and on older opcode files. The file `args` has the words of each case one behind the other; where a file cannot be read nothing is printed, and so for
// a wrong number of arguments. What a conversion is refused with goes to standard error.
#![tactic(auto)]

use files::Program;

// Each case of the programs that list and walk: what it is, the number of its first argument, and the number behind its last.
const CASES: [(Program, &str, u8, u8); 43] = [
    (
        Program::List,
        "list: the usual names, not as arguments",
        1,
        1,
    ),
    (Program::List, "list: the usual names", 1, 9),
    (Program::List, "list: payload of 65,536 bytes", 9, 17),
    (Program::List, "list: payload of 65,537 bytes", 17, 25),
    (Program::List, "list: opcodes of 65,537 bytes", 25, 33),
    (Program::List, "list: payload missing", 33, 41),
    (Program::List, "list: payload a folder", 41, 49),
    (Program::List, "list: a switch", 81, 89),
    (Program::List, "list: opcode 4 with prefix byte 3", 89, 97),
    (Program::List, "list: slot 4 of kind 6", 97, 105),
    (Program::List, "list: empty code", 105, 113),
    (Program::List, "list: length 11, in no run", 113, 121),
    (
        Program::Walk,
        "walk: the usual names, not as arguments",
        1,
        1,
    ),
    (Program::Walk, "walk: the usual names", 1, 9),
    (Program::Walk, "walk: payload of 65,536 bytes", 9, 17),
    (Program::Walk, "walk: payload of 65,537 bytes", 17, 25),
    (Program::Walk, "walk: opcodes of 65,537 bytes", 25, 33),
    (Program::Walk, "walk: payload missing", 33, 41),
    (Program::Walk, "walk: payload a folder", 41, 49),
    // Walks that leave and walks that stay, and refusals.
    (Program::Walk, "walk: 05 01", 49, 57),
    (Program::Walk, "walk: 00 05 03 00 02", 57, 65),
    (Program::Walk, "walk: 06 02 0b", 65, 73),
    (Program::Walk, "walk: 06 03 0b", 73, 81),
    (Program::Walk, "walk: a switch", 81, 89),
    (Program::Walk, "walk: opcode 4 with prefix byte 3", 89, 97),
    (Program::Walk, "walk: slot 4 of kind 6", 97, 105),
    (Program::Walk, "walk: empty code", 105, 113),
    (Program::Walk, "walk: length 11, in no run", 113, 121),
    // One code behind the option with each file of handler records.
    (Program::Walk, "walk: 06 02 0b, a handler at 1", 121, 131),
    (
        Program::Walk,
        "walk: 06 02 0b, handlers at 1 and at 2, the last one at 2",
        131,
        141,
    ),
    (
        Program::Walk,
        "walk: 06 02 0b, a handler at 1 of the Return alone",
        141,
        151,
    ),
    (
        Program::Walk,
        "walk: 06 02 0b, the second record ends at 4",
        151,
        161,
    ),
    (
        Program::Walk,
        "walk: 06 02 0b, 13 bytes of handlers",
        161,
        171,
    ),
    (
        Program::Walk,
        "walk: 06 02 0b, handlers of 65,537 bytes",
        171,
        181,
    ),
    (
        Program::Walk,
        "walk: 06 02 0b, no handlers in the file",
        181,
        191,
    ),
    (Program::Walk, "walk: 06 02 0b, handlers missing", 191, 201),
    (Program::Walk, "walk: 06 02 0b, handlers a folder", 201, 211),
    (
        Program::Walk,
        "walk: a handler at 1, the usual names not as arguments",
        121,
        123,
    ),
    // As many arguments as no program takes, and the listing program with the other's option.
    (Program::List, "list: seven files", 1, 8),
    (Program::Walk, "walk: nine files", 1, 10),
    (Program::Walk, "walk: the option alone", 121, 122),
    (
        Program::Walk,
        "walk: the option, its file and seven files",
        121,
        130,
    ),
    (
        Program::List,
        "list: the option, its file and eight files",
        121,
        131,
    ),
];

// The same of the program that converts.
const CONVERSIONS: [(&str, u8, u8); 5] = [
    ("convert: new", 211, 214),
    ("convert: old", 214, 217),
    ("convert: old, a flow that is not its name's", 217, 220),
    ("convert: new, records of 72 bytes", 220, 223),
    ("convert: no such way", 223, 226),
];

fn main(rt: HostRuntime) {
    for (program, words, from, to) in CASES {
        title(&rt, words);
        files::run_on(&rt, program, from, to);
    }
    title(&rt, "list: all arguments");
    files::run(&rt, Program::List);
    title(&rt, "walk: all arguments");
    files::run(&rt, Program::Walk);
    for (words, from, to) in CONVERSIONS {
        title(&rt, words);
        convert_files::run_on(&rt, from, to);
    }
}

fn title(rt: &impl Print, words: &str) {
    let _ = println!(rt; "{words}");
}
