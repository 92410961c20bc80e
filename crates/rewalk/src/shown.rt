// Prints what the walk check says of the calls of walk-1.vec that have a name, and of the first ones of walk-handlers.vec.
use refusal::Refusal;
use walk::Walked;

// A call with a name: the name, the code if it is lent, and the answer. A call of another file has no number.
pub fn show(rt: &impl Print, number: Option<u64>, code: &[u8], walked: Result<Walked, Refusal>) {
    if let Some(name) = number.and_then(name_of) {
        let _ = print!(rt; "{name}");
        print_code(rt, code);
        print_walked(rt, walked);
    }
}

// Calls by their order in oracle/src/walk_recording.rs; of each row one of its four, of each switch under a prefix one of its three.
fn name_of(number: u64) -> Option<&'static str> {
    match number {
        1..=32 if number % 4 == 2 => Some("row"),
        33..=34 => Some("sample"),
        443 => Some("empty code"),
        1125..=1128 => Some("200 loops"),
        1129..=1131 => Some("switch of 4095 to 4097 entries"),
        1138..=1141 => Some("straight line"),
        1146..=1217 if number % 3 == 0 => Some("switch under a prefix"),
        1218..=1221 => Some("switch of 4096 and 4097 entries under a prefix"),
        _ => None,
    }
}

// One of the three calls of each row with handlers: the code, its records, and the answer.
pub fn show_with(
    rt: &impl Print,
    number: Option<u64>,
    code: &[u8],
    handlers: &[u8],
    walked: Result<Walked, Refusal>,
) {
    if number.is_some_and(|n| n <= 36 && n % 3 == 2) {
        let _ = print!(rt; "row");
        print_code(rt, code);
        print_records(rt, handlers);
        print_walked(rt, walked);
    }
}

// Start, end and handler of each.
fn print_records(rt: &impl Print, handlers: &[u8]) {
    for record in handlers.chunks_exact(12) {
        let start = words::u32_at(record, 0);
        let end = words::u32_at(record, 4);
        let handler = words::u32_at(record, 8);
        let _ = print!(rt; ", {start}-{end} to {handler}");
    }
}

// Its bytes, or, where they are many, how many.
fn print_code(rt: &impl Print, code: &[u8]) {
    let len = code.len();
    if 16 < len {
        let _ = print!(rt; " of {len} bytes");
        return;
    }
    for byte in code {
        let _ = print!(rt; " {byte:02x}");
    }
}

fn print_walked(rt: &impl Print, walked: Result<Walked, Refusal>) {
    let _ = match walked {
        Ok(Walked::Closed) => println!(rt; ": closed"),
        Ok(Walked::Leaves(steps, from)) => println!(rt; ": leaves steps {steps} from {from}"),
        Err(r) => {
            let number = r.fault.number();
            let place = r.place;
            println!(rt; ": refused {number} at {place}")
        }
    };
}
