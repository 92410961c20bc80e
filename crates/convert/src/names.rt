// 01's names of instructions that do not go straight on, from its lists in "Walks" and the Rust's in `jump_target` and `jump_table`, and the flow of each.
ghost use Rattle.std.specs.Prelude.{◌≡◌, ◌+◌, ◌%◌, ◌<◌};
ghost use Rattle.tables.specs.Records.{opcode_name_size};
ghost use Rattle.tables.specs.mirror.Rows.{rows};
ghost use Rattle.flow.specs.Flow.{plain};
ghost use Rattle.convert.specs.Names.{flow_names, has_flow_name, flow_number, flow_by};
ghost use Rattle.convert.specs.Convert.{named_flow};
ghost use Rattle.convert.specs.mirror.Index.{place_of, number_as, Indexed};

use flow::{Flow, Kind};

// The flow of the name that the opcode record at place at has; with none of the 37 it goes on.
pub(crate) fn named_flow(opcodes: &[u8], at: usize) -> Flow
    ensures { result ≡ named_flow opcodes.now at }
{
    match flow_number(opcodes, at) {
        Some(k) => flow_by(k),
        None => plain(Kind::On, false),
    }
}

// The flow of a number.
#[tactic(auto, unfolding(crate::specs::Names::flow_by, crate::specs::Names::flows))]
fn flow_by(k: u8) -> Flow
    ensures { result ≡ flow_by k }
{
    match k {
        0..=4 => plain(Kind::Ends, false),
        5 => plain(Kind::Jumps, false),
        6 => plain(Kind::Jumps, true),
        7 => plain(Kind::JumpsBack, false),
        8 => plain(Kind::JumpsBack, true),
        9..=21 => plain(Kind::Branches, false),
        22..=34 => plain(Kind::Branches, true),
        35 => Flow {
            kind: Kind::Switch,
            pool: false,
            first: 0,
            base: true,
        },
        36 => Flow {
            kind: Kind::Switch,
            pool: false,
            first: 1,
            base: false,
        },
        _ => plain(Kind::On, false),
    }
}

fn plain(kind: Kind, pool: bool) -> Flow
    ensures { result ≡ plain kind pool }
{
    Flow {
        kind,
        pool,
        first: 0,
        base: false,
    }
}

// The number of the first of the 37 names that the opcode record at place at has.
fn flow_number(opcodes: &[u8], at: usize) -> Option<u8>
    ensures { result ≡ number_as (flow_number opcodes.now at) }
{
    number_by(opcodes, at, &FLOW_NAMES, &FLOW_INDEX)
}

// The 37 names, each filled up with zeros.
const FLOW_NAMES: [u8; 1480] = *b"\
    Return\0\0\0\0\0\0\0\0\0\0\0\0\0\0\0\0\0\0\0\0\0\0\0\0\0\0\0\0\0\0\0\0\0\0\
    SuspendGenerator\0\0\0\0\0\0\0\0\0\0\0\0\0\0\0\0\0\0\0\0\0\0\0\0\
    Throw\0\0\0\0\0\0\0\0\0\0\0\0\0\0\0\0\0\0\0\0\0\0\0\0\0\0\0\0\0\0\0\0\0\0\0\
    ReThrow\0\0\0\0\0\0\0\0\0\0\0\0\0\0\0\0\0\0\0\0\0\0\0\0\0\0\0\0\0\0\0\0\0\
    Abort\0\0\0\0\0\0\0\0\0\0\0\0\0\0\0\0\0\0\0\0\0\0\0\0\0\0\0\0\0\0\0\0\0\0\0\
    Jump\0\0\0\0\0\0\0\0\0\0\0\0\0\0\0\0\0\0\0\0\0\0\0\0\0\0\0\0\0\0\0\0\0\0\0\0\
    JumpConstant\0\0\0\0\0\0\0\0\0\0\0\0\0\0\0\0\0\0\0\0\0\0\0\0\0\0\0\0\
    JumpLoop\0\0\0\0\0\0\0\0\0\0\0\0\0\0\0\0\0\0\0\0\0\0\0\0\0\0\0\0\0\0\0\0\
    JumpLoopConstant\0\0\0\0\0\0\0\0\0\0\0\0\0\0\0\0\0\0\0\0\0\0\0\0\
    JumpIfTrue\0\0\0\0\0\0\0\0\0\0\0\0\0\0\0\0\0\0\0\0\0\0\0\0\0\0\0\0\0\0\
    JumpIfFalse\0\0\0\0\0\0\0\0\0\0\0\0\0\0\0\0\0\0\0\0\0\0\0\0\0\0\0\0\0\
    JumpIfToBooleanTrue\0\0\0\0\0\0\0\0\0\0\0\0\0\0\0\0\0\0\0\0\0\
    JumpIfToBooleanFalse\0\0\0\0\0\0\0\0\0\0\0\0\0\0\0\0\0\0\0\0\
    JumpIfNull\0\0\0\0\0\0\0\0\0\0\0\0\0\0\0\0\0\0\0\0\0\0\0\0\0\0\0\0\0\0\
    JumpIfNotNull\0\0\0\0\0\0\0\0\0\0\0\0\0\0\0\0\0\0\0\0\0\0\0\0\0\0\0\
    JumpIfUndefined\0\0\0\0\0\0\0\0\0\0\0\0\0\0\0\0\0\0\0\0\0\0\0\0\0\
    JumpIfUndefinedOrNull\0\0\0\0\0\0\0\0\0\0\0\0\0\0\0\0\0\0\0\
    JumpIfNotUndefined\0\0\0\0\0\0\0\0\0\0\0\0\0\0\0\0\0\0\0\0\0\0\
    JumpIfJSReceiver\0\0\0\0\0\0\0\0\0\0\0\0\0\0\0\0\0\0\0\0\0\0\0\0\
    JumpIfNotHole\0\0\0\0\0\0\0\0\0\0\0\0\0\0\0\0\0\0\0\0\0\0\0\0\0\0\0\
    JumpIfReferenceError\0\0\0\0\0\0\0\0\0\0\0\0\0\0\0\0\0\0\0\0\
    JumpIfNotReferenceError\0\0\0\0\0\0\0\0\0\0\0\0\0\0\0\0\0\
    JumpIfTrueConstant\0\0\0\0\0\0\0\0\0\0\0\0\0\0\0\0\0\0\0\0\0\0\
    JumpIfFalseConstant\0\0\0\0\0\0\0\0\0\0\0\0\0\0\0\0\0\0\0\0\0\
    JumpIfToBooleanTrueConstant\0\0\0\0\0\0\0\0\0\0\0\0\0\
    JumpIfToBooleanFalseConstant\0\0\0\0\0\0\0\0\0\0\0\0\
    JumpIfNullConstant\0\0\0\0\0\0\0\0\0\0\0\0\0\0\0\0\0\0\0\0\0\0\
    JumpIfNotNullConstant\0\0\0\0\0\0\0\0\0\0\0\0\0\0\0\0\0\0\0\
    JumpIfUndefinedConstant\0\0\0\0\0\0\0\0\0\0\0\0\0\0\0\0\0\
    JumpIfUndefinedOrNullConstant\0\0\0\0\0\0\0\0\0\0\0\
    JumpIfNotUndefinedConstant\0\0\0\0\0\0\0\0\0\0\0\0\0\0\
    JumpIfJSReceiverConstant\0\0\0\0\0\0\0\0\0\0\0\0\0\0\0\0\
    JumpIfNotHoleConstant\0\0\0\0\0\0\0\0\0\0\0\0\0\0\0\0\0\0\0\
    JumpIfReferenceErrorConstant\0\0\0\0\0\0\0\0\0\0\0\0\
    JumpIfNotReferenceErrorConstant\0\0\0\0\0\0\0\0\0\
    SwitchOnSmiNoFeedback\0\0\0\0\0\0\0\0\0\0\0\0\0\0\0\0\0\0\0\
    SwitchOnGeneratorState\0\0\0\0\0\0\0\0\0\0\0\0\0\0\0\0\0\0";

// The number of each name at its place (`place_of`): no two names have one. Elsewhere %, which is 37, no name's number.
const FLOW_INDEX: [u8; 256] = *b"\
    %%%%%%%%%%\x1d%%%%%\
    %%%\x1e%\x22%\x18%%%\x01%%%%\
    %\x19%%%%\x21%%\x12%%%%%%\
    %%%%%%%%%%%%%%%%\
    %\x13%%%%%%\x0e\x0f%%%%%%\
    %\x08%%\x03%%%%%%%%%%%\
    %%%%%%%%%%%%%\x05%\x04\
    %%\x02%\x00%%%%%%%%%%%\
    %%%%%%%%%%%%%%%%\
    %%%%%%%\x10\x1f%%%\x24%%%\
    %%%%%\x11\x15%\x23%%\x17%\x0c%%\
    %%\x14%%\x20\x0b\x1c%%%%\x1b%%%\
    %\x16%%\x1a%%%%%%%%%\x0a%\
    %%%%%%%%%%%%%\x07%\x09\
    \x06%\x0d%%%%%%%%%%%%%\
    %%%%%%%%%%%%%%%%";

// The number by both tables: at most one name is compared, and for most records none.
fn number_by(opcodes: &[u8], at: usize, names: &[u8], index: &[u8; 256]) -> Option<u8>
    requires { (names.now ≡ rows opcode_name_size flow_names) × Indexed index.now }
    ensures { result ≡ number_as (flow_number opcodes.now at) }
{
    let p = place_of(opcodes, at);
    let k = index[p];
    if k < 37 && has_flow_name(opcodes, at, names, k) {
        Some(k)
    } else {
        None
    }
}

// The place of the name of the record at place at: the sum of five of its bytes.
#[tactic(auto, unfolding(crate::specs::mirror::Index::place_of))]
fn place_of(opcodes: &[u8], at: usize) -> usize
    ensures { result ≡ place_of opcodes.now at }
{
    if opcodes.len() <= at {
        return 0;
    }
    if opcodes.len() - at < 25 {
        return sum_of(
            words::byte_at(opcodes, at + 2),
            words::byte_at(opcodes, at + 7),
            words::byte_at(opcodes, at + 12),
            words::byte_at(opcodes, at + 17),
            words::byte_at(opcodes, at + 24),
        );
    }
    sum_of(
        opcodes[at + 2],
        opcodes[at + 7],
        opcodes[at + 12],
        opcodes[at + 17],
        opcodes[at + 24],
    )
}

fn sum_of(a: u8, b: u8, c: u8, d: u8, e: u8) -> usize
    ensures { result ≡ (a + b + c + d + e) % 256 }
{
    (a as usize + b as usize + c as usize + d as usize + e as usize) % 256
}

// Whether the opcode record at place at has name k, which is row k of the names.
fn has_flow_name(opcodes: &[u8], at: usize, names: &[u8], k: u8) -> bool
    requires { (k < 37) × (names.now ≡ rows opcode_name_size flow_names) }
    ensures { result ≡ has_flow_name opcodes.now at k }
{
    let row = k as usize * 40;
    tables::name_is(opcodes, at, tables::OPCODE_NAME, &names[row..row + 40])
}
