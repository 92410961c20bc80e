// Opcode and type records: rows 3, 26 and 4, and what is read of them.
ghost use Rattle.std.specs.Prelude.{◌≡◌, ◌+◌, ◌/◌, ◌<◌, ◌≤◌, ◌==◌, length};
ghost use Rattle.laws.specs.Scan.{first_from};
ghost use Rattle.tables.specs.Records.{opcode_start, opcode_count, type_count, type_name_size, type_names, fixed_types, operand_count, type_code, width, prefix_op, prefixes_of, has_type_name, name_fits, size_fits, size_good, type_ok, type_fault};
ghost use Rattle.tables.specs.Records.{fields_ok, size_as, fault_as};
ghost use Rattle.tables.specs.mirror.Fields.{codes_fit, used_as, record_fits, flow_as};
ghost use Rattle.tables.specs.mirror.Rows.{rows};
ghost use Rattle.tables.specs.Check.{first_fault, check_types};

use crate::{
    FIXED_TYPES, Form, MOST_OPCODES, OLD_SIZE, OPCODE_SIZE, Prefixes, TYPE_NAME, TYPE_SIZE,
};
use refusal::{Fault, Refusal};

// The width of an operand of type code t at a scale, at most 8.
pub fn type_width(types: &[u8], t: u8, scale: u8) -> usize
    ensures { result ≡ width types.now t scale }
{
    let at = (t as usize) * TYPE_SIZE;
    if words::byte_at(types, at + 30) != 1 {
        return (scale as usize).min(8);
    }
    let size = words::byte_at(types, at + 28) as usize;
    if words::byte_at(types, at + 29) == 1 {
        (size * (scale as usize)).min(8)
    } else {
        size.min(8)
    }
}

// How many whole opcode records there are.
pub fn opcode_count(opcodes: &[u8]) -> usize
    ensures { result ≡ opcode_count opcodes.now }
{
    opcodes.len() / OPCODE_SIZE
}

// Where an opcode's record starts.
pub fn opcode_start(op: u8) -> usize
    ensures { result ≡ opcode_start op }
{
    (op as usize) * OPCODE_SIZE
}

// How many operands an opcode has.
pub fn operand_count(opcodes: &[u8], op: u8) -> u8
    ensures { result ≡ operand_count opcodes.now op }
{
    words::byte_at(opcodes, (op as usize) * OPCODE_SIZE + 41)
}

// The type code of an opcode's operand k; 0 behind the eighth.
pub fn type_code(opcodes: &[u8], op: u8, k: u8) -> u8
    ensures { result ≡ type_code opcodes.now op k }
{
    if 8 <= k {
        return 0;
    }
    words::byte_at(opcodes, (op as usize) * OPCODE_SIZE + (42 + (k as usize)))
}

// The first record marked Wide and the first marked ExtraWide.
pub fn prefix_ops(opcodes: &[u8]) -> Prefixes
    ensures { result ≡ prefixes_of opcodes.now }
{
    Prefixes {
        wide: prefix_op(opcodes, 1),
        extra_wide: prefix_op(opcodes, 2),
    }
}

// Opcode records: row 3, and 26.

// How many bytes a record of a form has.
pub fn opcode_size(form: Form) -> usize
    ensures { result ≡ size_as form }
{
    match form {
        Form::Old => OLD_SIZE,
        Form::New => OPCODE_SIZE,
    }
}

pub(crate) fn check_opcodes(opcodes: &[u8], types: &[u8], form: Form) -> Result<(), Refusal>
    ensures { result ≡ first_fault (fault_as form opcodes.now (type_count types.now)) (length opcodes.now / size_as form) }
{
    let known = types.len() / TYPE_SIZE;
    let size = opcode_size(form);
    let n = opcodes.len() / size;
    for i in 0..n {
        if let Some(fault) = opcode_fault(opcodes, i, known, form) {
            return Err(Refusal { fault, place: i });
        }
    }
    Ok(())
}

// What is wrong with an opcode record; known types exist. Its flow is judged last.
fn opcode_fault(opcodes: &[u8], op: usize, known: usize, form: Form) -> Option<Fault>
    requires { op < length opcodes.now / size_as form }
    ensures { result ≡ fault_as form opcodes.now known op }
{
    let at = op * opcode_size(form);
    if !record_ok(opcodes, at, known, form) {
        Some(Fault::BadOpcode)
    } else if !flow_fits(opcodes, at, form) {
        Some(Fault::BadFlow)
    } else {
        None
    }
}

// Whether the record at place at has good fields, and zeros behind what its form has.
#[tactic(auto, using(crate::proofs::Fields::zeros_part))]
fn record_ok(s: &[u8], at: usize, known: usize, form: Form) -> bool
    requires { at + size_as form ≤ length s.now }
    ensures { result ≡ record_fits form s.now at known }
{
    let from = at + used_size(form);
    let to = at + opcode_size(form);
    fields_ok(s, at, known) && crate::names::all_zero(&s[from..to])
}

// How many bytes of a record say something: all but the zeros at its end.
fn used_size(form: Form) -> usize
    ensures { result ≡ used_as form }
{
    match form {
        Form::Old => 50,
        Form::New => 54,
    }
}

// Whether each of the four bytes of the flow is one that there is; the old form has none.
#[tactic(auto, unfolding(crate::specs::Records::flow_fits))]
fn flow_fits(s: &[u8], at: usize, form: Form) -> bool
    requires { at + size_as form ≤ length s.now }
    ensures { result ≡ flow_as form s.now at }
{
    match form {
        Form::Old => true,
        Form::New => s[at + 50] <= 5 && s[at + 51] <= 1 && s[at + 52] <= 7 && s[at + 53] <= 1,
    }
}

// Whether the mark, the count and the codes of the record at place at are good; known types exist.
#[tactic(auto, using(crate::proofs::Fields::codes_zeros), unfolding(crate::specs::Records::fields_ok))]
fn fields_ok(s: &[u8], at: usize, known: usize) -> bool
    requires { at + 50 ≤ length s.now }
    ensures { result ≡ fields_ok s.now at known }
{
    let count = s[at + 41];
    s[at + 40] <= 2 && count <= 8 && codes_fit(s, at + 42, count, known)
}

// Whether the first count of the eight codes at place at are types' numbers and the others 0; the codes are read as one number.
fn codes_fit(s: &[u8], at: usize, count: u8, known: usize) -> bool
    requires { (at + 8 ≤ length s.now) × (count ≤ 8) }
    ensures { result ≡ codes_fit s.now at count known }
{
    let to = at + 8;
    let mut rest = words::u64_at(&s[at..to], 0);
    for k in 0..count {
        if known <= (rest % 256) as usize {
            return false;
        }
        rest /= 256;
    }
    rest == 0
}

// The first record with this prefix mark.
fn prefix_op(opcodes: &[u8], mark: u8) -> Option<u8>
    ensures { result ≡ prefix_op opcodes.now mark }
{
    let n = opcode_count(opcodes).min(MOST_OPCODES);
    for op in 0..n {
        if words::byte_at(opcodes, op * OPCODE_SIZE + 40) == mark {
            return Some(op as u8);
        }
    }
    None
}

// Type records: row 4.

pub(crate) fn check_types(types: &[u8]) -> Result<(), Refusal>
    ensures { result ≡ check_types (type_fault types.now) types.now }
{
    check_type_records(types, &TYPE_NAMES)
}

// The names of the first types, each filled up with zeros.
const TYPE_NAMES: [u8; 476] = *b"\
    Reg\0\0\0\0\0\0\0\0\0\0\0\0\0\0\0\0\0\0\0\0\0\0\0\0\0\
    RegOut\0\0\0\0\0\0\0\0\0\0\0\0\0\0\0\0\0\0\0\0\0\0\
    RegInOut\0\0\0\0\0\0\0\0\0\0\0\0\0\0\0\0\0\0\0\0\
    RegPair\0\0\0\0\0\0\0\0\0\0\0\0\0\0\0\0\0\0\0\0\0\
    RegOutPair\0\0\0\0\0\0\0\0\0\0\0\0\0\0\0\0\0\0\
    RegOutTriple\0\0\0\0\0\0\0\0\0\0\0\0\0\0\0\0\
    RegList\0\0\0\0\0\0\0\0\0\0\0\0\0\0\0\0\0\0\0\0\0\
    RegOutList\0\0\0\0\0\0\0\0\0\0\0\0\0\0\0\0\0\0\
    RegCount\0\0\0\0\0\0\0\0\0\0\0\0\0\0\0\0\0\0\0\0\
    Imm\0\0\0\0\0\0\0\0\0\0\0\0\0\0\0\0\0\0\0\0\0\0\0\0\0\
    Idx\0\0\0\0\0\0\0\0\0\0\0\0\0\0\0\0\0\0\0\0\0\0\0\0\0\
    UImm\0\0\0\0\0\0\0\0\0\0\0\0\0\0\0\0\0\0\0\0\0\0\0\0\
    NativeContextIndex\0\0\0\0\0\0\0\0\0\0\
    Flag8\0\0\0\0\0\0\0\0\0\0\0\0\0\0\0\0\0\0\0\0\0\0\0\
    Flag16\0\0\0\0\0\0\0\0\0\0\0\0\0\0\0\0\0\0\0\0\0\0\
    RuntimeId\0\0\0\0\0\0\0\0\0\0\0\0\0\0\0\0\0\0\0\
    IntrinsicId\0\0\0\0\0\0\0\0\0\0\0\0\0\0\0\0\0";

fn check_type_records(types: &[u8], names: &[u8]) -> Result<(), Refusal>
    requires { names.now ≡ rows type_name_size type_names }
    ensures { result ≡ check_types (type_fault types.now) types.now }
{
    let n = types.len() / TYPE_SIZE;
    for i in 0..n {
        if let Some(fault) = type_fault(types, i, names) {
            return Err(Refusal { fault, place: i });
        }
    }
    Ok(())
}

// What is wrong with type record t.
fn type_fault(types: &[u8], t: usize, names: &[u8]) -> Option<Fault>
    requires { (t < type_count types.now) × (names.now ≡ rows type_name_size type_names) }
    ensures { result ≡ type_fault types.now t }
{
    if type_ok(types, t, names) {
        None
    } else {
        Some(Fault::BadType)
    }
}

// Whether type record t is good but for the form of its name.
fn type_ok(types: &[u8], t: usize, names: &[u8]) -> bool
    requires { (t < type_count types.now) × (names.now ≡ rows type_name_size type_names) }
    ensures { result ≡ type_ok types.now t }
{
    let at = t * TYPE_SIZE;
    let size = words::byte_at(types, at + 28);
    let scalable = words::byte_at(types, at + 29);
    size_fits(size, scalable, words::byte_at(types, at + 30))
        && words::byte_at(types, at + 31) == 0
        && name_fits(types, t, names)
}

// Whether a size, scalable and present byte go together.
#[tactic(auto, unfolding(crate::specs::Records::size_fits))]
fn size_fits(size: u8, scalable: u8, present: u8) -> bool
    ensures { result ≡ size_fits size scalable present }
{
    match present {
        0 => size == 0 && scalable == 0,
        1 => size_good(size, scalable),
        _ => false,
    }
}

#[tactic(auto, unfolding(crate::specs::Records::size_good))]
fn size_good(size: u8, scalable: u8) -> bool
    ensures { result ≡ size_good size scalable }
{
    match size {
        4 => scalable == 0,
        1 | 2 => scalable <= 1,
        _ => false,
    }
}

// Whether type record t has its own name of the 17, or, behind them, none of these.
fn name_fits(types: &[u8], t: usize, names: &[u8]) -> bool
    requires { (t < type_count types.now) × (names.now ≡ rows type_name_size type_names) }
    ensures { result ≡ name_fits types.now t }
{
    let at = t * TYPE_SIZE;
    if t < FIXED_TYPES {
        has_type_name(types, at, names, t)
    } else {
        has_other_name(types, at, names)
    }
}

// Whether the type record at place at has none of the 17 names.
fn has_other_name(types: &[u8], at: usize, names: &[u8]) -> bool
    requires { names.now ≡ rows type_name_size type_names }
    ensures { result ≡ (first_from (has_type_name types.now at) 0 fixed_types == fixed_types) }
{
    for k in 0..FIXED_TYPES {
        if has_type_name(types, at, names, k) {
            return false;
        }
    }
    true
}

// Whether the type record at place at has name k of the 17, which is row k of the names.
fn has_type_name(s: &[u8], at: usize, names: &[u8], k: usize) -> bool
    requires { (k < fixed_types) × (names.now ≡ rows type_name_size type_names) }
    ensures { result ≡ has_type_name s.now at k }
{
    let row = k * 28;
    crate::names::name_is(s, at, TYPE_NAME, &names[row..row + 28])
}
