// Names: row 2, and names as texts.
ghost use Rattle.std.specs.Prelude.{◌≡◌, ◌+◌, ◌-◌, ◌<◌, ◌≤◌, true, [], length, if◌then◌else◌};
ghost use Rattle.laws.specs.Scan.{first_from};
ghost use Rattle.tables.specs.Names.{is_name, not_name, name_ok, is_zero, name_at, is_named};
ghost use Rattle.tables.specs.mirror.Fields.{is_fine, Fine};
ghost use Rattle.text.specs.Put.{Put};
ghost use Rattle.tables.specs.Texts.{op_name, type_name, runtime_name, intrinsic_name};
ghost use Rattle.tables.specs.Check.{check_names, check_all_names};

use crate::{NAME, NAME_SIZE, OPCODE_NAME, OPCODE_SIZE, TYPE_NAME, TYPE_SIZE};
use refusal::{Fault, Refusal};

// Whether the field of w bytes at place at holds this name. A field behind the end is empty.
pub fn name_is(s: &[u8], at: usize, w: u8, name: &[u8]) -> bool
    ensures { result ≡ is_named s.now at w name.now }
{
    if s.len() <= at {
        return field_is(b"", 0, w, name);
    }
    let n = w as usize;
    if s.len() - at < n {
        return field_is(s, at, w, name);
    }
    let to = at + n;
    same_bytes(&s[at..to], name)
}

// The name in the field of w bytes at place at.
pub fn name_at<'a>(s: &'a [u8], at: usize, w: u8) -> &'a [u8]
    ensures { result.now ≡ name_at s.now at w }
{
    if s.len() <= at {
        return &s[0..0];
    }
    let to = at + w as usize;
    let e = zero_from(s, at, to);
    &s[at..e]
}

// An opcode's plain name.
pub fn op_name<'a>(opcodes: &'a [u8], op: u8) -> &'a [u8]
    ensures { result.now ≡ op_name opcodes.now op }
{
    name_at(opcodes, (op as usize) * OPCODE_SIZE, OPCODE_NAME)
}

pub fn type_name<'a>(types: &'a [u8], t: u8) -> &'a [u8]
    ensures { result.now ≡ type_name types.now t }
{
    name_at(types, (t as usize) * TYPE_SIZE, TYPE_NAME)
}

// The name of a runtime function; its number, if it has no name.
pub fn put_runtime_name(out: &mut [u8], at: usize, runtime: &[u8], id: u32) -> usize
    ensures { Put out.old at (runtime_name runtime.now id) out.new result }
{
    if (id as usize) < runtime.len() / NAME_SIZE {
        text::put_bytes(out, at, name_at(runtime, (id as usize) * NAME_SIZE, NAME))
    } else {
        text::put_decimal(out, at, id as u64)
    }
}

// The name of an intrinsic; `intrinsic` and its number, if it has no name.
pub fn put_intrinsic_name(out: &mut [u8], at: usize, intrinsic: &[u8], id: u32) -> usize
    ensures { Put out.old at (intrinsic_name intrinsic.now id) out.new result }
{
    if (id as usize) < intrinsic.len() / NAME_SIZE {
        text::put_bytes(out, at, name_at(intrinsic, (id as usize) * NAME_SIZE, NAME))
    } else {
        let p = text::put_bytes(out, at, b"intrinsic");
        text::put_decimal(out, p, id as u64)
    }
}

// Names: row 2.

pub(crate) fn check_all_names(
    opcodes: &[u8],
    types: &[u8],
    runtime: &[u8],
    intrinsic: &[u8],
) -> Result<(), Refusal>
    ensures { result ≡ check_all_names opcodes.now types.now runtime.now intrinsic.now }
{
    check_names(opcodes, OPCODE_SIZE, OPCODE_NAME)?;
    check_names(types, TYPE_SIZE, TYPE_NAME)?;
    check_names(runtime, NAME_SIZE, NAME)?;
    check_names(intrinsic, NAME_SIZE, NAME)
}

// The first of the records whose name, its first w bytes, is bad.
pub(crate) fn check_names(s: &[u8], size: usize, w: u8) -> Result<(), Refusal>
    requires { (0 < size) × (w ≤ size) }
    ensures { result ≡ check_names size w s.now }
{
    let n = s.len() / size;
    for i in 0..n {
        if !name_ok(s, i * size, w) {
            return refusal::at_record(Fault::BadName, i, n);
        }
    }
    Ok(())
}

// Whether the field of w bytes at place at has a good name.
fn name_ok(s: &[u8], at: usize, w: u8) -> bool
    requires { at + w ≤ length s.now }
    ensures { result ≡ name_ok s.now at w }
{
    is_plain(s, at, w) || name_then_zeros(s, at, w)
}

// The same, byte by byte.
fn name_then_zeros(s: &[u8], at: usize, w: u8) -> bool
    requires { at + w ≤ length s.now }
    ensures { result ≡ name_ok s.now at w }
{
    let to = at + w as usize;
    let e = name_end(s, at, to);
    at < e && all_zero(&s[e..to])
}

// A field that is told to have a good name by many bytes at a time. Few names that are good are not told so.
fn is_plain(s: &[u8], at: usize, w: u8) -> bool
    requires { at + w ≤ length s.now }
    ensures { result ≡ true → name_ok s.now at w ≡ true }
{
    match w {
        NAME => is_plain_in::<64>(s, at),
        OPCODE_NAME => is_plain_in::<40>(s, at),
        _ => false,
    }
}

// Of a field of W bytes: a name of at most 32, or of more that ends before the field's last byte.
fn is_plain_in<const W: usize>(s: &[u8], at: usize) -> bool
    requires { (33 ≤ W) × (W ≤ 64) × (at + W ≤ length s.now) }
    ensures { result ≡ true → name_ok s.now at W ≡ true }
{
    let from = at + 32;
    let to = at + W;
    s[at] != 0
        && fine_bytes(s, at) == 32
        && (all_zero(&s[from..to]) || fine_bytes(s, to - 33) == 32 && s[to - 1] == 0)
}

// How many of the 32 bytes from place from are fine before the next. The sum has no branch, so that sixteen bytes are added at once.
fn fine_bytes(s: &[u8], from: usize) -> u8
    requires { from + 33 ≤ length s.now }
    ensures { result ≡ 32 → Fine s.now from (from + 32) }
{
    let mut sum: u8 = 0;
    for i in 0..32 {
        let k = from + i;
        sum += fine(s[k], s[k + 1]);
    }
    sum
}

// 1 for a byte b that may stand before c: a character of a name, or a zero before a zero.
#[tactic(auto, unfolding(crate::specs::mirror::Fields::is_fine))]
fn fine(b: u8, c: u8) -> u8
    ensures { result ≡ (if is_fine b c then 1 else 0) }
{
    (is_name(b) || b.max(c) == 0) as u8
}

// A letter, a digit or an underscore. By differences that wrap both cases of a letter are one comparison.
#[tactic(auto, unfolding(laws::specs::Scan::within))]
fn is_name(b: u8) -> bool
    ensures { result ≡ is_name b }
{
    b.wrapping_sub(97) < 26 || b.wrapping_sub(65) < 26 || b.wrapping_sub(48) < 10 || b == 95
}

// Where the bytes of a name from place from on end, at to at the latest.
fn name_end(s: &[u8], from: usize, to: usize) -> usize
    requires { from ≤ to }
    ensures { result ≡ first_from (not_name s.now) from (to - from) }
{
    for i in from..to {
        if !is_name(words::byte_at(s, i)) {
            return i;
        }
    }
    to
}

// Whether a field has only zeros: eight bytes are tested at once, the last eight once more.
// The last word overlaps the one before it, which a chain over words would not say more plainly.
pub(crate) fn all_zero(field: &[u8]) -> bool
    ensures { result ≡ is_named field.now 0 (length field.now) [] }
{
    let n = field.len();
    if n < 8 {
        return words::le_at(field, 0, n) == 0;
    }
    let mut i = 0;
    while 8 < n - i {
        if words::u64_at(field, i) != 0 {
            return false;
        }
        i += 8;
    }
    words::u64_at(field, n - 8) == 0
}

// Whether a field has the bytes of another: eight are compared at once, the last eight once more.
// The last word overlaps the one before it, as in `all_zero`.
fn same_bytes(a: &[u8], b: &[u8]) -> bool
    ensures { result ≡ is_named a.now 0 (length a.now) b.now }
{
    let n = a.len();
    if n < 8 {
        return words::le_at(a, 0, n) == words::le_at(b, 0, n);
    }
    let mut i = 0;
    while 8 < n - i {
        if words::u64_at(a, i) != words::u64_at(b, i) {
            return false;
        }
        i += 8;
    }
    words::u64_at(a, n - 8) == words::u64_at(b, n - 8)
}

// Whether the field of w bytes at place at holds this name, which may be shorter, byte by byte.
fn field_is(s: &[u8], at: usize, w: u8, name: &[u8]) -> bool
    requires { at ≤ length s.now }
    ensures { result ≡ is_named s.now at w name.now }
{
    for i in 0..w as usize {
        if words::byte_at(s, at + i) != words::byte_at(name, i) {
            return false;
        }
    }
    true
}

// Where the bytes from place from on that are not zero end, at to at the latest.
fn zero_from(s: &[u8], from: usize, to: usize) -> usize
    requires { from ≤ to }
    ensures { result ≡ first_from (is_zero s.now) from (to - from) }
{
    for i in from..to {
        if words::byte_at(s, i) == 0 {
            return i;
        }
    }
    to
}
