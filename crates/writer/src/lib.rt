// An instruction written: scale, opcode and operands in, bytes out. It is the way back of crate bytecode's `decode`.
#![tactic(auto)]

ghost use Rattle.std.specs.Prelude.{◌≡◌, true, false, cond, ◌&&◌, ◌%◌, ◌^◌, ◌≤◌, min, eqb, leb, ◌-ℤ◌, take, get_or, None};
ghost use Rattle.words.specs.Le.{le_bytes};
ghost use Rattle.words.specs.Signed.{modulo};
ghost use Rattle.text.specs.Put.{Put};
ghost use Rattle.text.specs.Written.{put_text};
ghost use Rattle.text.specs.Numbers.{WrittenAs};
ghost use Rattle.text.specs.mirror.Written.{WrittenBy};
ghost use Rattle.flow.specs.Opcodes.{opcodes_of, prefix_with};
ghost use Rattle.tables.specs.Records.{width};
ghost use Rattle.operand.specs.Operand.{is_list};
ghost use Rattle.decoder.specs.Decode.{operand_types, record_of};
ghost use Rattle.writer.specs.Bytes.{stored_of, count_of, operand_bytes, bytes_by, head_bytes};
ghost use Rattle.writer.specs.Write.{same_operand, reads_back, operands_ok, scale_ok, opcode_fits, given, all_hold, check_write, check_scale, written_bytes, write_call, ReadsBack};

use decoder::Instr;
use operand::Operand;
use refusal::{Fault, Refusal};

// The bytes of an instruction, from the start of the buffer on; neither its offset nor its end is read. Rows 1 to 5, then 21 to 23 and 17; after a
// refusal the buffer is as it was.
pub fn write(
    out: &mut [u8],
    opcodes: &[u8],
    types: &[u8],
    layout: &[u8],
    instr: Instr,
) -> Result<usize, Refusal>
    ensures { WrittenAs (write_call opcodes.now types.now layout.now instr out.old) result out.new
        × ReadsBack opcodes.now types.now layout.now instr result out.new }
{
    tables::check_table(opcodes, types, b"", b"", layout)?;
    let start = tables::layout_of(layout).frame.reg_file_start;
    check_write(opcodes, types, start, instr)?;
    write_unchecked(out, opcodes, types, start, instr)
}

// Rows 1 to 5 and 21: what is wrong before an opcode is looked at.
pub fn check_scale(opcodes: &[u8], types: &[u8], layout: &[u8], scale: u8) -> Result<(), Refusal>
    ensures { result ≡ check_scale opcodes.now types.now layout.now scale }
{
    tables::check_table(opcodes, types, b"", b"", layout)?;
    refusal::refuse_unless(scale_ok(opcodes, scale), Fault::WrongScale)
}

// Rows 21 to 23.
fn check_write(opcodes: &[u8], types: &[u8], start: i32, instr: Instr) -> Result<(), Refusal>
    ensures { result ≡ check_write (opcodes_of opcodes.now) types.now start instr }
{
    refusal::refuse_unless(scale_ok(opcodes, instr.scale), Fault::WrongScale)?;
    refusal::refuse_unless(
        opcode_fits(opcodes, instr.scale, instr.opcode),
        Fault::WrongOpcode,
    )?;
    refusal::refuse_unless(
        operands_ok(opcodes, types, start, instr),
        Fault::WrongOperands,
    )
}

// Whether a scale is one, and has its prefix.
#[tactic(auto, unfolding(crate::specs::Write::scale_ok))]
fn scale_ok(opcodes: &[u8], scale: u8) -> bool
    ensures { result ≡ scale_ok (opcodes_of opcodes.now) scale }
{
    let prefixes = tables::prefix_ops(opcodes);
    match scale {
        1 => true,
        2 => prefixes.wide.is_some(),
        4 => prefixes.extra_wide.is_some(),
        _ => false,
    }
}

// Whether there is such an opcode, which at scale 1 is no prefix opcode.
#[tactic(auto, unfolding(crate::specs::Write::opcode_fits))]
fn opcode_fits(opcodes: &[u8], scale: u8, opcode: u8) -> bool
    ensures { result ≡ opcode_fits (opcodes_of opcodes.now) scale opcode }
{
    let prefixes = tables::prefix_ops(opcodes);
    let is_prefix = prefixes.wide == Some(opcode) || prefixes.extra_wide == Some(opcode);
    (opcode as usize) < tables::opcode_count(opcodes) && (scale != 1 || !is_prefix)
}

// Whether the operands are as many as the opcode takes, and each reads back.
fn operands_ok(opcodes: &[u8], types: &[u8], start: i32, instr: Instr) -> bool
    ensures { result ≡ (leb instr.count 8 && all_hold (take instr.count instr.operands) && operands_ok types.now instr.scale start false
        (operand_types (opcodes_of opcodes.now) instr.opcode) (given instr)) }
{
    if instr.count > 8 {
        return false;
    }
    let n = tables::operand_count(opcodes, instr.opcode).min(8);
    let mut j: usize = 0;
    let mut before: u8 = 0;
    for k in 0..n {
        let t = tables::type_code(opcodes, instr.opcode, k);
        if !operand::counted(t, before) {
            let Some(op) = place_at(&instr, j) else {
                return false;
            };
            if !reads_back(types, instr.scale, start, t, op) {
                return false;
            }
            j += 1;
        }
        before = t;
    }
    j == instr.count
}

// What place j of the given ones holds: none behind the last.
fn place_at(instr: &Instr, j: usize) -> Option<Operand>
    requires { instr.now.count ≤ 8 }
    ensures { result ≡ (get_or (take instr.now.count instr.now.operands) j (record_of None)).operand }
{
    if j < instr.count {
        instr.operands[j].operand
    } else {
        None
    }
}

// Whether an operand of type code t reads back as it is.
fn reads_back(types: &[u8], scale: u8, start: i32, t: u8, op: Operand) -> bool
    ensures { result ≡ reads_back types.now scale start t op }
{
    let w = tables::type_width(types, t, scale);
    let value = low_bytes(stored_of(start, op), w);
    let count = list_count(types, scale, t, op);
    same_operand(operand::interpret_operand(t, value, w, count, start), op)
}

// The count that a list of type code t reads back, else 0.
fn list_count(types: &[u8], scale: u8, t: u8, op: Operand) -> u32
    ensures { result ≡ cond (is_list t) (count_of op % 256 ^ width types.now 8 scale % 2 ^ 32) 0 }
{
    if !operand::is_list(t) {
        return 0;
    }
    let w = tables::type_width(types, 8, scale);
    (low_bytes(count_of(op) as u64, w) % 4294967296) as u32
}

// The same kind and the same numbers. What a derived `==` says would have to be shown for each pair of kinds.
fn same_operand(a: Operand, b: Operand) -> bool
    ensures { result ≡ same_operand a b }
{
    let (a, b) = (Some(a), Some(b));
    operand::kind_number(a) == operand::kind_number(b)
        && operand::first_number(a) == operand::first_number(b)
        && operand::second_number(a) == operand::second_number(b)
}

// The bytes of an instruction that is accepted.
fn write_unchecked(
    out: &mut [u8],
    opcodes: &[u8],
    types: &[u8],
    start: i32,
    instr: Instr,
) -> Result<usize, Refusal>
    requires { (instr.count ≤ 8) × (all_hold (take instr.count instr.operands) ≡ true) }
    ensures { WrittenBy (put_text (written_bytes (opcodes_of opcodes.now) types.now start instr) out.old)
        result out.new }
{
    let size = put_instr(&mut out[0..0], opcodes, types, start, instr);
    if size <= out.len() {
        Ok(put_instr(out, opcodes, types, start, instr))
    } else {
        Err(Refusal {
            fault: Fault::ShortOutput,
            place: 0,
        })
    }
}

// The bytes of an instruction.
#[tactic(auto, unfolding(crate::specs::Bytes::instr_bytes))]
fn put_instr(out: &mut [u8], opcodes: &[u8], types: &[u8], start: i32, instr: Instr) -> usize
    requires { (instr.count ≤ 8) × (all_hold (take instr.count instr.operands) ≡ true) }
    ensures { Put out.old 0 (written_bytes (opcodes_of opcodes.now) types.now start instr) out.new result }
{
    let p = put_head(out, opcodes, instr.scale, instr.opcode);
    put_operands(out, p, opcodes, types, start, instr)
}

// The prefix, if any, and the opcode.
fn put_head(out: &mut [u8], opcodes: &[u8], scale: u8, opcode: u8) -> usize
    ensures { Put out.old 0 (head_bytes (opcodes_of opcodes.now) scale opcode) out.new result }
{
    let Some(prefix) = prefix_of(opcodes, scale) else {
        return text::put_byte(out, 0, opcode);
    };
    let p = text::put_byte(out, 0, prefix);
    text::put_byte(out, p, opcode)
}

// The prefix opcode of a scale.
fn prefix_of(opcodes: &[u8], scale: u8) -> Option<u8>
    ensures { result ≡ cond (eqb scale 1) None (cond (eqb scale 2) (prefix_with (opcodes_of opcodes.now) 1) (prefix_with (opcodes_of opcodes.now) 2)) }
{
    let prefixes = tables::prefix_ops(opcodes);
    match scale {
        1 => None,
        2 => prefixes.wide,
        _ => prefixes.extra_wide,
    }
}

// The operands, by the opcode's types. A RegCount that the list before it has written takes none.
fn put_operands(
    out: &mut [u8],
    at: usize,
    opcodes: &[u8],
    types: &[u8],
    start: i32,
    instr: Instr,
) -> usize
    requires { (instr.count ≤ 8) × (all_hold (take instr.count instr.operands) ≡ true) }
    ensures { Put out.old at (bytes_by types.now instr.scale start false
        (operand_types (opcodes_of opcodes.now) instr.opcode) (given instr)) out.new result }
{
    let n = tables::operand_count(opcodes, instr.opcode).min(8);
    let mut p = text::saturating_add(at, 0);
    let mut j: usize = 0;
    let mut before: u8 = 0;
    for k in 0..n {
        let t = tables::type_code(opcodes, instr.opcode, k);
        if !operand::counted(t, before) {
            let Some(op) = place_at(&instr, j) else {
                return p;
            };
            p = put_operand(out, p, types, instr.scale, start, t, op);
            j += 1;
        }
        before = t;
    }
    p
}

// The bytes of an operand of type code t: a list's count stands behind its register.
fn put_operand(
    out: &mut [u8],
    at: usize,
    types: &[u8],
    scale: u8,
    start: i32,
    t: u8,
    op: Operand,
) -> usize
    ensures { Put out.old at (operand_bytes types.now scale start t op) out.new result }
{
    let p = put_number(
        out,
        at,
        stored_of(start, op),
        tables::type_width(types, t, scale),
    );
    if !operand::is_list(t) {
        return p;
    }
    put_number(
        out,
        p,
        count_of(op) as u64,
        tables::type_width(types, 8, scale),
    )
}

// w bytes of n, at most eight, the least first.
fn put_number(out: &mut [u8], at: usize, n: u64, w: usize) -> usize
    ensures { Put out.old at (le_bytes (min w 8) n) out.new result }
{
    text::put_bytes(out, at, &n.to_le_bytes()[..w.min(8)])
}

// The low w bytes of n.
fn low_bytes(n: u64, w: usize) -> u64
    ensures { result ≡ n % 256 ^ min w 8 }
{
    if w < 8 { n % 256u64.pow(w as u32) } else { n }
}

// The number that stands for an operand.
fn stored_of(start: i32, op: Operand) -> u64
    ensures { result ≡ stored_of start op }
{
    match op {
        Operand::Reg(i) => reg_bits(start, i) as u64,
        Operand::RegList { first, .. } => reg_bits(start, first) as u64,
        Operand::Imm(v) => words::low32(v) as u64,
        Operand::Idx(v) => v as u64,
        Operand::Flag8(v) => v as u64,
        Operand::Flag16(v) => v as u64,
        Operand::RuntimeId(v) => v as u64,
        Operand::IntrinsicId(v) => v as u64,
        Operand::Raw { value, .. } => value,
    }
}

// The count that a list writes.
fn count_of(op: Operand) -> u32
    ensures { result ≡ count_of op }
{
    match op {
        Operand::RegList { count, .. } => count,
        _ => 0,
    }
}

// The 32 bits of a register's operand.
#[tactic(auto, using(crate::proofs::Numbers::reg_law))]
fn reg_bits(start: i32, i: i32) -> u32
    ensures { result ≡ modulo (2 ^ 32) (start -ℤ i) }
{
    start.wrapping_sub(i).cast_unsigned()
}
