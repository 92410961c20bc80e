// The listing of a function: its header counts and its instruction lines.
#![tactic(auto)]

ghost use Rattle.std.specs.Prelude.{◌≡◌, Ok};
ghost use Rattle.text.specs.Put.{Put};
ghost use Rattle.text.specs.Written.{put_text};
ghost use Rattle.text.specs.Numbers.{WrittenAs};
ghost use Rattle.text.specs.mirror.Written.{WrittenBy};
ghost use Rattle.targets.specs.mirror.Search.{PoolBlocked};
ghost use Rattle.flow.specs.Opcodes.{opcodes_of};
ghost use Rattle.targets.specs.Targets.{found, jump_table};
ghost use Rattle.function.specs.Files.{files_of};
ghost use Rattle.decoder.specs.Decode.{instr_in};
ghost use Rattle.function.specs.mirror.Function.{decoded_by, listed_by};
ghost use Rattle.lines.specs.mirror.View.{view_of};
ghost use Rattle.disasm.specs.Listing.{header_text, lines_text, listing_text, list_view, list_call};
ghost use Rattle.disasm.specs.mirror.Lines.{header_room, Checked};
ghost use Rattle.disasm.specs.mirror.Listing.{code_of, list_with, list_searched};

use flow::{Flow, Kind};
use function::Function;
use header::Header;
use refusal::{Fault, Refusal};
use store::Object;
use tables::Layout;
use targets::{BadSwitch, Entries, PoolSlots};

// Room for the header lines, which are shorter.
const HEADER_ROOM: usize = 250;

// The listing of an object, a BytecodeArray, from the start of the buffer on. Rows 1 to 9 and 11 to 17; after a refusal the buffer is as
// it was.
pub fn list(
    out: &mut [u8],
    opcodes: &[u8],
    types: &[u8],
    runtime: &[u8],
    intrinsic: &[u8],
    layout: &[u8],
    objects: &[u8],
    slots: &[u8],
    payload: &[u8],
    object: usize,
) -> Result<usize, Refusal>
    ensures { WrittenAs (list_call
        (files_of opcodes.now types.now runtime.now intrinsic.now layout.now
        objects.now slots.now payload.now) object out.old) result out.new }
{
    function::check_files(
        opcodes, types, runtime, intrinsic, layout, objects, slots, payload, object,
    )?;
    let object = store::object_of(objects, object);
    list_object(
        out, opcodes, types, runtime, intrinsic, layout, objects, slots, payload, object,
    )
}

// The listing of an object whose files are good.
fn list_object(
    out: &mut [u8],
    opcodes: &[u8],
    types: &[u8],
    runtime: &[u8],
    intrinsic: &[u8],
    layout: &[u8],
    objects: &[u8],
    slots: &[u8],
    payload: &[u8],
    object: Object,
) -> Result<usize, Refusal>
    ensures { WrittenBy (list_searched
        (files_of opcodes.now types.now runtime.now intrinsic.now layout.now
        objects.now slots.now payload.now) object out.old) result out.new }
{
    let shape = tables::layout_of(layout);
    let h = header::header_at_unchecked(slots, payload, object, shape)?;
    let pool = function::pool_of(objects, slots, shape, object);
    list_header(
        out, opcodes, types, runtime, intrinsic, slots, payload, shape, pool, h,
    )
}

// The listing of a header and its code.
fn list_header(
    out: &mut [u8],
    opcodes: &[u8],
    types: &[u8],
    runtime: &[u8],
    intrinsic: &[u8],
    slots: &[u8],
    payload: &[u8],
    shape: Layout,
    pool: Option<PoolSlots>,
    h: Header,
) -> Result<usize, Refusal>
    ensures { WrittenBy
        (list_with opcodes.now types.now runtime.now intrinsic.now slots.now
        payload.now shape pool h out.old) result out.new }
{
    let f = function::function_of(opcodes, shape, pool, h.parameter_count);
    list_code(
        out, opcodes, types, runtime, intrinsic, slots, payload, f, h,
    )
}

// The code of a header.
fn code_of<'a>(payload: &'a [u8], h: Header) -> &'a [u8]
    ensures { result.now ≡ code_of payload.now h }
{
    let start = h.code_at;
    let size = h.code_len;
    serializer::lent(payload, start, size)
}

// 11 to 16 first; then written, measured before only where the buffer might be too short.
fn list_code(
    out: &mut [u8],
    opcodes: &[u8],
    types: &[u8],
    runtime: &[u8],
    intrinsic: &[u8],
    slots: &[u8],
    payload: &[u8],
    f: Function,
    h: Header,
) -> Result<usize, Refusal>
    ensures { WrittenBy (list_view
        (view_of (code_of payload.now h) opcodes.now types.now runtime.now intrinsic.now
        slots.now payload.now f) h
        (listed_by (code_of payload.now h) opcodes.now types.now f) out.old) result out.new }
{
    let room = check_lines(code_of(payload, h), opcodes, types, f)?;
    if room <= out.len() {
        Ok(put_all(
            out, opcodes, types, runtime, intrinsic, slots, payload, f, h,
        ))
    } else {
        list_measured(
            out, opcodes, types, runtime, intrinsic, slots, payload, f, h,
        )
    }
}

// Measured; then 17; then written.
fn list_measured(
    out: &mut [u8],
    opcodes: &[u8],
    types: &[u8],
    runtime: &[u8],
    intrinsic: &[u8],
    slots: &[u8],
    payload: &[u8],
    f: Function,
    h: Header,
) -> Result<usize, Refusal>
    requires { (listed_by (code_of payload.now h) opcodes.now types.now f).check ≡ Ok tt }
    ensures { WrittenBy (put_text (listing_text
        (view_of (code_of payload.now h) opcodes.now types.now runtime.now intrinsic.now
        slots.now payload.now f) h
        (listed_by (code_of payload.now h) opcodes.now types.now f)) out.old) result out.new }
{
    let size = put_all(
        &mut out[0..0],
        opcodes,
        types,
        runtime,
        intrinsic,
        slots,
        payload,
        f,
        h,
    );
    if size <= out.len() {
        Ok(put_all(
            out, opcodes, types, runtime, intrinsic, slots, payload, f, h,
        ))
    } else {
        Err(Refusal {
            fault: Fault::ShortOutput,
            place: 0,
        })
    }
}

// The header and the lines. On an empty buffer it measures.
fn put_all(
    out: &mut [u8],
    opcodes: &[u8],
    types: &[u8],
    runtime: &[u8],
    intrinsic: &[u8],
    slots: &[u8],
    payload: &[u8],
    f: Function,
    h: Header,
) -> usize
    requires { (listed_by (code_of payload.now h) opcodes.now types.now f).check ≡ Ok tt }
    ensures { Put out.old 0 (listing_text
        (view_of (code_of payload.now h) opcodes.now types.now runtime.now intrinsic.now
        slots.now payload.now f) h
        (listed_by (code_of payload.now h) opcodes.now types.now f)) out.new result }
{
    let p = put_header(out, 0, h);
    let q = p.min(out.len());
    let w = put_lines(
        &mut out[q..],
        code_of(payload, h),
        opcodes,
        types,
        runtime,
        intrinsic,
        slots,
        payload,
        f,
    );
    text::saturating_add(p, w)
}

fn put_header(out: &mut [u8], at: usize, h: Header) -> usize
    ensures { Put out.old at (header_text h) out.new result }
{
    let p = text::put_bytes(out, at, b"Bytecode length: ");
    let p = text::put_decimal(out, p, h.length as u64);
    let p = text::put_bytes(out, p, b"\nParameter count ");
    let p = text::put_signed32(out, p, h.parameter_count);
    let p = text::put_bytes(out, p, b"\nRegister count ");
    let p = text::put_decimal(out, p, h.register_count as u64);
    let p = text::put_bytes(out, p, b"\nFrame size ");
    let p = text::put_decimal(out, p, h.frame_size as u64);
    let p = text::put_bytes(out, p, b"\nOSR nesting level: ");
    let p = text::put_decimal(out, p, h.osr as u64);
    let p = text::put_bytes(out, p, b"\nBytecode Age: ");
    let p = text::put_decimal(out, p, h.age as u64);
    text::put_byte(out, p, b'\n')
}

// The lines of all instructions, from the start of the part of the buffer that is lent, where decoding comes to the code's end. Each line is lent the
// part behind the lines before it.
fn put_lines(
    out: &mut [u8],
    code: &[u8],
    opcodes: &[u8],
    types: &[u8],
    runtime: &[u8],
    intrinsic: &[u8],
    slots: &[u8],
    payload: &[u8],
    f: Function,
) -> usize
    requires { (listed_by code.now opcodes.now types.now f).check ≡ Ok tt }
    ensures { Put out.old 0 (lines_text
        (view_of code.now opcodes.now types.now runtime.now intrinsic.now
        slots.now payload.now f)
        (listed_by code.now opcodes.now types.now f).instrs) out.new result }
{
    let pool = f.pool;
    let blocks = targets::pool_blocks(slots, f.ts, pool);
    put_each(
        out, code, opcodes, types, runtime, intrinsic, slots, payload, &blocks, f,
    )
}

// The same with a summary of the pool's slots.
fn put_each(
    out: &mut [u8],
    code: &[u8],
    opcodes: &[u8],
    types: &[u8],
    runtime: &[u8],
    intrinsic: &[u8],
    slots: &[u8],
    payload: &[u8],
    blocks: &[u32],
    f: Function,
) -> usize
    requires { ((listed_by code.now opcodes.now types.now f).check ≡ Ok tt)
        × PoolBlocked slots.now f.ts f.pool blocks.now }
    ensures { Put out.old 0 (lines_text
        (view_of code.now opcodes.now types.now runtime.now intrinsic.now
        slots.now payload.now f)
        (listed_by code.now opcodes.now types.now f).instrs) out.new result }
{
    let frame = f.frame;
    let rfs = frame.reg_file_start;
    let mut p: usize = 0;
    let mut i: usize = 0;
    // A step is as long as the instruction: a range or an iterator would be no plainer.
    while i < code.len() {
        let Ok(Some(instr)) = decoder::decode_at(code, opcodes, types, i, rfs, f.prefixes) else {
            return p;
        };
        let end = instr.end;
        let flow = flow::flow_of(opcodes, instr.opcode);
        let q = p.min(out.len());
        let w = lines::put_instr(
            &mut out[q..],
            &code[i..end],
            opcodes,
            types,
            runtime,
            intrinsic,
            f,
            &instr,
        );
        let at = text::saturating_add(p, w);
        p = lines::put_goes(out, at, slots, payload, blocks, f, flow, &instr);
        i = end;
    }
    p
}

// 11 to 16, then room for the header and all lines. An instruction's operands are decoded where it is a switch.
fn check_lines(code: &[u8], opcodes: &[u8], types: &[u8], f: Function) -> Result<usize, Refusal>
    ensures { Checked (opcodes_of opcodes.now) (found f.pool)
        (listed_by code.now opcodes.now types.now f) result }
{
    let mut p = HEADER_ROOM;
    let mut check = Ok(());
    let mut i: usize = 0;
    // A step is as long as the instruction: a range or an iterator would be no plainer.
    while i < code.len() {
        let Some(x) = decoder::extent_at(code, opcodes, types, i, f.prefixes)? else {
            return check.and(Ok(p));
        };
        let size = x.end - i;
        let flow = flow::flow_of(opcodes, x.opcode);
        let table = table_at(code, opcodes, types, f, flow, i);
        let count = tables::operand_count(opcodes, x.opcode);
        let room = lines::line_room(flow, count, size as u8, table);
        check = check.and(function::table_check(table, i));
        p = text::saturating_add(p, room);
        i = x.end;
    }
    check.and(Ok(p))
}

// The table of the instruction at a place, whose flow is known.
fn table_at(
    code: &[u8],
    opcodes: &[u8],
    types: &[u8],
    f: Function,
    flow: Flow,
    at: usize,
) -> Result<Option<Entries>, BadSwitch>
    ensures { result ≡ jump_table (found f.pool) flow
        (instr_in (decoded_by code.now opcodes.now types.now f at)) }
{
    if !matches!(flow.kind, Kind::Switch) {
        return Ok(None);
    }
    let rfs = f.frame.reg_file_start;
    match decoder::decode_at(code, opcodes, types, at, rfs, f.prefixes) {
        Ok(Some(instr)) => targets::jump_table_unchecked(f.pool, flow, instr),
        _ => Ok(None),
    }
}
