// One recorded call: our own function is asked on the same files, and its answer compared with the recorded one. A further function
// is an arm in `replayed` and a function of its own, here, in `slots` or in `instructions`.
use crate::{for_c, instructions, slots};
use refusal::Refusal;
use serializer::Elem;
use tables::Form;
use vectors::calls::{Call, File};
use vectors::counts::Outcome;
use vectors::items::{Files, Part, behind, contents, lent};
use vectors::said;

// A call of a function, whose body is a part of the vector file.
pub fn replayed(bytes: &[u8], files: Files, asked: Call, body: Part) -> Outcome {
    let call = lent(bytes, body);
    let same = match asked {
        Call::RawAt => raw_at(bytes, files, call),
        Call::ArrayLen => array_len(bytes, files, call),
        Call::ArrayElem => array_elem(bytes, files, call),
        Call::BcaRtOff => bca_rt_off(bytes, files, call),
        Call::DecodeSmiBytes => decode_smi_bytes(call),
        Call::RegName => instructions::reg_name(bytes, files, call),
        Call::RenderOperand => instructions::render_operand(bytes, files, call),
        Call::Decode => instructions::decode(bytes, files, call),
        Call::SlotAt => slots::slot_at(bytes, files, call),
        Call::TableCheck => table_check(bytes, files, call),
        Call::StoreCheck => store_check(bytes, files, call),
        Call::InstructionText => instructions::instruction_text(bytes, files, call),
        Call::LastBytes => instructions::last_bytes(bytes, files, call),
        Call::SlotRecords => slots::slot_records(bytes, files, call),
        Call::JscdWrite => for_c::write(bytes, files, call),
        Call::JscdToNew => for_c::converted(bytes, files, call, Form::New),
        Call::JscdToOld => for_c::converted(bytes, files, call, Form::Old),
        Call::Listing
        | Call::SmiSlot
        | Call::NumField
        | Call::JumpTarget
        | Call::JumpTable
        | Call::MaxRegister => return Outcome::NotHere,
        _ => false,
    };
    Outcome::from(same)
}

fn table_check(bytes: &[u8], files: Files, call: &[u8]) -> bool {
    let opcodes = contents(bytes, files, File::Opcodes);
    let types = contents(bytes, files, File::Types);
    let runtime = contents(bytes, files, File::Runtime);
    let intrinsic = contents(bytes, files, File::Intrinsic);
    let layout = contents(bytes, files, File::Layout);
    said::is_check(
        call,
        tables::check_table(opcodes, types, runtime, intrinsic, layout),
    )
}

fn store_check(bytes: &[u8], files: Files, call: &[u8]) -> bool {
    let objects = contents(bytes, files, File::Objects);
    let slots = contents(bytes, files, File::Slots);
    let payload = contents(bytes, files, File::Payload);
    said::is_check(call, store::check_store(objects, slots, payload))
}

// What raw_at answers, and what it lends.
fn raw_at(bytes: &[u8], files: Files, call: &[u8]) -> bool {
    let objects = contents(bytes, files, File::Objects);
    let slots = contents(bytes, files, File::Slots);
    let payload = contents(bytes, files, File::Payload);
    let ts = tagged_size(bytes, files);
    let object = words::u64_at(call, 0) as usize;
    let off = words::u64_at(call, 8);
    let len = words::u64_at(call, 16);
    let part = serializer::raw_part_at(objects, slots, payload, ts, object, off, len);
    let answer = serializer::raw_run_at(objects, slots, payload, ts, object, off, len);
    is_raw(behind(call, 24), answer, part, payload, len)
}

fn is_raw(
    said: &[u8],
    answer: Result<Option<usize>, Refusal>,
    part: &[u8],
    payload: &[u8],
    len: u64,
) -> bool {
    match answer {
        Ok(Some(at)) => {
            let wanted = Part {
                at,
                len: len as usize,
            };
            check::same(part, lent(payload, wanted)) && said::is_numbers(said, &[at as u64])
        }
        Ok(None) => part.is_empty() && said::is_nothing(said),
        Err(refusal) => part.is_empty() && said::is_refused(said, refusal),
    }
}

fn array_len(bytes: &[u8], files: Files, call: &[u8]) -> bool {
    let objects = contents(bytes, files, File::Objects);
    let slots = contents(bytes, files, File::Slots);
    let payload = contents(bytes, files, File::Payload);
    let ts = tagged_size(bytes, files);
    let object = words::u64_at(call, 0) as usize;
    match serializer::array_len(objects, slots, payload, ts, object) {
        Ok(n) => said::is_numbers(behind(call, 8), &[n]),
        Err(refusal) => said::is_refused(behind(call, 8), refusal),
    }
}

fn array_elem(bytes: &[u8], files: Files, call: &[u8]) -> bool {
    let objects = contents(bytes, files, File::Objects);
    let slots = contents(bytes, files, File::Slots);
    let payload = contents(bytes, files, File::Payload);
    let ts = tagged_size(bytes, files);
    let object = words::u64_at(call, 0) as usize;
    let element = words::u64_at(call, 8);
    match serializer::array_elem(objects, slots, payload, ts, object, element) {
        Ok(elem) => is_elem(behind(call, 16), elem),
        Err(refusal) => said::is_refused(behind(call, 16), refusal),
    }
}

fn is_elem(said: &[u8], elem: Option<Elem>) -> bool {
    match elem {
        Some(Elem::Object(n)) => said::is_numbers(said, &[0, n as u64]),
        Some(Elem::Root) => said::is_numbers(said, &[1]),
        Some(Elem::OtherRef) => said::is_numbers(said, &[2]),
        Some(Elem::Smi(v)) => said::is_numbers(said, &[3, v.cast_unsigned()]),
        Some(Elem::Bytes(span)) => said::is_numbers(said, &[4, span.at as u64, span.len as u64]),
        None => said::is_nothing(said),
    }
}

fn bca_rt_off(bytes: &[u8], files: Files, call: &[u8]) -> bool {
    let objects = contents(bytes, files, File::Objects);
    let slots = contents(bytes, files, File::Slots);
    let payload = contents(bytes, files, File::Payload);
    let ts = tagged_size(bytes, files);
    let unit = tables::slot_unit(contents(bytes, files, File::Layout));
    let object = words::u64_at(call, 0) as usize;
    let off = words::u32_at(call, 8);
    if words::u32_at(call, 12) != 0 {
        return false;
    }
    match serializer::bca_rt_off(objects, slots, payload, ts, unit, object, off) {
        Ok(n) => said::is_numbers(behind(call, 16), &[n]),
        Err(refusal) => said::is_refused(behind(call, 16), refusal),
    }
}

// The number of bytes, then these bytes.
fn decode_smi_bytes(call: &[u8]) -> bool {
    let n = words::u64_at(call, 0) as usize;
    let rest = behind(call, 8);
    let given = Part { at: 0, len: n };
    match serializer::decode_smi_bytes(lent(rest, given)) {
        Some(v) => said::is_numbers(behind(rest, n), &[v.cast_unsigned()]),
        None => said::is_nothing(behind(rest, n)),
    }
}

fn tagged_size(bytes: &[u8], files: Files) -> u8 {
    let layout = tables::layout_of(contents(bytes, files, File::Layout));
    layout.tagged_size
}
