// Numbers in slots, and headers.
use header::Header;
use vectors::calls::File;
use vectors::items::{Files, behind, contents};
use vectors::said;

// 4: a small integer in a slot.
pub fn smi_slot(bytes: &[u8], files: Files, call: &[u8]) -> bool {
    let answer = header::smi_slot(
        contents(bytes, files, File::Objects),
        contents(bytes, files, File::Slots),
        contents(bytes, files, File::Payload),
        tagged_size(bytes, files),
        words::u64_at(call, 0) as usize,
        words::u64_at(call, 8),
    );
    match answer {
        Ok(smi) => is_smi(behind(call, 16), smi),
        Err(refusal) => said::is_refused(behind(call, 16), refusal),
    }
}

fn is_smi(said: &[u8], smi: Option<i64>) -> bool {
    match smi {
        Some(v) => said::is_numbers(said, &[v.cast_unsigned()]),
        None => said::is_nothing(said),
    }
}

// 5: a number in a slot.
pub fn num_field(bytes: &[u8], files: Files, call: &[u8]) -> bool {
    let answer = header::num_field(
        contents(bytes, files, File::Objects),
        contents(bytes, files, File::Slots),
        contents(bytes, files, File::Payload),
        tagged_size(bytes, files),
        words::u64_at(call, 0) as usize,
        words::u64_at(call, 8),
        words::u64_at(call, 16) == 1,
    );
    match answer {
        Ok(num) => is_num(behind(call, 24), num),
        Err(refusal) => said::is_refused(behind(call, 24), refusal),
    }
}

fn is_num(said: &[u8], num: Option<u32>) -> bool {
    match num {
        Some(n) => said::is_numbers(said, &[n as u64]),
        None => said::is_nothing(said),
    }
}

// 23: the header of an object.
pub fn header(bytes: &[u8], files: Files, call: &[u8]) -> bool {
    let answer = header::header_at(
        contents(bytes, files, File::Objects),
        contents(bytes, files, File::Slots),
        contents(bytes, files, File::Payload),
        contents(bytes, files, File::Layout),
        words::u64_at(call, 0) as usize,
    );
    match answer {
        Ok(header) => is_header(behind(call, 8), header),
        Err(refusal) => said::is_refused(behind(call, 8), refusal),
    }
}

// Length, parameter count, register count, frame size, nesting level, age, and where in the payload the code is.
fn is_header(said: &[u8], header: Header) -> bool {
    let numbers = [
        u64::from(header.length),
        i64::from(header.parameter_count).cast_unsigned(),
        u64::from(header.register_count),
        u64::from(header.frame_size),
        u64::from(header.osr),
        u64::from(header.age),
        header.code_at as u64,
        header.code_len as u64,
    ];
    said::is_numbers(said, &numbers)
}

fn tagged_size(bytes: &[u8], files: Files) -> u8 {
    let layout = tables::layout_of(contents(bytes, files, File::Layout));
    layout.tagged_size
}
