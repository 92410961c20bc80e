// The calls for C that list an object, and that answer a target or an entry of lent code.
use vectors::calls::File;
use vectors::items::{Files, behind, contents};
use vectors::said::{self, Status};

// No record file is longer than a program reads.
pub fn is_short(files: Files) -> bool {
    files.parts[..8].iter().all(|part| part.len <= 65536)
}

// 0: with 65,536 bytes lent.
pub fn list(bytes: &[u8], files: Files, call: &[u8]) -> bool {
    let mut out = [7u8; 65536];
    list_in(bytes, files, call, &mut out)
}

// 22: with 262,144 bytes lent.
pub fn long_list(bytes: &[u8], files: Files, call: &[u8]) -> bool {
    let mut out = [7u8; 262144];
    list_in(bytes, files, call, &mut out)
}

fn list_in(bytes: &[u8], files: Files, said: &[u8], out: &mut [u8]) -> bool {
    let mut place: usize = 7;
    let status = capi::jscd_list(
        out,
        contents(bytes, files, File::Opcodes),
        contents(bytes, files, File::Types),
        contents(bytes, files, File::Runtime),
        contents(bytes, files, File::Intrinsic),
        contents(bytes, files, File::Layout),
        contents(bytes, files, File::Objects),
        contents(bytes, files, File::Slots),
        contents(bytes, files, File::Payload),
        0,
        &mut place,
    );
    is_told(said, status, place, out)
}

// 0 is a listing of so many bytes, with the rest as it was; any other status a refusal's number, with all as it was.
fn is_told(said: &[u8], status: u8, place: usize, out: &[u8]) -> bool {
    if status == 0 {
        return said::is_text(said, out, place) && said::are_kept(out, place);
    }
    said::is_refused_by(said, status, place) && said::are_kept(out, 0)
}

// In place of an object's number: no store and no pool.
const NO_OBJECT: u64 = u64::MAX;

// Whether an object is lent.
fn lent_of(object: u64) -> u8 {
    if object == NO_OBJECT { 0 } else { 1 }
}

// 8: 1 and the target, or 0.
pub fn target(bytes: &[u8], files: Files, call: &[u8]) -> bool {
    let object = words::u64_at(call, 0);
    let at = words::u64_at(call, 8) as usize;
    let mut place: usize = 7;
    let mut values = [7u64; 2];
    let status = capi::jscd_target(
        contents(bytes, files, File::Code),
        at,
        contents(bytes, files, File::Opcodes),
        contents(bytes, files, File::Types),
        contents(bytes, files, File::Layout),
        contents(bytes, files, File::Objects),
        contents(bytes, files, File::Slots),
        contents(bytes, files, File::Payload),
        lent_of(object),
        object as usize,
        &mut place,
        &mut values,
    );
    let said = behind(call, 16);
    match Status::try_from(status) {
        Ok(Status::Done) => place == 0 && is_target(said, values),
        Ok(Status::CodeEnd) => place == at && said::is_end(said),
        Err(number) => said::is_refused_by(said, number, place),
        Ok(Status::Leaves) => false,
    }
}

fn is_target(said: &[u8], values: [u64; 2]) -> bool {
    match values {
        [1, target] => said::is_numbers(said, &[target]),
        [0, 0] => said::is_nothing(said),
        _ => false,
    }
}

// 24: 1, the case and the target; 2 skipped, 3 beyond the table, 0 no table.
pub fn entry(bytes: &[u8], files: Files, call: &[u8]) -> bool {
    let object = words::u64_at(call, 0);
    let at = words::u64_at(call, 8) as usize;
    let mut place: usize = 7;
    let mut values = [7u64; 3];
    let status = capi::jscd_entry(
        contents(bytes, files, File::Code),
        at,
        contents(bytes, files, File::Opcodes),
        contents(bytes, files, File::Types),
        contents(bytes, files, File::Layout),
        contents(bytes, files, File::Objects),
        contents(bytes, files, File::Slots),
        contents(bytes, files, File::Payload),
        lent_of(object),
        object as usize,
        words::u64_at(call, 16) as usize,
        &mut place,
        &mut values,
    );
    let said = behind(call, 24);
    match Status::try_from(status) {
        Ok(Status::Done) => place == 0 && is_entry(said, values),
        Ok(Status::CodeEnd) => place == at && said::is_end(said),
        Err(number) => said::is_refused_by(said, number, place),
        Ok(Status::Leaves) => false,
    }
}

fn is_entry(said: &[u8], values: [u64; 3]) -> bool {
    match values {
        [1, case, target] => said::is_numbers(said, &[0, case, target]),
        [2, _, _] => said::is_numbers(said, &[1]),
        [3, _, _] => said::is_numbers(said, &[2]),
        [0, _, _] => said::is_nothing(said),
        _ => false,
    }
}
