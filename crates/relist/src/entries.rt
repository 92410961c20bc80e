// Targets and entries of an instruction of lent code, with the pool of an object or without a pool.
use jumps::Entry;
use targets::{Case, Entries, PoolSlots};
use vectors::calls::File;
use vectors::items::{Files, behind, contents};
use vectors::said;

// In place of an object's number: no store and no pool.
const NO_OBJECT: u64 = u64::MAX;

fn pool_object(call: &[u8]) -> Option<usize> {
    let object = words::u64_at(call, 0);
    (object != NO_OBJECT).then_some(object as usize)
}

// 8: the target of a jump.
pub fn jump_target(bytes: &[u8], files: Files, call: &[u8]) -> bool {
    let said = behind(call, 16);
    let target = jumps::jump_target(
        contents(bytes, files, File::Code),
        words::u64_at(call, 8) as usize,
        contents(bytes, files, File::Opcodes),
        contents(bytes, files, File::Types),
        contents(bytes, files, File::Layout),
        contents(bytes, files, File::Objects),
        contents(bytes, files, File::Slots),
        contents(bytes, files, File::Payload),
        pool_object(call),
    );
    match target {
        Ok(Some(Some(n))) => said::is_numbers(said, &[n]),
        Ok(Some(None)) => said::is_nothing(said),
        Ok(None) => said::is_end(said),
        Err(refusal) => said::is_refused(said, refusal),
    }
}

// 9: the entries of a switch.
pub fn jump_table(bytes: &[u8], files: Files, call: &[u8]) -> bool {
    let said = behind(call, 16);
    let table = jumps::jump_table(
        contents(bytes, files, File::Code),
        words::u64_at(call, 8) as usize,
        contents(bytes, files, File::Opcodes),
        contents(bytes, files, File::Types),
        contents(bytes, files, File::Layout),
        contents(bytes, files, File::Objects),
        contents(bytes, files, File::Slots),
        contents(bytes, files, File::Payload),
        pool_object(call),
    );
    match table {
        Ok(Some(Some(entries))) => are_entries(bytes, files, call, entries),
        Ok(Some(None)) => said::is_nothing(said),
        Ok(None) => said::is_end(said),
        Err(refusal) => said::is_refused(said, refusal),
    }
}

// 24: one entry of a switch: 0 with case and target, 1 skipped, 2 beyond the table.
pub fn jump_entry(bytes: &[u8], files: Files, call: &[u8]) -> bool {
    let said = behind(call, 24);
    let entry = jumps::jump_entry(
        contents(bytes, files, File::Code),
        words::u64_at(call, 8) as usize,
        contents(bytes, files, File::Opcodes),
        contents(bytes, files, File::Types),
        contents(bytes, files, File::Layout),
        contents(bytes, files, File::Objects),
        contents(bytes, files, File::Slots),
        contents(bytes, files, File::Payload),
        pool_object(call),
        words::u64_at(call, 16) as usize,
    );
    match entry {
        Ok(Some(Some(Entry::Shown(c)))) => {
            said::is_numbers(said, &[0, i64::from(c.case).cast_unsigned(), c.target])
        }
        Ok(Some(Some(Entry::Skipped))) => said::is_numbers(said, &[1]),
        Ok(Some(Some(Entry::Beyond))) => said::is_numbers(said, &[2]),
        Ok(Some(None)) => said::is_nothing(said),
        Ok(None) => said::is_end(said),
        Err(refusal) => said::is_refused(said, refusal),
    }
}

fn are_entries(bytes: &[u8], files: Files, call: &[u8], entries: Entries) -> bool {
    let Some(here) = here_of(bytes, files, call) else {
        return false;
    };
    let slots = contents(bytes, files, File::Slots);
    let layout = tables::layout_of(contents(bytes, files, File::Layout));
    are_shown(
        slots,
        contents(bytes, files, File::Payload),
        layout.tagged_size,
        function::lent_pool(
            contents(bytes, files, File::Objects),
            slots,
            layout,
            pool_object(call),
        ),
        here,
        entries,
        behind(call, 16),
    )
}

// Where the switch's distances count from.
fn here_of(bytes: &[u8], files: Files, call: &[u8]) -> Option<u64> {
    let decoded = bytecode::decode_unchecked(
        contents(bytes, files, File::Opcodes),
        contents(bytes, files, File::Types),
        contents(bytes, files, File::Layout),
        contents(bytes, files, File::Code),
        words::u64_at(call, 8) as usize,
    );
    match decoded {
        Ok(Some(instr)) => Some(targets::here(instr)),
        Ok(None) | Err(_) => None,
    }
}

// Status 1, the number of entries shown, then case and target of each.
fn are_shown(
    slots: &[u8],
    payload: &[u8],
    ts: u8,
    pool: Option<PoolSlots>,
    here: u64,
    entries: Entries,
    said: &[u8],
) -> bool {
    let mut at: usize = 9;
    let mut shown: u64 = 0;
    for k in 0..entries.count {
        let entry = targets::jump_entry_unchecked(slots, payload, ts, pool, here, entries, k);
        if let Some(c) = entry {
            if !said::are_numbers(said, at, &case_numbers(c)) {
                return false;
            }
            at = text::saturating_add(at, 16);
            shown = shown.wrapping_add(1);
        }
    }
    words::byte_at(said, 0) == 1 && words::u64_at(said, 1) == shown && said.len() == at
}

fn case_numbers(c: Case) -> [u64; 2] {
    [i64::from(c.case).cast_unsigned(), c.target]
}
