// How many calls there were of each function, and how many answers differed.
use crate::calls::{CALLS, Call};

#[derive(Clone, Copy)]
pub enum Outcome {
    Same,
    Differs,
    // A function that this program does not ask.
    NotHere,
}

impl From<bool> for Outcome {
    fn from(same: bool) -> Outcome {
        if same {
            Outcome::Same
        } else {
            Outcome::Differs
        }
    }
}

// The answers of a call: how many, how many of them differ, and the number of the first that differs. A call's number counts from 1 in
// its file.
#[derive(Clone, Copy)]
pub struct Row {
    pub calls: u64,
    pub differences: u64,
    pub first: u64,
}

// Calls asked, and how many answers differed.
#[derive(Clone, Copy)]
pub struct Total {
    pub calls: u64,
    pub differences: u64,
}

// A row for each call, and one for what is no call of a known function.
#[derive(Clone, Copy)]
pub struct Counts {
    pub rows: [Row; CALLS],
    pub unknown: Row,
    pub number: u64,
    pub total: Total,
    pub not_here: u64,
    // Codes of calls that ask many.
    pub codes: u64,
}

const NO_ROW: Row = Row {
    calls: 0,
    differences: 0,
    first: 0,
};

pub const NO_TOTAL: Total = Total {
    calls: 0,
    differences: 0,
};

pub fn no_counts() -> Counts {
    Counts {
        rows: [NO_ROW; CALLS],
        unknown: NO_ROW,
        number: 0,
        total: NO_TOTAL,
        not_here: 0,
        codes: 0,
    }
}

// The next call of the file is looked at.
pub fn numbered(mut counts: Counts) -> Counts {
    counts.number = counts.number.saturating_add(1);
    counts
}

// One more answer in a row, or in that of what is no call of a known function.
pub fn counted(mut counts: Counts, row: Option<Call>, outcome: Outcome) -> Counts {
    match outcome {
        Outcome::Same => answered(counts, row, false),
        Outcome::Differs => answered(counts, row, true),
        Outcome::NotHere => {
            counts.not_here = counts.not_here.saturating_add(1);
            counts
        }
    }
}

// An item that sets no file and is no call.
pub fn with_unknown(counts: Counts) -> Counts {
    unasked(numbered(counts))
}

// A call of a function that no program has here.
pub fn unasked(counts: Counts) -> Counts {
    counted(counts, None, Outcome::Differs)
}

pub fn with_codes(mut counts: Counts, codes: u64) -> Counts {
    counts.codes = counts.codes.wrapping_add(codes);
    counts
}

fn answered(mut counts: Counts, row: Option<Call>, differs: bool) -> Counts {
    match row {
        Some(call) => {
            let i = call as usize;
            counts.rows[i] = with_answer(counts.rows[i], differs, counts.number);
        }
        None => counts.unknown = with_answer(counts.unknown, differs, counts.number),
    }
    counts.total = with_one(counts.total, differs);
    counts
}

fn with_answer(row: Row, differs: bool, number: u64) -> Row {
    Row {
        calls: row.calls.saturating_add(1),
        differences: row.differences.saturating_add(u64::from(differs)),
        first: if differs && row.differences == 0 {
            number
        } else {
            row.first
        },
    }
}

fn with_one(total: Total, differs: bool) -> Total {
    Total {
        calls: total.calls.saturating_add(1),
        differences: total.differences.saturating_add(u64::from(differs)),
    }
}
