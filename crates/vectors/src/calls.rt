// The calls that are asked again, and the files that they are asked on.
ghost use Rattle.vectors.specs.Numbers.{HasNumber, NumbersFile};

// The functions of the recordings, with the calls for C that are asked beside them, in the order in which their counts are printed.
#[derive(Clone, Copy)]
pub enum Call {
    Listing,
    RawAt,
    ArrayLen,
    ArrayElem,
    SmiSlot,
    NumField,
    BcaRtOff,
    DecodeSmiBytes,
    JumpTarget,
    JumpTable,
    MaxRegister,
    RegName,
    RenderOperand,
    Decode,
    SlotAt,
    TableCheck,
    StoreCheck,
    InstructionText,
    LastBytes,
    Walk,
    WalkCode,
    WalkLastBytes,
    LongListing,
    Header,
    JumpEntry,
    SlotRecords,
    JscdWrite,
    JscdList,
    JscdWalk,
    JscdDecode,
    WalkWith,
    WalkCodeWith,
    JscdWalkCode,
    JscdTarget,
    JscdEntry,
    JscdWalkWith,
    JscdWalkCodeWith,
    JscdToNew,
    JscdToOld,
}

// How many calls there are.
pub const CALLS: usize = 39;

// What each is called where its counts are printed.
pub const NAMES: [&str; CALLS] = [
    "listing",
    "raw_at",
    "array_len",
    "array_elem",
    "smi_slot",
    "num_field",
    "bca_rt_off",
    "decode_smi_bytes",
    "jump_target",
    "jump_table",
    "max_register",
    "reg_name",
    "render_operand",
    "decode",
    "slot_at",
    "table_check",
    "store_check",
    "instruction_text",
    "last_bytes",
    "walk",
    "walk_code",
    "walk_last_bytes",
    "long_listing",
    "header",
    "jump_entry",
    "slot_records",
    "jscd_write",
    "jscd_list",
    "jscd_walk",
    "jscd_decode",
    "walk_with",
    "walk_code_with",
    "jscd_walk_code",
    "jscd_target",
    "jscd_entry",
    "jscd_walk_with",
    "jscd_walk_code_with",
    "jscd_to_new",
    "jscd_to_old",
];

// The record files, the lent code and the handler records.
#[derive(Clone, Copy)]
pub enum File {
    Opcodes,
    Types,
    Runtime,
    Intrinsic,
    Layout,
    Objects,
    Slots,
    Payload,
    Code,
    Handlers,
}

// How many files there are.
pub const FILES: usize = 10;

// A number that a recording has for no function or file.
#[derive(Clone, Copy)]
pub struct Unknown(pub u8);

// The row of the counts that has a number, in the order in which they are printed; no known function's where there are fewer rows.
pub fn row(number: u8) -> Option<Call>
    ensures { HasNumber number result }
{
    match number {
        0 => Some(Call::Listing),
        1 => Some(Call::RawAt),
        2 => Some(Call::ArrayLen),
        3 => Some(Call::ArrayElem),
        4 => Some(Call::SmiSlot),
        5 => Some(Call::NumField),
        6 => Some(Call::BcaRtOff),
        7 => Some(Call::DecodeSmiBytes),
        8 => Some(Call::JumpTarget),
        9 => Some(Call::JumpTable),
        10 => Some(Call::MaxRegister),
        11 => Some(Call::RegName),
        12 => Some(Call::RenderOperand),
        13 => Some(Call::Decode),
        14 => Some(Call::SlotAt),
        15 => Some(Call::TableCheck),
        16 => Some(Call::StoreCheck),
        17 => Some(Call::InstructionText),
        18 => Some(Call::LastBytes),
        19 => Some(Call::Walk),
        20 => Some(Call::WalkCode),
        21 => Some(Call::WalkLastBytes),
        22 => Some(Call::LongListing),
        23 => Some(Call::Header),
        24 => Some(Call::JumpEntry),
        25 => Some(Call::SlotRecords),
        26 => Some(Call::JscdWrite),
        27 => Some(Call::JscdList),
        28 => Some(Call::JscdWalk),
        29 => Some(Call::JscdDecode),
        30 => Some(Call::WalkWith),
        31 => Some(Call::WalkCodeWith),
        32 => Some(Call::JscdWalkCode),
        33 => Some(Call::JscdTarget),
        34 => Some(Call::JscdEntry),
        35 => Some(Call::JscdWalkWith),
        36 => Some(Call::JscdWalkCodeWith),
        37 => Some(Call::JscdToNew),
        38 => Some(Call::JscdToOld),
        _ => None,
    }
}

// A function by its number in a recording: the first ones have the rows of their numbers, the later ones do not.
impl TryFrom<u8> for Call {
    type Error = Unknown;

    fn try_from(number: u8) -> Result<Call, Unknown> {
        match number {
            0..=26 => row(number).ok_or(Unknown(number)),
            27 => Ok(Call::WalkWith),
            28 => Ok(Call::WalkCodeWith),
            29 => Ok(Call::JscdToNew),
            30 => Ok(Call::JscdToOld),
            _ => Err(Unknown(number)),
        }
    }
}

// A file by its number in a recording.
impl TryFrom<u8> for File {
    type Error = Unknown;

    ghost try_from_gives = { NumbersFile };

    fn try_from(number: u8) -> Result<File, Unknown> {
        match number {
            0 => Ok(File::Opcodes),
            1 => Ok(File::Types),
            2 => Ok(File::Runtime),
            3 => Ok(File::Intrinsic),
            4 => Ok(File::Layout),
            5 => Ok(File::Objects),
            6 => Ok(File::Slots),
            7 => Ok(File::Payload),
            8 => Ok(File::Code),
            9 => Ok(File::Handlers),
            _ => Err(Unknown(number)),
        }
    }
}
