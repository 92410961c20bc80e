// The layout file: row 5, and its values. Every function is total: a byte past the end is 0.
#![tactic(auto)]

ghost use Rattle.std.specs.Prelude.{◌≡◌, ◌<◌, ◌||◌, eqb, leb};
ghost use Rattle.layout.specs.Layout.{check_layout, value, signed_value, range_of, in_range, field_of, slot_for, osr_field, param_base_of, slot_unit, frame_of, layout_of};

use refusal::{Fault, Refusal};

// How long a layout is.
pub const LAYOUT_SIZE: usize = 80;

// An offset that the layout does not have.
const ABSENT: u32 = 4294967295;

// The registers' numbers.
#[derive(Clone, Copy)]
pub struct Frame {
    pub reg_file_start: i32,
    pub context: i32,
    pub closure: i32,
    pub first_param: i32,
    pub param_base: Option<i32>,
}

#[derive(Clone, Copy)]
pub struct Layout {
    pub tagged_size: u8,
    pub unit: u8,
    pub header_size: u32,
    pub pool_slot: u32,
    pub handler_slot: u32,
    pub source_slot: u32,
    pub length: Option<u32>,
    pub frame_size: Option<u32>,
    pub parameter_size: Option<u32>,
    pub osr: Option<u32>,
    pub age: Option<u32>,
    pub direct: bool,
    pub frame: Frame,
}

// The layout's values, with the Rust's fallbacks for absent ones.
#[tactic(auto, unfolding(crate::specs::Layout::layout_of))]
pub fn layout_of(layout: &[u8]) -> Layout
    ensures { result ≡ layout_of layout.now }
{
    let unit = slot_unit(layout);
    Layout {
        tagged_size: (value(layout, 0) % 256) as u8,
        unit,
        header_size: value(layout, 2),
        pool_slot: slot_for(value(layout, 3), unit, 2),
        handler_slot: slot_for(value(layout, 4), unit, 3),
        source_slot: slot_for(value(layout, 5), unit, 4),
        length: field_of(value(layout, 6)),
        frame_size: field_of(value(layout, 7)),
        parameter_size: field_of(value(layout, 8)),
        osr: osr_field(value(layout, 9), value(layout, 10)),
        age: field_of(value(layout, 11)),
        direct: value(layout, 12) != 0,
        frame: frame_of(layout),
    }
}

// The unit of the layout's offsets: 0 means 8.
pub fn slot_unit(layout: &[u8]) -> u8
    ensures { result ≡ slot_unit layout.now }
{
    let unit = (value(layout, 1) % 256) as u8;
    if unit == 0 { 8 } else { unit }
}

// Layout values: row 5.

pub fn check_layout(layout: &[u8]) -> Result<(), Refusal>
    ensures { result ≡ check_layout layout.now }
{
    for k in 0..20 {
        if !in_range(k, value(layout, k)) {
            return refusal::at_record(Fault::BadLayout, k as usize, 20);
        }
    }
    Ok(())
}

// Whether layout value k may be v.
#[tactic(auto, using(crate::proofs::Laws::range_run), unfolding(crate::specs::Layout::range_of, crate::specs::Layout::ranges))]
fn in_range(k: u8, v: u32) -> bool
    ensures { result ≡ in_range (range_of k) v }
{
    match k {
        0 => is_tagged(v),
        1 => is_unit(v),
        2 => v <= 65535,
        3..=11 => is_offset(v),
        12 => v <= 1,
        13..=17 => true,
        18 => v <= 1,
        19 => v == 0,
        _ => true,
    }
}

fn is_tagged(v: u32) -> bool
    ensures { result ≡ (eqb v 4 || eqb v 8) }
{
    v == 4 || v == 8
}

fn is_unit(v: u32) -> bool
    ensures { result ≡ (eqb v 0 || (eqb v 4 || eqb v 8)) }
{
    v == 0 || is_tagged(v)
}

// An offset, or ffffffff for an absent one.
fn is_offset(v: u32) -> bool
    ensures { result ≡ (leb v 65535 || eqb v 4294967295) }
{
    v <= 65535 || v == ABSENT
}

// Layout value k.
fn value(layout: &[u8], k: u8) -> u32
    ensures { result ≡ value layout.now k }
{
    words::u32_at(layout, 4 * (k as usize))
}

fn signed_value(layout: &[u8], k: u8) -> i32
    ensures { result ≡ signed_value layout.now k }
{
    value(layout, k).cast_signed()
}

fn field_of(v: u32) -> Option<u32>
    ensures { result ≡ field_of v }
{
    if v == ABSENT { None } else { Some(v) }
}

// The slot of an offset, or the Rust's own where it is absent.
fn slot_for(v: u32, unit: u8, fallback: u32) -> u32
    requires { 0 < unit }
    ensures { result ≡ slot_for v unit fallback }
{
    match field_of(v) {
        Some(offset) => offset / unit as u32,
        None => fallback,
    }
}

// osr_loop_nesting_level, or osr_urgency_and_install_target where that is absent.
fn osr_field(nine: u32, ten: u32) -> Option<u32>
    ensures { result ≡ osr_field nine ten }
{
    field_of(nine).or(field_of(ten))
}

fn param_base(present: u32, base: i32) -> Option<i32>
    ensures { result ≡ param_base_of present base }
{
    if present == 0 { None } else { Some(base) }
}

fn frame_of(layout: &[u8]) -> Frame
    ensures { result ≡ frame_of layout.now }
{
    Frame {
        reg_file_start: signed_value(layout, 13),
        context: signed_value(layout, 14),
        closure: signed_value(layout, 15),
        first_param: signed_value(layout, 16),
        param_base: param_base(value(layout, 18), signed_value(layout, 17)),
    }
}
