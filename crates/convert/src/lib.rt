// Opcode files with their flows, made of 01's by name, and back (02, Wish 6).
#![tactic(auto)]

mod names;

ghost use Rattle.std.specs.Prelude.{◌≡◌, ◌/◌, ◌<◌, length};
ghost use Rattle.refusal.specs.Check.{first_bad};
ghost use Rattle.text.specs.Put.{Put};
ghost use Rattle.text.specs.Written.{put_text};
ghost use Rattle.text.specs.Numbers.{WrittenAs};
ghost use Rattle.text.specs.mirror.Written.{WrittenBy};
ghost use Rattle.tables.specs.Records.{size_as, opcode_count};
ghost use Rattle.convert.specs.Records.{joined};
ghost use Rattle.convert.specs.mirror.Forms.{other, record_as, file_as};
ghost use Rattle.convert.specs.Convert.{kind_byte, flow_bytes, to_new_call, other_flow, check_back, to_old_call};
ghost use Rattle.refusal.specs.declared.Fault.TheVariants as fault;

use flow::{Flow, Kind};
use refusal::{Fault, Refusal};
use tables::{Form, OPCODE_SIZE};

// What records of both forms have: name, mark, count and codes.
const FIELDS: usize = 50;

// The file with the flows by name, from the start of the buffer on. Rows 1 to 4 and 17; after a refusal the buffer is as it was.
// C has a call for each way, and the way back is checked further.
#[tactic(auto, unfolding(crate::specs::Convert::to_new_call))]
pub fn to_new(out: &mut [u8], opcodes: &[u8], types: &[u8]) -> Result<usize, Refusal>
    ensures { WrittenAs (to_new_call opcodes.now types.now out.old) result out.new }
{
    tables::check_pair(opcodes, types, Form::Old)?;
    write(out, opcodes, Form::New)
}

// The file without the flows. Rows 1 to 4 with 26, then 27 and 17; after a refusal the buffer is as it was.
#[tactic(auto, unfolding(crate::specs::Convert::to_old_call))]
pub fn to_old(out: &mut [u8], opcodes: &[u8], types: &[u8]) -> Result<usize, Refusal>
    ensures { WrittenAs (to_old_call opcodes.now types.now out.old) result out.new }
{
    check_back(opcodes, types)?;
    write(out, opcodes, Form::Old)
}

// Rows 1 to 4 with 26, then 27.
#[tactic(auto, unfolding(crate::specs::Convert::check_back))]
fn check_back(opcodes: &[u8], types: &[u8]) -> Result<(), Refusal>
    ensures { result ≡ check_back opcodes.now types.now }
{
    tables::check_pair(opcodes, types, Form::New)?;
    check_flows(opcodes)
}

// The first record whose name would give other bytes.
fn check_flows(opcodes: &[u8]) -> Result<(), Refusal>
    ensures { result ≡ first_bad fault.OtherFlow (other_flow opcodes.now) (opcode_count opcodes.now) }
{
    let n = tables::opcode_count(opcodes);
    for k in 0..n {
        if other_flow(opcodes, k) {
            return refusal::at_record(Fault::OtherFlow, k, n);
        }
    }
    Ok(())
}

#[tactic(auto, unfolding(crate::specs::Convert::other_flow))]
fn other_flow(opcodes: &[u8], k: usize) -> bool
    requires { k < opcode_count opcodes.now }
    ensures { result ≡ other_flow opcodes.now k }
{
    let at = k * OPCODE_SIZE;
    let flow = names::named_flow(opcodes, at);
    opcodes[at + 50] != kind_byte(flow.kind)
        || opcodes[at + 51] != flow.pool as u8
        || opcodes[at + 52] != flow.first
        || opcodes[at + 53] != flow.base as u8
}

// The file with its records in the form asked for.
fn write(out: &mut [u8], opcodes: &[u8], to: Form) -> Result<usize, Refusal>
    ensures { WrittenBy (put_text (file_as to opcodes.now) out.old) result out.new }
{
    let n = opcodes.len() / tables::opcode_size(other(to));
    if n * tables::opcode_size(to) <= out.len() {
        Ok(put_records(out, opcodes, to, n))
    } else {
        Err(Refusal {
            fault: Fault::ShortOutput,
            place: 0,
        })
    }
}

// The form of the records that become records of this form.
fn other(to: Form) -> Form
    ensures { result ≡ other to }
{
    match to {
        Form::Old => Form::New,
        Form::New => Form::Old,
    }
}

// The n records of a file in the form asked for, one behind the other.
fn put_records(out: &mut [u8], opcodes: &[u8], to: Form, n: usize) -> usize
    requires { n ≡ length opcodes.now / size_as (other to) }
    ensures { Put out.old 0 (joined (record_as to opcodes.now) 0 n) out.new result }
{
    let mut at = 0;
    for k in 0..n {
        at = put_record(out, at, opcodes, to, k);
    }
    at
}

// The fields, in the new form the flow of the name, and zeros.
fn put_record(out: &mut [u8], at: usize, opcodes: &[u8], to: Form, k: usize) -> usize
    requires { k < length opcodes.now / size_as (other to) }
    ensures { Put out.old at (record_as to opcodes.now k) out.new result }
{
    let from = k * tables::opcode_size(other(to));
    let p = text::put_bytes(out, at, &opcodes[from..from + FIELDS]);
    match to {
        Form::New => {
            let flow = names::named_flow(opcodes, from);
            let p = text::put_bytes(out, p, &flow_bytes(flow));
            text::put_bytes(out, p, &[0; 18])
        }
        Form::Old => text::put_bytes(out, p, &[0; 14]),
    }
}

// Bytes 50 to 53.
fn flow_bytes(flow: Flow) -> [u8; 4]
    ensures { result ≡ flow_bytes flow }
{
    [
        kind_byte(flow.kind),
        flow.pool as u8,
        flow.first,
        flow.base as u8,
    ]
}

// The file's numbers: a cast would hang on the order of Kind's lines.
fn kind_byte(kind: Kind) -> u8
    ensures { result ≡ kind_byte kind }
{
    match kind {
        Kind::On => 0,
        Kind::Ends => 1,
        Kind::Jumps => 2,
        Kind::Branches => 3,
        Kind::JumpsBack => 4,
        Kind::Switch => 5,
    }
}
