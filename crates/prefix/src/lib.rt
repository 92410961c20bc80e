// Where an instruction begins: the end of the code, a prefix, an opcode.
#![tactic(auto)]

ghost use Rattle.std.specs.Prelude.{◌≡◌, ◌<◌, length};
ghost use Rattle.prefix.specs.Head.{op_at, behind, head_at};

use refusal::{Fault, Refusal};
use tables::Prefixes;

// The opcode at a place, behind any prefix, and where its operands begin.
#[derive(Clone, Copy)]
pub struct Head {
    pub opcode: u8,
    pub scale: u8,
    pub at: usize,
}

// The opcode at a place, none at the end of the code; ops is the number of opcodes.
#[tactic(auto, unfolding(crate::specs::Head::head_at))]
pub fn head_at(
    code: &[u8],
    ops: usize,
    start: usize,
    prefixes: Prefixes,
) -> Result<Option<Head>, Refusal>
    ensures { result ≡ head_at code.now ops start prefixes }
{
    if code.len() < start {
        return Err(Refusal {
            fault: Fault::BeyondCode,
            place: start,
        });
    }
    if start == code.len() {
        return Ok(None);
    }
    let prefix = words::byte_at(code, start);
    if prefixes.wide == Some(prefix) {
        return behind_prefix(code, ops, start, Fault::EndsAfterWide, 2);
    }
    if prefixes.extra_wide == Some(prefix) {
        return behind_prefix(code, ops, start, Fault::EndsAfterExtraWide, 4);
    }
    op_at(code, ops, start, 1, start)
}

// The opcode at place at, if a record has it; ops is the number of opcodes.
fn op_at(
    code: &[u8],
    ops: usize,
    start: usize,
    scale: u8,
    at: usize,
) -> Result<Option<Head>, Refusal>
    requires { at < length code.now }
    ensures { result ≡ op_at code.now ops start scale at }
{
    let opcode = words::byte_at(code, at);
    if ops <= opcode as usize {
        return Err(Refusal {
            fault: Fault::NoOpcode,
            place: start,
        });
    }
    Ok(Some(Head {
        opcode,
        scale,
        at: at + 1,
    }))
}

// The opcode behind a prefix at start; fault is what is refused where the code ends there.
fn behind_prefix(
    code: &[u8],
    ops: usize,
    start: usize,
    fault: Fault,
    scale: u8,
) -> Result<Option<Head>, Refusal>
    requires { start < length code.now }
    ensures { result ≡ behind code.now ops start fault scale }
{
    let next = start + 1;
    if next == code.len() {
        return Err(Refusal {
            fault,
            place: start,
        });
    }
    op_at(code, ops, start, scale, next)
}
