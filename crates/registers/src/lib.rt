// The largest register of a lent run of instructions.
#![tactic(auto)]

ghost use Rattle.std.specs.Prelude.{◌≡◌};
ghost use Rattle.registers.specs.Registers.{with_register, with_operand, with_instr, max_register};
ghost use Rattle.registers.specs.Numbers.{largest_numbers};

use decoder::Instr;
use operand::Operand;

// The largest register of a run of instructions; one below 0 does not count.
pub fn max_register(instrs: &[Instr]) -> Option<u32>
    ensures { largest_numbers result ≡ largest_numbers (max_register instrs.now) }
{
    let mut best = None;
    for x in instrs {
        best = with_instr(best, *x);
    }
    best
}

// The larger of a register and what was largest.
fn with_register(best: Option<u32>, index: i32) -> Option<u32>
    ensures { result ≡ with_register best index }
{
    if index < 0 {
        return best;
    }
    let n = index.cast_unsigned();
    match best {
        Some(m) => Some(m.max(n)),
        None => Some(n),
    }
}

// A list counts with its last register, an empty one with its first.
fn with_operand(best: Option<u32>, operand: Operand) -> Option<u32>
    ensures { result ≡ with_operand best operand }
{
    match operand {
        Operand::Reg(index) => with_register(best, index),
        Operand::RegList { first, count } => {
            if count == 0 {
                with_register(best, first)
            } else {
                with_register(best, words::list_last(first, count))
            }
        }
        _ => best,
    }
}

// The largest register of an instruction, and what was largest.
fn with_instr(best: Option<u32>, x: Instr) -> Option<u32>
    ensures { result ≡ with_instr best x }
{
    let mut b = best;
    for i in 0..x.count.min(8) {
        if let Some(operand) = x.operands[i].operand {
            b = with_operand(b, operand);
        }
    }
    b
}
