// What an instruction does with the flow of control, as its opcode's record says (02, Wish 6); by name only the two that return (Wish 5).
#![tactic(auto)]

ghost use Rattle.std.specs.Prelude.{◌≡◌};
ghost use Rattle.flow.specs.Flow.{flow_kind, flow_of, is_return};

#[derive(Clone, Copy)]
pub enum Kind {
    // Goes to the next instruction.
    On,
    // Ends a walk.
    Ends,
    // Goes to its target.
    Jumps,
    // Goes to its target or on.
    Branches,
    // Goes to its target, which lies before it.
    JumpsBack,
    // Goes to an entry of its table or on.
    Switch,
}

// The kind of a flow byte; behind the six it is straight on.
impl From<u8> for Kind {
    ghost from_gives = { λ b kind. kind ≡ flow_kind b };

    #[tactic(auto, using(crate::proofs::Laws::kind_past), unfolding(crate::specs::Flow::flow_kind))]
    fn from(b: u8) -> Kind {
        match b {
            0 => Kind::On,
            1 => Kind::Ends,
            2 => Kind::Jumps,
            3 => Kind::Branches,
            4 => Kind::JumpsBack,
            5 => Kind::Switch,
            _ => Kind::On,
        }
    }
}

#[derive(Clone, Copy)]
pub struct Flow {
    pub kind: Kind,
    // A jump whose distance comes from the pool.
    pub pool: bool,
    // The number of the first operand used.
    pub first: u8,
    // A switch that has a case base.
    pub base: bool,
}

// The flow of an opcode, as its record says.
#[tactic(auto, unfolding(crate::specs::Flow::flow_of))]
pub fn flow_of(opcodes: &[u8], op: u8) -> Flow
    ensures { result ≡ flow_of opcodes.now op }
{
    let at = tables::opcode_start(op);
    Flow {
        kind: Kind::from(words::byte_at(opcodes, at + 50)),
        pool: words::byte_at(opcodes, at + 51) == 1,
        first: words::byte_at(opcodes, at + 52),
        base: words::byte_at(opcodes, at + 53) == 1,
    }
}

// Whether an opcode returns to the caller, by its name.
#[tactic(auto, unfolding(crate::specs::Flow::is_return))]
pub fn is_return(opcodes: &[u8], op: u8) -> bool
    ensures { result ≡ is_return opcodes.now op }
{
    let at = tables::opcode_start(op);
    tables::name_is(opcodes, at, tables::OPCODE_NAME, b"Return")
        || tables::name_is(opcodes, at, tables::OPCODE_NAME, b"SuspendGenerator")
}
