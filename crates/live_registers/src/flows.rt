//! Where instructions continue, and which of them set rd.

ghost use Rattle.std.specs.Prelude.{◌≡◌};
ghost use Rattle.dead_cells.specs.Live.{sets_rd};
ghost use Rattle.live_registers.specs.Flows.{flow_of};

use fs_model::Op;

/// Where a run may continue after an instruction.
#[derive(Clone, Copy, PartialEq, Eq, Debug)]
pub(crate) enum Flow {
    /// At the next word.
    Straight,
    /// At a fixed distance.
    Jump,
    /// At a fixed distance, or at the next word.
    Branch,
    /// At an address in a register.
    Anywhere,
}

pub(crate) fn flow_of(op: Op) -> Flow
    ensures { result ≡ flow_of op }
{
    match op {
        Op::Jal => Flow::Jump,
        Op::Jalr => Flow::Anywhere,
        Op::Beq | Op::Bne | Op::Blt | Op::Bge | Op::Bltu | Op::Bgeu => Flow::Branch,
        _ => Flow::Straight,
    }
}

/// Returns whether an instruction that goes on has set rd.
pub(crate) fn sets_rd(op: Op) -> bool
    ensures { result ≡ sets_rd op }
{
    match op {
        Op::Beq | Op::Bne | Op::Blt | Op::Bge | Op::Bltu | Op::Bgeu => false,
        Op::Sb | Op::Sh | Op::Sw | Op::Fence => false,
        _ => true,
    }
}
