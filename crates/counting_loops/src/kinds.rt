//! What is to be known of an instruction's operands, so that every round takes the same way.

ghost use Rattle.std.specs.Prelude.{◌≡◌};
ghost use Rattle.counting_loops.specs.Kinds.{op_kind};

use fs_model::{Op, Size};

/// How an instruction depends on its operands.
#[derive(Clone, Copy, PartialEq, Eq, Debug)]
pub(crate) enum Kind {
    /// Writes a number that depends on neither, or jumps to one.
    Constant,
    Nothing,
    AddImmediate,
    Add,
    Subtract,
    ShiftLeft,
    JumpRegister,
    Equality,
    Order,
    SignedOrder,
    Load(Size),
    Store(Size),
    /// Writes 1 or 0, by the order of the operands.
    Test,
    SignedTest,
    TestImmediate,
    SignedTestImmediate,
    /// Writes bits of rs1.
    Mask,
    /// Writes another number that is computed from the operands.
    Computed,
}

pub(crate) fn kind_of(op: Op) -> Kind
    ensures { result ≡ op_kind op }
{
    match op {
        Op::Lui | Op::Auipc | Op::Jal => Kind::Constant,
        Op::Fence => Kind::Nothing,
        Op::Addi => Kind::AddImmediate,
        Op::Add => Kind::Add,
        Op::Sub => Kind::Subtract,
        Op::Slli => Kind::ShiftLeft,
        Op::Jalr => Kind::JumpRegister,
        Op::Beq | Op::Bne => Kind::Equality,
        Op::Bltu | Op::Bgeu => Kind::Order,
        Op::Blt | Op::Bge => Kind::SignedOrder,
        Op::Lb | Op::Lbu => Kind::Load(Size::Byte),
        Op::Lh | Op::Lhu => Kind::Load(Size::Half),
        Op::Lw => Kind::Load(Size::Word),
        Op::Sb => Kind::Store(Size::Byte),
        Op::Sh => Kind::Store(Size::Half),
        Op::Sw => Kind::Store(Size::Word),
        Op::Sltu => Kind::Test,
        Op::Slt => Kind::SignedTest,
        Op::Sltiu => Kind::TestImmediate,
        Op::Slti => Kind::SignedTestImmediate,
        Op::Andi => Kind::Mask,
        _ => Kind::Computed,
    }
}
