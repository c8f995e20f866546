//! Instructions one after the other, and operands.

ghost use Rattle.std.specs.Prelude.{◌≡◌, ◌+◌, ◌++◌, ◌∷◌, [], IfOk, OnOk, IsOkUnless};
ghost use Rattle.plm_type.specs.View.{expression_of};
ghost use Rattle.lower.specs.Expressions.{operand_of};
ghost use Rattle.lower.specs.Inner.Put.{name_of};

use icode::Instruction;
use plm_type::{Expression, Place, trees_have_their_lists};
use word86::{Fault, Width};

/// Room for the instructions of a statement: few have more.
pub const ROOM: usize = 12;

/// One more instruction. It is made where it stands, and not beside it first, where this is no call.
#[inline(always)]
pub fn put(code: &mut Vec<Instruction>, instruction: Instruction) -> Result<(), Fault>
    ensures code { OnOk result (code.new.items ≡ code.old.items ++ instruction ∷ []) }
    ensures memory { IsOkUnless result Fault.Memory }
{
    code.push(instruction)?;
    Ok(())
}

/// More instructions.
pub fn add(code: &mut Vec<Instruction>, others: &[Instruction]) -> Result<(), Fault>
    ensures code { OnOk result (code.new.items ≡ code.old.items ++ others.now) }
    ensures memory { IsOkUnless result Fault.Memory }
{
    code.extend_from_slice(others)?;
    Ok(())
}

/// How many instructions a jump leads over. All that both numbers count stands in memory by then, but for a few that are put next, and an
/// instruction takes several bytes. So the sum is far below 2^64, and this `Memory` never comes.
pub fn distance(near: usize, far: usize) -> Result<usize, Fault>
    ensures sum { IfOk result (λ r. r ≡ near + far) }
    ensures memory { IsOkUnless result Fault.Memory }
{
    near.checked_add(far).ok_or(Fault::Memory)
}

/// What an expression is as an operand.
#[derive(Clone, Copy)]
pub enum Operand {
    /// Of an instruction: a constant, and a plain variable.
    Number(u16),
    Name(Width, Place),
    /// The value in the accumulator, once it is computed.
    Computed,
}

/// The plain variable that an expression is.
#[tactic(auto, using(crate::proofs::Trees::same_place))]
pub fn as_name(tree: &Expression) -> Option<(Width, Place)>
    ensures { result ≡ name_of (operand_of (expression_of tree.now)) }
{
    trees_have_their_lists();
    match tree {
        Expression::Plain(width, at) => Some((*width, *at)),
        Expression::Chain(first, others) => match others.as_slice() {
            [] => as_name(first),
            [_, ..] => None,
        },
        Expression::Constant(_)
        | Expression::Variable(_, _)
        | Expression::Location(_)
        | Expression::Unary(_, _, _)
        | Expression::Embedded(_, _)
        | Expression::Input(_, _)
        | Expression::Call(_, _) => None,
    }
}
