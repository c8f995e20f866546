//! The code of assignments.

ghost use Rattle.std.specs.Prelude.{◌≡◌, ◌++◌, cond, IfOk, OnOk, IsOkUnless};
ghost use Rattle.plm_type.specs.View.{anchor_of, expression_of, procedures_of, reference_of, subscripts_of, target_of, targets_of};
ghost use Rattle.plm_type.specs.Rest.{ToVariable, Only};
ghost use Rattle.lower.specs.Expressions.{folded, targets_code};
ghost use Rattle.lower.specs.Statements.{constant_store, store_in, known_store, target_subscripts};
ghost use Rattle.lower.specs.Inner.Assignments.{assigned_code};
ghost use Rattle.lower.specs.Inner.Expressions.{given, unknown_code};
ghost use Rattle.lower.specs.Inner.LowBytes.{low_given, low_unknown_code};

use crate::callees::Callees;
use crate::expressions::{anchor_place, give, known, leads_to, subscripts, target};
use crate::low_bytes::{low_give, low_known, take_bytes};
use crate::put::put;
use icode::Instruction;
use plm_type::{Anchor, Expression, Reference, Subscript, Target, trees_have_their_lists};
use word86::{Fault, Width};

type Instructions = Vec<Instruction>;

// The store of a constant at subscripts that are not known.
fn store_at(
    width: Width,
    anchor: Anchor,
    offset: u64,
    subscripts: &[Subscript],
    constant: u16,
) -> Option<Instruction>
    ensures { result ≡ constant_store width (anchor_of anchor) offset (subscripts_of subscripts.now) constant }
{
    let at = anchor_place(anchor, offset);
    match anchor {
        Anchor::Behind(_) => None,
        Anchor::InObject(_, _, _) | Anchor::OnScreen(_, _, _) => match subscripts {
            [] => None,
            [_, ..] => Some(Instruction::StoreConstantAt(width, at, constant)),
        },
    }
}

// The store of a constant to a variable whose place is computed.
fn store_to(width: Width, reference: &Reference, constant: u16) -> Option<Instruction>
    ensures { result ≡ store_in (ToVariable width (reference_of reference.now)) constant }
{
    trees_have_their_lists();
    let Reference { anchor, offset, .. } = reference;
    match leads_to(*offset, &reference.subscripts) {
        Some(_) => None,
        None => store_at(width, *anchor, *offset, &reference.subscripts, constant),
    }
}

// The store of a constant to a target.
fn store_in(to: &Target, constant: u16) -> Option<Instruction>
    ensures { result ≡ store_in (target_of to.now) constant }
{
    trees_have_their_lists();
    match to {
        Target::Variable(width, reference) => store_to(*width, reference, constant),
        Target::Plain(_, _) | Target::Port(_, _) => None,
    }
}

// The store of a value, of which this is known before any run, to one target.
#[tactic(auto, using(crate::proofs::Stores::none_for_several))]
fn known_store(first: &Target, others: &[Target], value: Option<u16>) -> Option<Instruction>
    ensures { result ≡ known_store (targets_of (target_of first.now) others.now) value }
{
    match others {
        [] => store_in(first, value?),
        [_, ..] => None,
    }
}

// The subscripts of a target's variable.
fn target_subscripts(to: &Target) -> &[Subscript]
    ensures { subscripts_of result.now ≡ target_subscripts (Only (target_of to.now)) }
{
    trees_have_their_lists();
    match to {
        Target::Variable(_, reference) => &reference.subscripts,
        Target::Plain(_, _) | Target::Port(_, _) => &[],
    }
}

// The code of a value, of which the low byte may be enough, if it is not known before any run. Every other is answered.
fn unknown(
    code: &mut Instructions,
    callees: Callees<'_>,
    byte: bool,
    value: &Expression,
) -> Result<Option<u16>, Fault>
    ensures code { OnOk result (code.new.items ≡ code.old.items ++ cond byte (low_unknown_code (procedures_of callees.entry.procedures.now) (expression_of value.now)) (unknown_code (procedures_of callees.entry.procedures.now) (expression_of value.now))) }
    ensures value { IfOk result (λ v. v ≡ folded (expression_of value.now)) }
    ensures memory { IsOkUnless result Fault.Memory }
{
    if byte {
        low_known(code, callees, value)
    } else {
        known(code, callees, value)
    }
}

// A known value, of which the low byte may be enough, comes into the accumulator.
fn give_known(code: &mut Instructions, byte: bool, value: Option<u16>) -> Result<(), Fault>
    ensures code { OnOk result (code.new.items ≡ code.old.items ++ cond byte (low_given value) (given value)) }
    ensures memory { IsOkUnless result Fault.Memory }
{
    if byte {
        low_give(code, value)
    } else {
        give(code, value)
    }
}

// The targets get the value in the accumulator, from left to right.
fn assign(
    code: &mut Instructions,
    callees: Callees<'_>,
    first: &Target,
    others: &[Target],
) -> Result<(), Fault>
    ensures code { OnOk result (code.new.items ≡ code.old.items ++ targets_code (procedures_of callees.entry.procedures.now) (targets_of (target_of first.now) others.now)) }
    ensures memory { IsOkUnless result Fault.Memory }
{
    target(code, callees, first)?;
    for other in others {
        target(code, callees, other)?;
    }
    Ok(())
}

/// The code of an assignment.
pub fn assignment(
    code: &mut Instructions,
    callees: Callees<'_>,
    first: &Target,
    others: &[Target],
    value: &Expression,
) -> Result<(), Fault>
    ensures code { OnOk result (code.new.items ≡ code.old.items ++ assigned_code (procedures_of callees.entry.procedures.now) (targets_of (target_of first.now) others.now) (expression_of value.now)) }
    ensures memory { IsOkUnless result Fault.Memory }
{
    let byte = take_bytes(first, others);
    let number = unknown(code, callees, byte, value)?;
    match known_store(first, others, number) {
        Some(store) => {
            subscripts(code, callees, target_subscripts(first))?;
            put(code, store)
        }
        None => {
            give_known(code, byte, number)?;
            assign(code, callees, first, others)
        }
    }
}
