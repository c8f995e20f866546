//! The step of a DO with an index.

ghost use Rattle.std.specs.Prelude.{◌≡◌, IfOk, option_map};
ghost use Rattle.plm_syntax.specs.View.{number_of};
ghost use Rattle.plm_decl.specs.ResolvedView as resolved;
ghost use Rattle.plm_type.specs.Inner.Typer.{step_said, step_after, step_by};
ghost use Rattle.plm_type.specs.Steps as spec;

use crate::program::{Counting, Expression};
use crate::typer::Typer;
use crate::types::is_integer;
use plm_decl::found::Found;
use plm_decl::{ScalarType, resolved_trees_have_their_lists};
use plm_syntax::{Numeral, Position, UnaryOperator};
use std::alloc::AllocError;
use word86::Number;

/// The step of a DO with an index, and how it counts.
#[derive(Drop)]
pub struct Step {
    pub tree: Expression,
    pub counting: Counting,
}

/// A number, and whether a minus stands before it.
#[derive(Clone, Copy)]
struct SignedStep {
    negative: bool,
    value: u32,
    place: Position,
}

impl SignedStep {
    fn new(negative: bool, number: Numeral) -> SignedStep
        ensures { result ≡ spec.with_its_sign negative (number_of number) }
    {
        SignedStep {
            negative,
            value: number.value,
            place: number.place,
        }
    }

    /// Whether an INTEGER can have it.
    fn fits(self) -> bool
        ensures { result ≡ spec.step_fits self }
    {
        self.value <= if self.negative { 32_768 } else { 32_767 }
    }

    /// Its word; 0 if no INTEGER can have it.
    fn word(self) -> u16
        ensures { result ≡ spec.step_value self }
    {
        if !self.fits() {
            return 0;
        }
        let value = self.value as u16;
        if self.negative {
            value.wrapping_neg()
        } else {
            value
        }
    }

    fn counting(self) -> Counting
        ensures { result ≡ spec.counting_by self }
    {
        if self.negative && self.value > 0 {
            Counting::SignedDown
        } else {
            Counting::SignedUp
        }
    }
}

/// A number that stands alone.
#[cycle(number_alone)]
fn number_alone(e: &plm_decl::Expression) -> Option<Numeral>
    ensures { option_map number_of result ≡ spec.number_alone (resolved.expression_of e.now) }
{
    resolved_trees_have_their_lists();
    match e {
        plm_decl::Expression::Number(number) => Some(*number),
        // Without operators it is its first operand.
        plm_decl::Expression::Chain { first, others } => {
            if others.is_empty() {
                return number_alone(first);
            }
            None
        }
        plm_decl::Expression::Text(_, _)
        | plm_decl::Expression::Reference(_)
        | plm_decl::Expression::Location(_)
        | plm_decl::Expression::Parenthesised(_, _)
        | plm_decl::Expression::Embedded(_, _, _)
        | plm_decl::Expression::Unary(_, _, _) => None,
    }
}

/// The step of a DO with an INTEGER index: a number, perhaps after one sign.
#[cycle(signed_step)]
fn signed_step(e: &plm_decl::Expression) -> Option<SignedStep>
    ensures { result ≡ spec.signed_step (resolved.expression_of e.now) }
{
    resolved_trees_have_their_lists();
    match e {
        plm_decl::Expression::Number(number) => Some(SignedStep::new(false, *number)),
        plm_decl::Expression::Unary(_, UnaryOperator::Plus, operand) => {
            let number = number_alone(operand)?;
            Some(SignedStep::new(false, number))
        }
        plm_decl::Expression::Unary(_, UnaryOperator::Minus, operand) => {
            let number = number_alone(operand)?;
            Some(SignedStep::new(true, number))
        }
        // Without operators it is its first operand.
        plm_decl::Expression::Chain { first, others } => {
            if others.is_empty() {
                return signed_step(first);
            }
            None
        }
        plm_decl::Expression::Unary(_, UnaryOperator::Not, _)
        | plm_decl::Expression::Text(_, _)
        | plm_decl::Expression::Reference(_)
        | plm_decl::Expression::Location(_)
        | plm_decl::Expression::Embedded(_, _, _)
        | plm_decl::Expression::Parenthesised(_, _) => None,
    }
}

impl Typer<'_> {
    /// The step of a DO with an INTEGER index.
    fn integer_step(
        &self,
        place: Position,
        step: Option<SignedStep>,
        faults: &mut Vec<Found>,
    ) -> Result<Step, AllocError>
        ensures { IfOk result (λ r. step_said r faults.new.items ≡ step_after faults.old.items (spec.integer_step self.now.module place step)) }
    {
        let Some(step) = step else {
            self.note_unless(false, Number::E401, place, faults)?;
            return Ok(Step {
                tree: Expression::Constant(0),
                counting: Counting::SignedUp,
            });
        };
        self.note_unless(step.fits(), Number::E401, step.place, faults)?;
        Ok(Step {
            tree: Expression::Constant(step.word()),
            counting: step.counting(),
        })
    }

    /// The step of a DO whose index has this type: 1 if it is missing.
    pub fn step(
        &self,
        scalar: Option<ScalarType>,
        place: Position,
        step: &Option<plm_decl::Expression>,
        faults: &mut Vec<Found>,
    ) -> Result<Step, AllocError>
        ensures { IfOk result (λ r. step_said r faults.new.items ≡ step_after faults.old.items (step_by self.now scalar place (resolved.step_of step.now))) }
    {
        match step {
            Some(step) => {
                if is_integer(scalar) {
                    return self.integer_step(place, signed_step(step), faults);
                }
                Ok(Step {
                    tree: self.number_in(place, step, faults)?,
                    counting: Counting::Up,
                })
            }
            None => Ok(Step {
                tree: Expression::Constant(1),
                counting: if is_integer(scalar) {
                    Counting::SignedUp
                } else {
                    Counting::Up
                },
            }),
        }
    }
}
