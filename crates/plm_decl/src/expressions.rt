//! The names of expressions.

ghost use Rattle.std.specs.Prelude.{◌≡◌, IfOk, OnOk, option_map};
ghost use Rattle.plm_syntax.specs.Tree.{ReferenceE, LocationE};
ghost use Rattle.plm_syntax.specs.View.{name_of};
ghost use Rattle.plm_syntax.specs.View as tree;
ghost use Rattle.plm_decl.specs.Inner.Scope.{frames_of};
ghost use Rattle.plm_decl.specs.Layout.{structure_of};
ghost use Rattle.plm_decl.specs.Resolver.{Known};
ghost use Rattle.plm_decl.specs.Inner.Resolver.{known_of};
ghost use Rattle.plm_decl.specs.Resolved.{ExpressionR, EmbeddedR};
ghost use Rattle.plm_decl.specs.ResolvedView as view;
ghost use Rattle.plm_decl.specs.Expressions as spec;
ghost use Rattle.plm_decl.specs.Inner.Expressions.{chained};

use crate::layout::{Form, Member};
use crate::parts::{append, boxed, pushed};
use crate::resolved::{Binding, Expression, Location, Operation, Reference, Selector};
use crate::resolver::Resolver;
use crate::scope::Scope;
use crate::structure::Structure;
use plm_syntax::{Name, Position};
use plm_token::{normal, string_value};
use std::alloc::AllocError;
use word86::Number;

impl Resolver {
    /// The structure of a variable that a name stands for.
    fn structure(&self, binding: Binding) -> Option<&Structure>
        ensures { option_map (λ s. structure_of s.now) result ≡ spec.structure_meant (known_of self.now) binding }
    {
        let Binding::Variable(variable) = binding else {
            return None;
        };
        match self.variables.get(variable)?.form {
            Form::Structure(structure) => self.structures.get(structure),
            Form::Scalar(_) => None,
        }
    }

    /// A structure's member. What is no structure has none, which is no fault of names.
    fn member(&mut self, binding: Binding, name: &Name<'_>) -> Result<Option<Member>, AllocError>
        ensures { IfOk result (λ m. (m, known_of self.new) ≡ spec.member_meant binding (name_of name.now) (known_of self.old)) }
    {
        let key = normal(self.alloc, name.text)?;
        let Some(structure) = self.structure(binding) else {
            return Ok(None);
        };
        let member = structure.member(&key);
        self.note_unless(member.is_some(), Number::E301, name.place)?;
        Ok(member)
    }

    #[cycle(expression)]
    #[tactic(auto, using(crate::proofs::ResolvedRows::expression_row, crate::proofs::SyntaxRows::expression_row))]
    pub fn expression(
        &mut self,
        e: &plm_syntax::Expression<'_>,
        scope: &Scope<'_>,
    ) -> Result<Expression, AllocError>
        ensures { IfOk result (λ r. (view.expression_of r, known_of self.new) ≡ spec.expression (frames_of scope.now) (tree.expression_of e.now) (known_of self.old)) }
    {
        match e {
            plm_syntax::Expression::Numeral(number) => Ok(Expression::Number(*number)),
            plm_syntax::Expression::Text(text) => Ok(Expression::Text(
                text.place,
                string_value(self.alloc, text.text)?,
            )),
            plm_syntax::Expression::Reference(reference) => {
                self.reference_expression(reference, scope)
            }
            plm_syntax::Expression::Location(location) => self.location_expression(location, scope),
            plm_syntax::Expression::Parenthesised(place, inner) => {
                Ok(Expression::Parenthesised(*place, self.boxed_expression(inner, scope)?))
            }
            plm_syntax::Expression::Embedded(place, target, value) => {
                let target = self.reference(target, scope)?;
                self.embedded(value, target, *place, scope)
            }
            plm_syntax::Expression::Unary(place, operator, operand) => {
                Ok(Expression::Unary(*place, *operator, self.boxed_expression(operand, scope)?))
            }
            plm_syntax::Expression::Chain { first, others } => {
                let first = self.boxed_expression(first, scope)?;
                let others = self.operations(others, scope)?;
                Ok(Expression::Chain { first, others })
            }
        }
    }

    // The arms of `expression` for names and locations. They stand apart, where their answers are zeroed for them alone.
    #[cycle(expression)]
    #[inline(never)]
    fn reference_expression(
        &mut self,
        reference: &plm_syntax::Reference<'_>,
        scope: &Scope<'_>,
    ) -> Result<Expression, AllocError>
        ensures { IfOk result (λ r. (view.expression_of r, known_of self.new) ≡ spec.expression (frames_of scope.now) (ReferenceE (tree.reference_of reference.now)) (known_of self.old)) }
    {
        Ok(Expression::Reference(self.reference(reference, scope)?))
    }

    #[cycle(expression)]
    #[inline(never)]
    fn location_expression(
        &mut self,
        location: &plm_syntax::Location<'_>,
        scope: &Scope<'_>,
    ) -> Result<Expression, AllocError>
        ensures { IfOk result (λ r. (view.expression_of r, known_of self.new) ≡ spec.expression (frames_of scope.now) (LocationE (tree.location_of location.now)) (known_of self.old)) }
    {
        Ok(Expression::Location(self.location(location, scope)?))
    }

    /// What stands behind the target of an embedded assignment, beside this target.
    #[cycle(expression)]
    #[inline(never)]
    fn embedded(
        &mut self,
        value: &plm_syntax::Expression<'_>,
        target: Reference,
        place: Position,
        scope: &Scope<'_>,
    ) -> Result<Expression, AllocError>
        ensures { let e = spec.expression (frames_of scope.now) (tree.expression_of value.now) (known_of self.old) in let all : ExpressionR × Known = (EmbeddedR place (view.reference_of target) e.0, e.1) in IfOk result (λ r. (view.expression_of r, known_of self.new) ≡ all) }
    {
        match self.boxed_expression(value, scope) {
            Ok(value) => Ok(Expression::Embedded(place, target, value)),
            Err(refused) => {
                drop(target);
                Err(refused)
            }
        }
    }

    #[cycle(expression)]
    #[inline(never)]
    fn boxed_expression(
        &mut self,
        e: &plm_syntax::Expression<'_>,
        scope: &Scope<'_>,
    ) -> Result<Box<Expression>, AllocError>
        ensures { IfOk result (λ r. (view.expression_of r.value, known_of self.new) ≡ spec.expression (frames_of scope.now) (tree.expression_of e.now) (known_of self.old)) }
    {
        boxed(self.alloc, self.expression(e, scope))
    }

    /// Operators of one precedence, whatever stands to their left.
    #[cycle(expression)]
    #[inline(never)]
    fn operations(
        &mut self,
        operations: &[plm_syntax::Operation<'_>],
        scope: &Scope<'_>,
    ) -> Result<Vec<Operation>, AllocError>
        ensures { IfOk result (λ r. (left : ExpressionR) → (view.leaned left r.items, known_of self.new) ≡ chained (frames_of scope.now) left operations.now (known_of self.old)) }
    {
        let mut resolved = Vec::with_capacity(self.alloc, operations.len())?;
        for operation in operations {
            let operand = self.expression(&operation.operand, scope)?;
            append(
                &mut resolved,
                Operation {
                    place: operation.place,
                    operator: operation.operator,
                    operand,
                },
            )?;
        }
        Ok(resolved)
    }

    #[cycle(expression)]
    pub fn reference(
        &mut self,
        reference: &plm_syntax::Reference<'_>,
        scope: &Scope<'_>,
    ) -> Result<Reference, AllocError>
        ensures { IfOk result (λ r. (view.reference_of r, known_of self.new) ≡ spec.reference (frames_of scope.now) (tree.reference_of reference.now) (known_of self.old)) }
    {
        let binding = self.used(scope, &reference.name)?;
        let subscripts = self.subscripts(&reference.subscripts, scope)?;
        let selector = self.selector(&reference.selector, scope, binding)?;
        Ok(Reference {
            place: reference.name.place,
            binding,
            subscripts,
            selector,
        })
    }

    #[cycle(expression)]
    fn subscripts(
        &mut self,
        subscripts: &[plm_syntax::Expression<'_>],
        scope: &Scope<'_>,
    ) -> Result<Vec<Expression>, AllocError>
        ensures { IfOk result (λ r. (view.expressions_of r.items, known_of self.new) ≡ spec.subscripts (frames_of scope.now) (tree.expressions_of subscripts.now) (known_of self.old)) }
    {
        let mut resolved = Vec::with_capacity(self.alloc, subscripts.len())?;
        for subscript in subscripts {
            pushed(&mut resolved, self.expression(subscript, scope))?;
        }
        Ok(resolved)
    }

    #[cycle(expression)]
    fn selector(
        &mut self,
        selector: &plm_syntax::Selector<'_>,
        scope: &Scope<'_>,
        binding: Binding,
    ) -> Result<Selector, AllocError>
        ensures { IfOk result (λ r. (view.selector_of r, known_of self.new) ≡ spec.selector (frames_of scope.now) binding (tree.selector_of selector.now) (known_of self.old)) }
    {
        match selector {
            plm_syntax::Selector::None => Ok(Selector::None),
            plm_syntax::Selector::Member(name) => {
                let member = self.member(binding, name)?;
                Ok(Selector::Member(name.place, member))
            }
            plm_syntax::Selector::Element(name, subscript) => {
                let member = self.member(binding, name)?;
                let subscript = self.boxed_expression(subscript, scope)?;
                Ok(Selector::Element(name.place, member, subscript))
            }
        }
    }

    #[cycle(expression)]
    #[tactic(auto, using(crate::proofs::ResolvedRows::expression_row, crate::proofs::SyntaxRows::expression_row, crate::proofs::SyntaxRows::value_row, crate::proofs::ListViews::value_list_from))]
    pub fn location(
        &mut self,
        location: &plm_syntax::Location<'_>,
        scope: &Scope<'_>,
    ) -> Result<Location, AllocError>
        ensures { IfOk result (λ r. (view.location_of r, known_of self.new) ≡ spec.location (frames_of scope.now) (tree.location_of location.now) (known_of self.old)) }
    {
        match location {
            plm_syntax::Location::Reference(place, form, reference) => {
                let reference = self.reference(reference, scope)?;
                Ok(Location::Reference(*place, *form, reference))
            }
            plm_syntax::Location::Constants(place, form, values) => {
                let object = self.constant_bytes(scope, *place, values)?;
                Ok(Location::Constants(*place, *form, object))
            }
        }
    }
}
