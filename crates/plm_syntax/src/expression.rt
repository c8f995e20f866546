//! Expressions, references, locations and values.
//!
//! `room` is how many more levels may be opened. Each function's contract leads a run, from a stack that awaits what the function
//! reads to the stack after it, over the tokens that it took (see `Leads`).

ghost use Rattle.std.specs.Prelude.{◌≡◌, ◌∷◌, ◌++◌, [], ℕ, List};
ghost use Rattle.plm_syntax.specs.Terminal.{NameT};
ghost use Rattle.plm_syntax.specs.Tree.{ExpressionT, ReferenceE, ReferenceOf, ExpressionsT, no_member};
ghost use Rattle.plm_syntax.specs.View.{name_of, expression_of, reference_of};
ghost use Rattle.plm_token.specs.declared.token.Mark.TheVariants.{RightParenthesis};
ghost use Rattle.plm_syntax.specs.Inner.Symbol.{ExpressionR, need, Want, PrimaryG, SignedG, NegationG, MoreG, InsideG, AfterReferenceG, SubscriptsG, SelectorG, LocatedG, ValueG};
ghost use Rattle.plm_syntax.specs.Inner.Machine.{operand, an_expression, a_value_list};
ghost use Rattle.plm_syntax.specs.Inner.Parsed.{Leads, Within};
ghost use Rattle.plm_syntax.specs.Inner.Parts.{precedence_view, read_expression, read_boxed, read_operations, read_reference, read_subscripts, read_selector, read_location, read_value, read_values, reference_read, nothing_read, joined, all_precedences, operators_from, IsForm, IsUnary};

use crate::cursor::Cursor;
use crate::failure::Failure;
use crate::operator::{Precedence, looser_at, operator_at, precedence_at};
use crate::parts::{MOSTLY, beside, boxed, closing, pushed};
use crate::tree::{
    Expression, Location, LocationForm, Name, Operation, Position, Reference, Selector,
    UnaryOperator, Value,
};
use plm_token::{Keyword, Mark};
use std::alloc::Global;

/// An expression.
pub(crate) fn expression<'t, 'a>(
    alloc: Global,
    room: u8,
    cursor: Cursor<'t, 'a>,
) -> Result<(Expression<'a>, Cursor<'t, 'a>), Failure>
    ensures leads { Leads read_expression an_expression nothing_read result cursor.entry room }
    ensures within { Within result cursor.entry }
{
    whole(alloc, room, cursor)
}

/// An expression. One without NOT at its front begins with a primary, which is mostly all of it.
#[cycle(expression)]
fn whole<'t, 'a>(
    alloc: Global,
    room: u8,
    cursor: Cursor<'t, 'a>,
) -> Result<(Expression<'a>, Cursor<'t, 'a>), Failure>
    ensures leads { Leads read_expression an_expression nothing_read result cursor.entry room }
    ensures within { Within result cursor.entry }
{
    if let Some(_) = cursor.keyword(Keyword::Not) {
        return binary(alloc, room, Precedence::Disjunctions, cursor);
    }
    let (first, rest) = signed(alloc, room, cursor)?;
    climb(alloc, room, first, rest)
}

/// Operands of a precedence, joined by its operators from left to right.
#[cycle(expression)]
fn binary<'t, 'a>(
    alloc: Global,
    room: u8,
    precedence: Precedence,
    cursor: Cursor<'t, 'a>,
) -> Result<(Expression<'a>, Cursor<'t, 'a>), Failure>
    ensures leads { Leads read_expression (joined (precedence_view precedence)) nothing_read result cursor.entry room }
    ensures within { Within result cursor.entry }
{
    let (left, rest) = operand(alloc, room, precedence, cursor)?;
    more(alloc, room, precedence, left, rest)
}

/// The operators of a precedence after their first operand, and their right operands; there is one relation at most.
#[cycle(expression)]
fn more<'t, 'a>(
    alloc: Global,
    room: u8,
    precedence: Precedence,
    first: Expression<'a>,
    cursor: Cursor<'t, 'a>,
) -> Result<(Expression<'a>, Cursor<'t, 'a>), Failure>
    ensures leads { Leads read_expression (λ s. Want (MoreG (precedence_view precedence)) ∷ s) (read_expression first.entry) result cursor.entry room }
    ensures within { Within result cursor.entry }
{
    let Some(_) = operator_at(precedence, cursor) else {
        return Ok((first, cursor));
    };
    let ((left, others), rest) = beside(first, operations(alloc, room, precedence, cursor))?;
    if others.is_empty() {
        return Ok((left, rest));
    }
    let first = Box::new(alloc, left)?;
    Ok((Expression::Chain { first, others }, rest))
}

/// The operators of a precedence with their right operands; there is one relation at most.
#[cycle(expression)]
fn operations<'t, 'a>(
    alloc: Global,
    room: u8,
    precedence: Precedence,
    cursor: Cursor<'t, 'a>,
) -> Result<(Vec<Operation<'a>>, Cursor<'t, 'a>), Failure>
    ensures leads { (left : ExpressionT) → Leads (λ os. read_operations left os.items) (λ s. Want (MoreG (precedence_view precedence)) ∷ s) (λ v. ExpressionR left ∷ v) result cursor.entry room }
    ensures within { Within result cursor.entry }
{
    let mut list = Vec::with_capacity(alloc, MOSTLY)?;
    let mut rest = cursor;
    while let Some((place, operator, after)) = operator_at(precedence, rest) {
        let (operand, behind) = operand(alloc, room, precedence, after)?;
        list.push(Operation {
            place,
            operator,
            operand,
        })?;
        rest = behind;
        if precedence.is_relations() {
            return Ok((list, rest));
        }
    }
    Ok((list, rest))
}

/// An operand of a precedence's operators.
#[cycle(expression)]
fn operand<'t, 'a>(
    alloc: Global,
    room: u8,
    precedence: Precedence,
    cursor: Cursor<'t, 'a>,
) -> Result<(Expression<'a>, Cursor<'t, 'a>), Failure>
    ensures leads { Leads read_expression (λ s. operand (precedence_view precedence) ++ s) nothing_read result cursor.entry room }
    ensures within { Within result cursor.entry }
{
    match precedence {
        Precedence::Products => signed(alloc, room, cursor),
        Precedence::Sums => binary(alloc, room, Precedence::Products, cursor),
        Precedence::Relations => binary(alloc, room, Precedence::Sums, cursor),
        Precedence::Conjunctions => negation(alloc, room, cursor),
        Precedence::Disjunctions => binary(alloc, room, Precedence::Conjunctions, cursor),
    }
}

/// A relation, with NOT before it any number of times.
#[cycle(expression)]
fn negation<'t, 'a>(
    alloc: Global,
    room: u8,
    cursor: Cursor<'t, 'a>,
) -> Result<(Expression<'a>, Cursor<'t, 'a>), Failure>
    ensures leads { Leads read_expression (λ s. Want NegationG ∷ s) nothing_read result cursor.entry room }
    ensures within { Within result cursor.entry }
{
    match cursor.keyword(Keyword::Not) {
        Some((place, inner)) => {
            let operand = negation(alloc, inner.level_down(room)?, inner);
            unary(alloc, place, UnaryOperator::Not, operand)
        }
        None => binary(alloc, room, Precedence::Relations, cursor),
    }
}

/// A sign or NOT, and the operand that was read after it.
fn unary<'t, 'a>(
    alloc: Global,
    place: Position,
    operator: UnaryOperator,
    operand: Result<(Expression<'a>, Cursor<'t, 'a>), Failure>,
) -> Result<(Expression<'a>, Cursor<'t, 'a>), Failure>
    ensures { IsUnary place operator operand.entry result }
{
    let (operand, rest) = boxed(alloc, operand)?;
    Ok((Expression::Unary(place, operator, operand), rest))
}

/// A primary, with a sign before it or none.
#[cycle(expression)]
fn signed<'t, 'a>(
    alloc: Global,
    room: u8,
    cursor: Cursor<'t, 'a>,
) -> Result<(Expression<'a>, Cursor<'t, 'a>), Failure>
    ensures leads { Leads read_expression (λ s. Want SignedG ∷ s) nothing_read result cursor.entry room }
    ensures within { Within result cursor.entry }
{
    if let Some((place, inner)) = cursor.mark(Mark::Plus) {
        let operand = primary(alloc, inner.level_down(room)?, inner);
        return unary(alloc, place, UnaryOperator::Plus, operand);
    }
    if let Some((place, inner)) = cursor.mark(Mark::Minus) {
        let operand = primary(alloc, inner.level_down(room)?, inner);
        return unary(alloc, place, UnaryOperator::Minus, operand);
    }
    primary(alloc, room, cursor)
}

/// A primary.
#[cycle(expression)]
fn primary<'t, 'a>(
    alloc: Global,
    room: u8,
    cursor: Cursor<'t, 'a>,
) -> Result<(Expression<'a>, Cursor<'t, 'a>), Failure>
    ensures leads { Leads read_expression (λ s. Want PrimaryG ∷ s) nothing_read result cursor.entry room }
    ensures within { Within result cursor.entry }
{
    if let Some((name, rest)) = cursor.name() {
        let (reference, behind) = reference(alloc, room, name, rest)?;
        return Ok((Expression::Reference(reference), behind));
    }
    if let Some((number, rest)) = cursor.numeral() {
        return Ok((Expression::Numeral(number), rest));
    }
    if let Some((text, rest)) = cursor.text() {
        return Ok((Expression::Text(text), rest));
    }
    if let Some((place, inner)) = cursor.mark(Mark::LeftParenthesis) {
        return parenthesised(alloc, inner.level_down(room)?, place, inner);
    }
    if let Some((place, form, rest)) = form_at(cursor) {
        let (location, behind) = location(alloc, room, place, form, rest)?;
        return Ok((Expression::Location(location), behind));
    }
    Err(cursor.refuse())
}

/// The mark of a location where it comes next, and what is left after it.
pub(crate) fn form_at<'t, 'a>(
    cursor: Cursor<'t, 'a>,
) -> Option<(Position, LocationForm, Cursor<'t, 'a>)>
    ensures { IsForm cursor.entry result }
{
    if let Some((place, rest)) = cursor.mark(Mark::AtSign) {
        return Some((place, LocationForm::Pointer, rest));
    }
    let (place, rest) = cursor.mark(Mark::Period)?;
    Some((place, LocationForm::Offset, rest))
}

/// What stands after a parenthesis: an expression, or a reference, `:=` and an expression.
#[cycle(expression)]
fn parenthesised<'t, 'a>(
    alloc: Global,
    room: u8,
    place: Position,
    cursor: Cursor<'t, 'a>,
) -> Result<(Expression<'a>, Cursor<'t, 'a>), Failure>
    ensures leads { Leads read_expression (λ s. Want (InsideG place) ∷ s) nothing_read result cursor.entry room }
    ensures within { Within result cursor.entry }
{
    if let Some((name, rest)) = cursor.name() {
        let (reference, behind) = reference(alloc, room, name, rest)?;
        return behind_reference(alloc, room, place, reference, behind);
    }
    let (inside, rest) = closed(alloc, room, cursor)?;
    Ok((Expression::Parenthesised(place, inside), rest))
}

/// An expression, and the parenthesis after it.
#[cycle(expression)]
fn closed<'t, 'a>(
    alloc: Global,
    room: u8,
    cursor: Cursor<'t, 'a>,
) -> Result<(Box<Expression<'a>>, Cursor<'t, 'a>), Failure>
    ensures leads { Leads read_boxed (λ s. an_expression (need RightParenthesis ∷ s)) nothing_read result cursor.entry room }
    ensures within { Within result cursor.entry }
{
    let inside = whole(alloc, room, cursor);
    boxed(alloc, closing(inside, Mark::RightParenthesis))
}

/// What stands after a parenthesis and a reference.
#[cycle(expression)]
fn behind_reference<'t, 'a>(
    alloc: Global,
    room: u8,
    place: Position,
    first: Reference<'a>,
    cursor: Cursor<'t, 'a>,
) -> Result<(Expression<'a>, Cursor<'t, 'a>), Failure>
    ensures leads { Leads read_expression (λ s. Want (AfterReferenceG place) ∷ s) (read_reference first.entry) result cursor.entry room }
    ensures within { Within result cursor.entry }
{
    if let Some((_, after)) = cursor.mark(Mark::Assign) {
        let ((target, value), rest) = beside(first, closed(alloc, room, after))?;
        return Ok((Expression::Embedded(place, target, value), rest));
    }
    let begun = climb(alloc, room, Expression::Reference(first), cursor);
    let (inside, rest) = boxed(alloc, closing(begun, Mark::RightParenthesis))?;
    Ok((Expression::Parenthesised(place, inside), rest))
}

/// An expression of which the first primary was read.
#[cycle(expression)]
fn climb<'t, 'a>(
    alloc: Global,
    room: u8,
    first: Expression<'a>,
    cursor: Cursor<'t, 'a>,
) -> Result<(Expression<'a>, Cursor<'t, 'a>), Failure>
    ensures leads { Leads read_expression all_precedences (read_expression first.entry) result cursor.entry room }
    ensures within { Within result cursor.entry }
{
    match precedence_at(cursor) {
        Some(precedence) => climb_from(alloc, room, precedence, first, cursor),
        None => Ok((first, cursor)),
    }
}

/// The operators of a precedence after their first operand, and those that bind less. It stands apart, as most primaries have no operator
/// after them.
#[cycle(expression)]
#[inline(never)]
fn climb_from<'t, 'a>(
    alloc: Global,
    room: u8,
    precedence: Precedence,
    first: Expression<'a>,
    cursor: Cursor<'t, 'a>,
) -> Result<(Expression<'a>, Cursor<'t, 'a>), Failure>
    ensures leads { Leads read_expression (operators_from (precedence_view precedence)) (read_expression first.entry) result cursor.entry room }
    ensures within { Within result cursor.entry }
{
    let (left, rest) = more(alloc, room, precedence, first, cursor)?;
    match looser_at(precedence, rest) {
        Some(next) => climb_from(alloc, room, next, left, rest),
        None => Ok((left, rest)),
    }
}

/// A reference after its name.
#[cycle(expression)]
pub(crate) fn reference<'t, 'a>(
    alloc: Global,
    room: u8,
    name: Name<'a>,
    cursor: Cursor<'t, 'a>,
) -> Result<(Reference<'a>, Cursor<'t, 'a>), Failure>
    ensures leads { Leads read_reference (λ s. Want SubscriptsG ∷ Want SelectorG ∷ s) (reference_read (name_of name.entry)) result cursor.entry room }
    ensures within { Within result cursor.entry }
{
    let (subscripts, behind) = subscripts(alloc, room, cursor)?;
    let (selector, rest) = selector(alloc, room, behind)?;
    Ok((
        Reference {
            name,
            subscripts,
            selector,
        },
        rest,
    ))
}

/// Expressions in parentheses, parted by commas, where a parenthesis comes next.
#[cycle(expression)]
fn subscripts<'t, 'a>(
    alloc: Global,
    room: u8,
    cursor: Cursor<'t, 'a>,
) -> Result<(Vec<Expression<'a>>, Cursor<'t, 'a>), Failure>
    ensures leads { (n : NameT) → Leads (λ es. read_subscripts n es.items) (λ s. Want SubscriptsG ∷ s) (reference_read n) result cursor.entry room }
    ensures within { Within result cursor.entry }
{
    let Some((_, inner)) = cursor.mark(Mark::LeftParenthesis) else {
        return Ok((Vec::new(alloc), cursor));
    };
    let inside = inner.level_down(room)?;
    let mut list = Vec::with_capacity(alloc, MOSTLY)?;
    let mut rest = pushed(&mut list, whole(alloc, inside, inner))?;
    while let Some((_, after)) = rest.mark(Mark::Comma) {
        rest = pushed(&mut list, whole(alloc, inside, after))?;
    }
    rest.close(list, Mark::RightParenthesis)
}

/// A member, where there is one.
#[cycle(expression)]
fn selector<'t, 'a>(
    alloc: Global,
    room: u8,
    cursor: Cursor<'t, 'a>,
) -> Result<(Selector<'a>, Cursor<'t, 'a>), Failure>
    ensures leads { (n : NameT) (es : ExpressionsT) → Leads (read_selector n es) (λ s. Want SelectorG ∷ s) (λ v. ExpressionR (ReferenceE (ReferenceOf n es no_member)) ∷ v) result cursor.entry room }
    ensures within { Within result cursor.entry }
{
    let Some((_, after)) = cursor.mark(Mark::Period) else {
        return Ok((Selector::None, cursor));
    };
    let (name, behind) = after.expect_name()?;
    let Some((_, inner)) = behind.mark(Mark::LeftParenthesis) else {
        return Ok((Selector::Member(name), behind));
    };
    let (subscript, rest) = closed(alloc, inner.level_down(room)?, inner)?;
    Ok((Selector::Element(name, subscript), rest))
}

/// A location after its `@` or `.`: the parenthesis of a list opens a level.
#[cycle(expression)]
pub(crate) fn location<'t, 'a>(
    alloc: Global,
    room: u8,
    place: Position,
    form: LocationForm,
    cursor: Cursor<'t, 'a>,
) -> Result<(Location<'a>, Cursor<'t, 'a>), Failure>
    ensures leads { Leads read_location (λ s. Want (LocatedG place form) ∷ s) nothing_read result cursor.entry room }
    ensures within { Within result cursor.entry }
{
    if let Some((_, inner)) = cursor.mark(Mark::LeftParenthesis) {
        let (constants, rest) = values(alloc, inner.level_down(room)?, inner)?;
        return Ok((Location::Constants(place, form, constants), rest));
    }
    let (name, behind) = cursor.expect_name()?;
    let (reference, rest) = reference(alloc, room, name, behind)?;
    Ok((Location::Reference(place, form, reference), rest))
}

/// Values parted by commas, and the parenthesis after them.
#[cycle(expression)]
pub(crate) fn values<'t, 'a>(
    alloc: Global,
    room: u8,
    cursor: Cursor<'t, 'a>,
) -> Result<(Vec<Value<'a>>, Cursor<'t, 'a>), Failure>
    ensures leads { Leads (λ ws. read_values ws.items) a_value_list nothing_read result cursor.entry room }
    ensures within { Within result cursor.entry }
{
    let mut list = Vec::new(alloc);
    let mut rest = pushed(&mut list, value(alloc, room, cursor))?;
    while let Some((_, after)) = rest.mark(Mark::Comma) {
        rest = pushed(&mut list, value(alloc, room, after))?;
    }
    rest.close(list, Mark::RightParenthesis)
}

/// A value of INITIAL, DATA or a list of constants.
#[cycle(expression)]
fn value<'t, 'a>(
    alloc: Global,
    room: u8,
    cursor: Cursor<'t, 'a>,
) -> Result<(Value<'a>, Cursor<'t, 'a>), Failure>
    ensures leads { Leads read_value (λ s. Want ValueG ∷ s) nothing_read result cursor.entry room }
    ensures within { Within result cursor.entry }
{
    if let Some((number, rest)) = cursor.numeral() {
        return Ok((Value::Numeral(number), rest));
    }
    if let Some((text, rest)) = cursor.text() {
        return Ok((Value::Text(text), rest));
    }
    if let Some((_, after)) = cursor.mark(Mark::Minus) {
        let (number, rest) = after.expect_number()?;
        return Ok((Value::Negative(number), rest));
    }
    if let Some((place, form, after)) = form_at(cursor) {
        let (location, rest) = location(alloc, room, place, form, after)?;
        return Ok((Value::Location(location), rest));
    }
    Err(cursor.refuse())
}
