//! Binary operators and their precedences.

ghost use Rattle.std.specs.Prelude.{◌≡◌, ◌<◌, ℕ, List, IfSome, nat_eq, option_map};
ghost use Rattle.plm_syntax.specs.declared.tree.Position.{Position as SomePlace};
ghost use Rattle.plm_syntax.specs.WellFormed.{precedence_of};
ghost use Rattle.plm_syntax.specs.Inner.Machine.{number_of, operator_of};
ghost use Rattle.plm_syntax.specs.Inner.Parsed.{next_of};
ghost use Rattle.plm_syntax.specs.Faults.{terminal_of};
ghost use Rattle.plm_syntax.specs.Inner.Parts.{precedence_view, is_relations, tightness, level_of, level_at, looser, IsOperator};

use crate::cursor::Cursor;
use crate::tree::{BinaryOperator, Position};
use plm_token::{Keyword, Kind, Mark};

/// The precedences of binary operators, the tightest first.
#[derive(Clone, Copy)]
pub(crate) enum Precedence {
    Products,
    Sums,
    Relations,
    Conjunctions,
    Disjunctions,
}

impl Precedence {
    /// Whether there is one operator of this precedence at most.
    pub fn is_relations(self) -> bool
        ensures { result ≡ is_relations (precedence_view self) }
    {
        matches!(self, Precedence::Relations)
    }

    /// How tightly its operators bind.
    fn tightness(self) -> u8
        ensures { result ≡ tightness (precedence_view self) }
    {
        match self {
            Precedence::Products => 5,
            Precedence::Sums => 4,
            Precedence::Relations => 3,
            Precedence::Conjunctions => 1,
            Precedence::Disjunctions => 0,
        }
    }
}

/// The operator that a token is, if it is one.
fn operator(kind: Kind) -> Option<BinaryOperator>
    ensures { (text : List ℕ) (p : SomePlace) → result ≡ operator_of (terminal_of kind text p) }
{
    match kind {
        Kind::Special(mark) => match mark {
            Mark::Star => Some(BinaryOperator::Multiply),
            Mark::Slash => Some(BinaryOperator::Divide),
            Mark::Plus => Some(BinaryOperator::Add),
            Mark::Minus => Some(BinaryOperator::Subtract),
            Mark::Equal => Some(BinaryOperator::Equal),
            Mark::NotEqual => Some(BinaryOperator::NotEqual),
            Mark::Less => Some(BinaryOperator::Less),
            Mark::LessEqual => Some(BinaryOperator::LessEqual),
            Mark::Greater => Some(BinaryOperator::Greater),
            Mark::GreaterEqual => Some(BinaryOperator::GreaterEqual),
            _ => None,
        },
        Kind::Reserved(keyword) => match keyword {
            Keyword::Mod => Some(BinaryOperator::Modulo),
            Keyword::And => Some(BinaryOperator::And),
            Keyword::Or => Some(BinaryOperator::Or),
            Keyword::Xor => Some(BinaryOperator::ExclusiveOr),
            _ => None,
        },
        _ => None,
    }
}

/// Whether an operator is of this precedence.
fn is_of(operator: BinaryOperator, precedence: Precedence) -> bool
    ensures { result ≡ nat_eq (precedence_of operator) (number_of (precedence_view precedence)) }
{
    match operator {
        BinaryOperator::Multiply | BinaryOperator::Divide | BinaryOperator::Modulo => matches!(
            precedence,
            Precedence::Products
        ),
        BinaryOperator::Add | BinaryOperator::Subtract => matches!(precedence, Precedence::Sums),
        BinaryOperator::And => matches!(precedence, Precedence::Conjunctions),
        BinaryOperator::Or | BinaryOperator::ExclusiveOr => matches!(
            precedence,
            Precedence::Disjunctions
        ),
        BinaryOperator::Equal
        | BinaryOperator::NotEqual
        | BinaryOperator::Less
        | BinaryOperator::LessEqual
        | BinaryOperator::Greater
        | BinaryOperator::GreaterEqual => matches!(precedence, Precedence::Relations),
    }
}

/// The precedence of an operator.
fn precedence_of(operator: BinaryOperator) -> Precedence
    ensures { precedence_view result ≡ level_of operator }
{
    match operator {
        BinaryOperator::Multiply | BinaryOperator::Divide | BinaryOperator::Modulo => {
            Precedence::Products
        }
        BinaryOperator::Add | BinaryOperator::Subtract => Precedence::Sums,
        BinaryOperator::And => Precedence::Conjunctions,
        BinaryOperator::Or | BinaryOperator::ExclusiveOr => Precedence::Disjunctions,
        BinaryOperator::Equal
        | BinaryOperator::NotEqual
        | BinaryOperator::Less
        | BinaryOperator::LessEqual
        | BinaryOperator::Greater
        | BinaryOperator::GreaterEqual => Precedence::Relations,
    }
}

/// The precedence of the operator that comes next, where there is one.
pub(crate) fn precedence_at(cursor: Cursor<'_, '_>) -> Option<Precedence>
    ensures { option_map precedence_view result ≡ level_at (next_of cursor.entry) }
{
    let (token, _, _) = cursor.next()?;
    let operator = operator(token.kind)?;
    Some(precedence_of(operator))
}

/// The precedence of the operator that comes next, where there is one that binds less than those of this precedence.
pub(crate) fn looser_at(precedence: Precedence, cursor: Cursor<'_, '_>) -> Option<Precedence>
    ensures level { option_map precedence_view result ≡ looser (precedence_view precedence) (level_at (next_of cursor.entry)) }
    ensures less { IfSome result (λ next. tightness (precedence_view next) < tightness (precedence_view precedence)) }
{
    let next = precedence_at(cursor)?;
    if next.tightness() < precedence.tightness() {
        Some(next)
    } else {
        None
    }
}

/// An operator of this precedence where it comes next, its place, and what is left after it.
pub(crate) fn operator_at<'t, 'a>(
    precedence: Precedence,
    cursor: Cursor<'t, 'a>,
) -> Option<(Position, BinaryOperator, Cursor<'t, 'a>)>
    ensures { IsOperator (precedence_view precedence) cursor.entry result }
{
    let (token, place, rest) = cursor.next()?;
    let operator = operator(token.kind)?;
    if is_of(operator, precedence) {
        Some((place, operator, rest))
    } else {
        None
    }
}
