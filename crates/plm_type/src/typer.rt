//! What is known while statements are typed: the names and the module; and what is said of an expression: its tree and its type.

ghost use Rattle.std.specs.Prelude.{◌≡◌, ◌∷◌, [], ◌++◌, IfOk, OnOk, Ok, Some, option_map, slice_get};
ghost use Rattle.plm_decl.specs.Names as known;
ghost use Rattle.plm_type.specs.Inner.Typer.{variables, procedures, said};
ghost use Rattle.plm_decl.specs.declared.layout.ScalarType.TheVariants.{Integer};
ghost use Rattle.plm_type.specs.declared.numbers.Numbers.TheVariants.{Other};
ghost use Rattle.plm_type.specs.Numbers as number;
ghost use Rattle.plm_type.specs.Expressions as spec;
ghost use Rattle.plm_type.specs.View as view;
ghost use Rattle.plm_type.specs.Typing.{given_if};
ghost use Rattle.plm_type.specs.Faults as found;

use crate::numbers::{Numbers, as_integer};
use crate::program::{Expression, Line};
use plm_decl::found::Found;
use plm_decl::{Names, Procedure, ScalarType, Variable};
use plm_syntax::Position;
use std::alloc::{AllocError, Global};
use word86::Number;

/// The names of a program, and the module whose statements are typed.
#[derive(Clone, Copy)]
pub struct Typer<'n> {
    pub alloc: Global,
    pub names: &'n Names,
    pub module: usize,
}

/// An expression's tree, its type, which is none where it has a fault, and its numbers.
#[derive(Drop)]
pub struct Typed {
    pub tree: Expression,
    pub scalar: Option<ScalarType>,
    pub numbers: Numbers,
}

/// The trees and the types of several expressions, in order.
#[derive(Drop)]
pub struct TypedList {
    pub trees: Vec<Expression>,
    pub types: Vec<Option<ScalarType>>,
}

impl Typed {
    /// Without its type where something does not hold.
    pub fn given_if(self, holds: bool) -> Typed
        ensures tree { result.tree ≡ self.tree }
        ensures scalar { result.scalar ≡ given_if holds self.scalar }
        ensures numbers { result.numbers ≡ self.numbers }
    {
        Typed {
            tree: self.tree,
            scalar: if holds { self.scalar } else { None },
            numbers: self.numbers,
        }
    }

    /// In parentheses: 32,768 in them does not stand directly after a minus.
    pub fn parenthesised(self) -> Typed
        ensures tree { result.tree ≡ self.tree }
        ensures scalar { result.scalar ≡ self.scalar }
        ensures numbers { result.numbers ≡ number.settled self.numbers }
    {
        Typed {
            tree: self.tree,
            scalar: self.scalar,
            numbers: self.numbers.settled(),
        }
    }

    /// A number expression as an INTEGER, which has no type where an INTEGER cannot have one of its numbers.
    fn turned(self) -> Typed
        ensures tree { view.expression_of result.tree ≡ number.integer_of (view.expression_of self.tree) }
        ensures scalar { result.scalar ≡ given_if (number.fits self.numbers) (Some Integer) }
        ensures numbers { result.numbers ≡ Other }
    {
        let mut tree = self.tree;
        as_integer(&mut tree);
        Typed {
            tree,
            scalar: self.numbers.fit().then_some(ScalarType::Integer),
            numbers: Numbers::Other,
        }
    }
}

/// A value, beside what was made while it was held. What becomes of the value where nothing was made is proved here alone, for
/// values of any type: it takes long to prove at a large one.
pub(crate) fn paired<T: Drop, U, E>(held: T, made: Result<U, E>) -> Result<(T, U), E>
    ensures { IfOk result (λ r. (r.0 ≡ held) × (made ≡ Ok r.1)) }
{
    match made {
        Ok(made) => Ok((held, made)),
        Err(error) => Err(error),
    }
}

/// A list of one item, without room for others.
pub fn alone<T: Drop>(alloc: Global, item: T) -> Result<Vec<T>, AllocError>
    ensures { IfOk result (λ list. list.items ≡ item ∷ []) }
{
    let mut list = Vec::with_capacity(alloc, 1)?;
    list.push(item)?;
    Ok(list)
}

impl TypedList {
    /// None yet.
    pub fn new(alloc: Global) -> TypedList
        ensures trees { result.trees.items ≡ [] }
        ensures types { result.types.items ≡ [] }
    {
        TypedList {
            trees: Vec::new(alloc),
            types: Vec::new(alloc),
        }
    }

    /// None yet, with room for so many.
    pub fn with_capacity(alloc: Global, count: usize) -> Result<TypedList, AllocError>
        ensures trees { IfOk result (λ r. r.trees.items ≡ []) }
        ensures types { IfOk result (λ r. r.types.items ≡ []) }
    {
        let trees = Vec::with_capacity(alloc, count)?;
        let types = Vec::with_capacity(alloc, count)?;
        Ok(TypedList { trees, types })
    }

    /// Adds one at the end.
    pub fn push(&mut self, typed: Typed) -> Result<(), AllocError>
        ensures trees { OnOk result (self.new.trees.items ≡ self.old.trees.items ++ typed.tree ∷ []) }
        ensures types { OnOk result (self.new.types.items ≡ self.old.types.items ++ typed.scalar ∷ []) }
    {
        self.trees.push(typed.tree)?;
        self.types.push(typed.scalar)?;
        Ok(())
    }

    /// The trees alone.
    pub fn into_trees(self) -> Vec<Expression>
        ensures { result ≡ self.trees }
    {
        self.trees
    }
}

impl Typer<'_> {
    /// Notes a fault where something does not hold.
    pub fn note_unless(
        &self,
        holds: bool,
        number: Number,
        place: Position,
        faults: &mut Vec<Found>,
    ) -> Result<(), AllocError>
        ensures { OnOk result (faults.new.items ≡ faults.old.items ++ found.fault_unless self.now.module holds number place) }
    {
        if holds {
            return Ok(());
        }
        faults.push(Found {
            module: self.module,
            place,
            number,
        })?;
        Ok(())
    }

    /// A value, once a fault is noted where something does not hold of it.
    pub(crate) fn judged<T: Drop>(
        &self,
        value: T,
        holds: bool,
        number: Number,
        place: Position,
        faults: &mut Vec<Found>,
    ) -> Result<T, AllocError>
        ensures value { IfOk result (λ r. r ≡ value) }
        ensures faults { OnOk result (faults.new.items ≡ faults.old.items ++ found.fault_unless self.now.module holds number place) }
    {
        self.note_unless(holds, number, place, faults)?;
        Ok(value)
    }

    /// Notes the first number that no INTEGER can have.
    fn note_range(&self, numbers: Numbers, faults: &mut Vec<Found>) -> Result<(), AllocError>
        ensures { OnOk result (faults.new.items ≡ faults.old.items ++ number.range_faults self.now.module numbers) }
    {
        match numbers {
            Numbers::Other | Numbers::Fits => Ok(()),
            Numbers::Least(place) | Numbers::Beyond(place) => {
                self.note_unless(false, Number::E401, place, faults)
            }
        }
    }

    /// An expression where a value of this type is wanted.
    pub fn wanted(
        &self,
        scalar: Option<ScalarType>,
        e: Typed,
        faults: &mut Vec<Found>,
    ) -> Result<Typed, AllocError>
        ensures { IfOk result (λ r. said r faults.new.items ≡ spec.wanted self.now.module scalar (said e faults.old.items)) }
    {
        if !e.numbers.turn(scalar) {
            return Ok(e);
        }
        let numbers = e.numbers;
        let (e, ()) = paired(e, self.note_range(numbers, faults))?;
        Ok(e.turned())
    }

    /// The line of a place.
    pub fn line(&self, place: Position) -> Line
        ensures module { result.module ≡ self.now.module }
        ensures line { result.line ≡ place.line }
    {
        Line {
            module: self.module,
            line: place.line,
        }
    }

    /// The variable of this number.
    pub fn variable(&self, number: usize) -> Option<Variable>
        ensures { result ≡ slice_get (variables self.now) number }
    {
        self.names.variables.get(number).copied()
    }

    /// The procedure of this number.
    pub fn procedure(&self, number: usize) -> Option<&Procedure>
        ensures { option_map (λ p. known.procedure_of p.now) result ≡ slice_get (procedures self.now) number }
    {
        self.names.procedures.get(number)
    }
}
