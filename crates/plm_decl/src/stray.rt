//! What stands in an EXTERNAL procedure besides the declarations of its parameters.

ghost use Rattle.std.specs.Prelude.{◌≡◌, map, IfOk, OnOk};
ghost use Rattle.plm_syntax.specs.View.{name_of, variable_of, element_of, item_of, statement_of, block_of};
ghost use Rattle.plm_decl.specs.Stray as spec;
ghost use Rattle.plm_decl.specs.Inner.Parameters.{listed_after};
ghost use Rattle.plm_decl.specs.Inner.Procedures.{stray_for};
ghost use Rattle.plm_decl.specs.Inner.Scope.{entries_of};

use crate::names::Item;
use crate::parameters::Parameters;
use crate::table::Table;
use plm_syntax::{
    Basic, Block, Declared, Element, Item as SyntaxItem, Linkage, Name, Position, Procedure,
    Statement, Variable,
};
use plm_token::normal;
use std::alloc::{AllocError, Global};

impl<'p, 'a> Parameters<'p, 'a> {
    /// The parameters of these names.
    fn new(alloc: Global, names: &'p [Name<'a>]) -> Result<Parameters<'p, 'a>, AllocError>
        ensures { IfOk result (λ p. p.names.now ≡ names.now) }
    {
        let mut by_name = Table::new(alloc);
        match Parameters::list(alloc, names, &mut by_name) {
            Ok(()) => Ok(Parameters {
                alloc,
                names,
                by_name,
            }),
            Err(refused) => {
                drop(by_name);
                Err(refused)
            }
        }
    }

    /// Puts these names into a table.
    fn list(alloc: Global, names: &[Name<'_>], by_name: &mut Table) -> Result<(), AllocError>
        ensures { OnOk result (entries_of by_name.new ≡ listed_after (entries_of by_name.old) (map name_of names.now)) }
    {
        for name in names {
            let key = normal(alloc, name.text)?;
            by_name.add(key, Item::Variable(0))?;
        }
        Ok(())
    }

    /// Whether one of them has this name.
    #[tactic(auto, using(crate::proofs::ParameterNames::parameter_is_named))]
    fn has(&self, name: &Name<'_>) -> Result<bool, AllocError>
        ensures { IfOk result (λ r. r ≡ spec.is_parameter (name_of name.now) (map name_of self.now.names.now)) }
    {
        let key = normal(self.alloc, name.text)?;
        Ok(self.by_name.find(&key).is_some())
    }
}

/// The first variable that is no parameter.
fn stray_variable(
    variables: &[Variable<'_>],
    parameters: &Parameters<'_, '_>,
) -> Result<Option<Position>, AllocError>
    ensures { IfOk result (λ r. r ≡ spec.stray_variable (map name_of parameters.now.names.now) (map variable_of variables.now)) }
{
    for variable in variables {
        if !parameters.has(&variable.name)? {
            return Ok(Some(variable.name.place));
        }
    }
    Ok(None)
}

/// The first name of an element that is no parameter.
#[tactic(auto, using(crate::proofs::ListViews::variable_list_from))]
fn stray_name(
    element: &Element<'_>,
    parameters: &Parameters<'_, '_>,
) -> Result<Option<Position>, AllocError>
    ensures { IfOk result (λ r. r ≡ spec.stray_name (map name_of parameters.now.names.now) (element_of element.now)) }
{
    match element {
        Element::Literal(name, _) => Ok(Some(name.place)),
        Element::Variable {
            declared: Declared::One(variable),
            ..
        } => stray_variable(&[*variable], parameters),
        Element::Variable {
            declared: Declared::List(variables),
            ..
        } => stray_variable(variables, parameters),
    }
}

fn stray_element(
    elements: &[Element<'_>],
    parameters: &Parameters<'_, '_>,
) -> Result<Option<Position>, AllocError>
    ensures { IfOk result (λ r. r ≡ spec.stray_element (map name_of parameters.now.names.now) (map element_of elements.now)) }
{
    for element in elements {
        if let Some(place) = stray_name(element, parameters)? {
            return Ok(Some(place));
        }
    }
    Ok(None)
}

#[tactic(auto, using(crate::proofs::ListViews::element_list_from))]
fn stray_item(
    item: &SyntaxItem<'_>,
    parameters: &Parameters<'_, '_>,
) -> Result<Option<Position>, AllocError>
    ensures { IfOk result (λ r. r ≡ spec.stray_item (map name_of parameters.now.names.now) (item_of item.now)) }
{
    match item {
        SyntaxItem::Declare(_, elements) => stray_element(elements, parameters),
        SyntaxItem::Procedure(procedure) => Ok(Some(procedure.name.place)),
    }
}

fn stray_items(
    items: &[SyntaxItem<'_>],
    parameters: &Parameters<'_, '_>,
) -> Result<Option<Position>, AllocError>
    ensures { IfOk result (λ r. r ≡ spec.stray_items (map name_of parameters.now.names.now) (map item_of items.now)) }
{
    for item in items {
        if let Some(place) = stray_item(item, parameters)? {
            return Ok(Some(place));
        }
    }
    Ok(None)
}

/// Where a statement begins after its labels.
#[tactic(auto, using(crate::proofs::ListViews::reference_list_from))]
fn place_of(statement: &Statement<'_>) -> Option<Position>
    ensures { result ≡ spec.place_of_statement (statement_of statement.now) }
{
    match &statement.basic {
        Basic::Assign(targets, _) => Some(targets.first()?.name.place),
        Basic::Empty(place)
        | Basic::Call(place, _)
        | Basic::Return(place)
        | Basic::ReturnValue(place, _)
        | Basic::Enable(place)
        | Basic::Disable(place)
        | Basic::Halt(place)
        | Basic::If(place, _, _)
        | Basic::IfElse(place, _, _, _)
        | Basic::Do(place, _, _)
        | Basic::While(place, _, _, _)
        | Basic::Case(place, _, _, _)
        | Basic::Iterate(place, _, _, _, _) => Some(*place),
    }
}

/// Where the first statement begins after its labels.
fn first_place(statements: &[Statement<'_>]) -> Option<Position>
    ensures { result ≡ spec.first_statement (map statement_of statements.now) }
{
    match statements {
        [first, ..] => place_of(first),
        [] => None,
    }
}

/// What stands first in a block besides the declarations of these parameters.
#[tactic(auto, using(crate::proofs::TreeViews::stray_in_parts))]
fn stray_in(
    block: &Block<'_>,
    parameters: &Parameters<'_, '_>,
) -> Result<Option<Position>, AllocError>
    ensures { IfOk result (λ r. r ≡ spec.stray_in (map name_of parameters.now.names.now) (block_of block.now)) }
{
    let Block { items, statements } = block;
    match stray_items(items, parameters)? {
        Some(place) => Ok(Some(place)),
        None => Ok(first_place(statements)),
    }
}

/// What stands first in an EXTERNAL procedure besides the declarations of its parameters.
#[tactic(auto, using(crate::proofs::TreeViews::stray_for_parts))]
pub fn first_stray(alloc: Global, procedure: &Procedure<'_>) -> Result<Option<Position>, AllocError>
    ensures { IfOk result (λ r. r ≡ stray_for procedure.now) }
{
    if procedure.linkage == Linkage::External {
        stray_in(
            &procedure.block,
            &Parameters::new(alloc, &procedure.parameters)?,
        )
    } else {
        Ok(None)
    }
}
