//! What stands after DECLARE: elements, variables, types and attributes; and lists of names, of parameters too.

ghost use Rattle.std.specs.Prelude.{◌≡◌, ◌∷◌, ◌++◌, [], ℕ, Bool, false, None};
ghost use Rattle.plm_syntax.specs.Terminal.{NameT};
ghost use Rattle.plm_syntax.specs.Tree.{ElementsT, AtT, no_variables, no_members, no_elements, no_names, no_dimension, no_at, no_initial, VariableOf, Attributes};
ghost use Rattle.plm_syntax.specs.View.{name_of, variable_of, declared_of};
ghost use Rattle.plm_syntax.specs.Inner.Symbol.{Want, Do, VariableR, VariablesR, DeclaredR, DimensionR, MembersR, CountR, AttributesR, ElementsR, NamesR, HeaderR, ElementG, MoreElementsG, VariableG, MoreVariablesG, BasedG, DimensionG, TypeG, MemberOfG, MoreMembersG, CountG, MemberTypeG, MemberNameG, MoreMemberNamesG, ParameterG, MoreParametersG, AttributesG, AtG, InitialG};
ghost use Rattle.plm_syntax.specs.Inner.Machine.{add_element, add_variable, add_member, declared_tail};
ghost use Rattle.plm_syntax.specs.Inner.Parsed.{Leads, Reads, Within};
ghost use Rattle.plm_syntax.specs.Inner.Parts.{IsScalar, read_element, read_elements, read_variable, read_variables, read_dimension, read_type, read_member, read_members, read_names, read_parameters, read_count, read_attributes, read_at, read_initial, member_names_read, nothing_read, attributes_read};

use crate::cursor::Cursor;
use crate::expression::{form_at, location, values};
use crate::failure::Failure;
use crate::parts::pushed;
use crate::tree::{
    At, Attributes, Declared, Dimension, Element, Initial, Member, MemberNames, Name, Numeral,
    Scalar, Variable, VariableType,
};
use plm_token::{Keyword, Mark};
use std::alloc::Global;

/// The elements of a declaration, and the semicolon after them.
pub(crate) fn elements<'t, 'a>(
    alloc: Global,
    room: u8,
    cursor: Cursor<'t, 'a>,
) -> Result<(Vec<Element<'a>>, Cursor<'t, 'a>), Failure>
    ensures leads { Leads (λ es. read_elements es.items) (λ s. Want ElementG ∷ Want MoreElementsG ∷ s) (λ v. ElementsR no_elements ∷ v) result cursor.entry room }
    ensures within { Within result cursor.entry }
{
    let mut list = Vec::new(alloc);
    let mut rest = pushed(&mut list, element(alloc, room, cursor))?;
    while let Some((_, after)) = rest.mark(Mark::Comma) {
        rest = pushed(&mut list, element(alloc, room, after))?;
    }
    rest.close(list, Mark::Semicolon)
}

/// An element: a literal, or variables.
fn element<'t, 'a>(
    alloc: Global,
    room: u8,
    cursor: Cursor<'t, 'a>,
) -> Result<(Element<'a>, Cursor<'t, 'a>), Failure>
    ensures leads { (es : ElementsT) → Leads (read_element es) (λ s. Want ElementG ∷ s) (λ v. ElementsR es ∷ v) result cursor.entry room }
    ensures within { Within result cursor.entry }
{
    if let Some((_, inner)) = cursor.mark(Mark::LeftParenthesis) {
        let (list, rest) = variables(alloc, inner)?;
        return behind_names(alloc, room, Declared::List(list), rest);
    }
    let (name, rest) = cursor.expect_name()?;
    if let Some((_, after)) = rest.keyword(Keyword::Literally) {
        return match after.text() {
            Some((text, behind)) => Ok((Element::Literal(name, text), behind)),
            None => Err(after.refuse()),
        };
    }
    let (variable, behind) = based(name, rest)?;
    behind_names(alloc, room, Declared::One(variable), behind)
}

/// Variables parted by commas, and the parenthesis after them.
fn variables<'t, 'a>(
    alloc: Global,
    cursor: Cursor<'t, 'a>,
) -> Result<(Vec<Variable<'a>>, Cursor<'t, 'a>), Failure>
    ensures leads { Reads (λ vs. read_variables vs.items) (λ s. Want VariableG ∷ Do add_variable ∷ Want MoreVariablesG ∷ s) (λ v. VariablesR no_variables ∷ v) result cursor.entry }
    ensures within { Within result cursor.entry }
{
    let mut list = Vec::new(alloc);
    let mut rest = pushed(&mut list, variable(cursor))?;
    while let Some((_, after)) = rest.mark(Mark::Comma) {
        rest = pushed(&mut list, variable(after))?;
    }
    rest.close(list, Mark::RightParenthesis)
}

/// A variable and its base, if it has one.
fn variable<'t, 'a>(cursor: Cursor<'t, 'a>) -> Result<(Variable<'a>, Cursor<'t, 'a>), Failure>
    ensures leads { Reads read_variable (λ s. Want VariableG ∷ s) nothing_read result cursor.entry }
    ensures within { Within result cursor.entry }
{
    let (name, rest) = cursor.expect_name()?;
    based(name, rest)
}

/// A variable of which the name was read.
fn based<'t, 'a>(
    name: Name<'a>,
    cursor: Cursor<'t, 'a>,
) -> Result<(Variable<'a>, Cursor<'t, 'a>), Failure>
    ensures leads { Reads read_variable (λ s. Want BasedG ∷ s) (λ v. VariableR (VariableOf (name_of name.entry) None) ∷ v) result cursor.entry }
    ensures within { Within result cursor.entry }
{
    let Some((_, after)) = cursor.keyword(Keyword::Based) else {
        return Ok((Variable { name, base: None }, cursor));
    };
    let (base, rest) = after.expect_name()?;
    Ok((
        Variable {
            name,
            base: Some(base),
        },
        rest,
    ))
}

/// An element after its names.
fn behind_names<'t, 'a>(
    alloc: Global,
    room: u8,
    declared: Declared<'a>,
    cursor: Cursor<'t, 'a>,
) -> Result<(Element<'a>, Cursor<'t, 'a>), Failure>
    ensures leads { (es : ElementsT) → Leads (read_element es) (λ s. declared_tail ++ (Do add_element ∷ s)) (λ v. DeclaredR (declared_of declared.entry) ∷ ElementsR es ∷ v) result cursor.entry room }
    ensures within { Within result cursor.entry }
{
    let (dimension, rest) = dimension(cursor)?;
    let (form, rest) = variable_type(alloc, rest)?;
    let (attributes, rest) = attributes(alloc, room, rest)?;
    Ok((
        Element::Variable {
            declared,
            dimension,
            form,
            attributes,
        },
        rest,
    ))
}

/// How many elements a variable has, where a parenthesis comes next.
fn dimension<'t, 'a>(cursor: Cursor<'t, 'a>) -> Result<(Dimension, Cursor<'t, 'a>), Failure>
    ensures leads { Reads read_dimension (λ s. Want DimensionG ∷ s) (λ v. DimensionR no_dimension ∷ v) result cursor.entry }
    ensures within { Within result cursor.entry }
{
    let Some((_, inner)) = cursor.mark(Mark::LeftParenthesis) else {
        return Ok((Dimension::None, cursor));
    };
    if let Some((_, behind)) = inner.mark(Mark::Star) {
        return behind.close(Dimension::Implicit, Mark::RightParenthesis);
    }
    let (number, behind) = inner.expect_number()?;
    behind.close(Dimension::Numeral(number), Mark::RightParenthesis)
}

/// A scalar type where one comes next, and what is left after it.
pub(crate) fn scalar_at<'t, 'a>(cursor: Cursor<'t, 'a>) -> Option<(Scalar, Cursor<'t, 'a>)>
    ensures { IsScalar cursor.entry result }
{
    if let Some((_, rest)) = cursor.keyword(Keyword::Byte) {
        return Some((Scalar::Byte, rest));
    }
    if let Some((_, rest)) = cursor.keyword(Keyword::Word) {
        return Some((Scalar::Word, rest));
    }
    if let Some((_, rest)) = cursor.keyword(Keyword::Address) {
        return Some((Scalar::Address, rest));
    }
    if let Some((_, rest)) = cursor.keyword(Keyword::Pointer) {
        return Some((Scalar::Pointer, rest));
    }
    let (_, rest) = cursor.keyword(Keyword::Integer)?;
    Some((Scalar::Integer, rest))
}

/// What an element's names are.
fn variable_type<'t, 'a>(
    alloc: Global,
    cursor: Cursor<'t, 'a>,
) -> Result<(VariableType<'a>, Cursor<'t, 'a>), Failure>
    ensures leads { Reads read_type (λ s. Want TypeG ∷ s) nothing_read result cursor.entry }
    ensures within { Within result cursor.entry }
{
    if let Some((scalar, rest)) = scalar_at(cursor) {
        return Ok((VariableType::Scalar(scalar), rest));
    }
    let behind = cursor.expect_keyword(Keyword::Structure)?;
    let inner = behind.expect_mark(Mark::LeftParenthesis)?;
    let (list, rest) = members(alloc, inner)?;
    Ok((VariableType::Structure(list), rest))
}

/// Members parted by commas, and the parenthesis after them.
fn members<'t, 'a>(
    alloc: Global,
    cursor: Cursor<'t, 'a>,
) -> Result<(Vec<Member<'a>>, Cursor<'t, 'a>), Failure>
    ensures leads { Reads (λ ms. read_members ms.items) (λ s. Want MemberOfG ∷ Do add_member ∷ Want MoreMembersG ∷ s) (λ v. MembersR no_members ∷ v) result cursor.entry }
    ensures within { Within result cursor.entry }
{
    let mut list = Vec::new(alloc);
    let mut rest = pushed(&mut list, member(alloc, cursor))?;
    while let Some((_, after)) = rest.mark(Mark::Comma) {
        rest = pushed(&mut list, member(alloc, after))?;
    }
    rest.close(list, Mark::RightParenthesis)
}

/// A member of a structure, or some of one type.
fn member<'t, 'a>(
    alloc: Global,
    cursor: Cursor<'t, 'a>,
) -> Result<(Member<'a>, Cursor<'t, 'a>), Failure>
    ensures leads { Reads read_member (λ s. Want MemberOfG ∷ s) nothing_read result cursor.entry }
    ensures within { Within result cursor.entry }
{
    if let Some((_, inner)) = cursor.mark(Mark::LeftParenthesis) {
        let (list, rest) = names(alloc, inner)?;
        return behind_member_names(MemberNames::List(list), rest);
    }
    let (name, rest) = cursor.expect_name()?;
    behind_member_names(MemberNames::One(name), rest)
}

/// A member of which the names were read.
fn behind_member_names<'t, 'a>(
    names: MemberNames<'a>,
    cursor: Cursor<'t, 'a>,
) -> Result<(Member<'a>, Cursor<'t, 'a>), Failure>
    ensures leads { Reads read_member (λ s. Want CountG ∷ Want MemberTypeG ∷ s) (λ v. CountR None ∷ member_names_read names.entry v) result cursor.entry }
    ensures within { Within result cursor.entry }
{
    let (count, behind) = count(cursor)?;
    match scalar_at(behind) {
        Some((scalar, rest)) => Ok((
            Member {
                names,
                count,
                scalar,
            },
            rest,
        )),
        None => Err(behind.refuse()),
    }
}

/// Names parted by commas, and the parenthesis after them: of a structure's members, or of a procedure's parameters.
pub(crate) fn names<'t, 'a>(
    alloc: Global,
    cursor: Cursor<'t, 'a>,
) -> Result<(Vec<Name<'a>>, Cursor<'t, 'a>), Failure>
    ensures members { Reads (λ ns. read_names ns.items) (λ s. Want MemberNameG ∷ Want MoreMemberNamesG ∷ s) (λ v. NamesR no_names ∷ v) result cursor.entry }
    ensures parameters { (n : NameT) → Reads (λ ns. read_parameters n ns.items) (λ s. Want ParameterG ∷ Want MoreParametersG ∷ s) (read_parameters n []) result cursor.entry }
    ensures within { Within result cursor.entry }
{
    let mut list = Vec::new(alloc);
    let mut rest = pushed(&mut list, cursor.expect_name())?;
    while let Some((_, after)) = rest.mark(Mark::Comma) {
        rest = pushed(&mut list, after.expect_name())?;
    }
    rest.close(list, Mark::RightParenthesis)
}

/// How many elements a member has, where a parenthesis comes next.
fn count<'t, 'a>(cursor: Cursor<'t, 'a>) -> Result<(Option<Numeral>, Cursor<'t, 'a>), Failure>
    ensures leads { Reads read_count (λ s. Want CountG ∷ s) (λ v. CountR None ∷ v) result cursor.entry }
    ensures within { Within result cursor.entry }
{
    let Some((_, inner)) = cursor.mark(Mark::LeftParenthesis) else {
        return Ok((None, cursor));
    };
    let (number, behind) = inner.expect_number()?;
    behind.close(Some(number), Mark::RightParenthesis)
}

/// An element's attributes.
fn attributes<'t, 'a>(
    alloc: Global,
    room: u8,
    cursor: Cursor<'t, 'a>,
) -> Result<(Attributes<'a>, Cursor<'t, 'a>), Failure>
    ensures leads { Leads read_attributes (λ s. Want AttributesG ∷ s) (attributes_read false no_at) result cursor.entry room }
    ensures within { Within result cursor.entry }
{
    if let Some((_, rest)) = cursor.keyword(Keyword::External) {
        return Ok((Attributes::External, rest));
    }
    if let Some((_, rest)) = cursor.keyword(Keyword::Public) {
        return own_attributes(alloc, room, true, rest);
    }
    own_attributes(alloc, room, false, cursor)
}

/// The attributes of an element that is not external.
fn own_attributes<'t, 'a>(
    alloc: Global,
    room: u8,
    public: bool,
    cursor: Cursor<'t, 'a>,
) -> Result<(Attributes<'a>, Cursor<'t, 'a>), Failure>
    ensures leads { Leads read_attributes (λ s. Want AtG ∷ Want InitialG ∷ s) (attributes_read public no_at) result cursor.entry room }
    ensures within { Within result cursor.entry }
{
    let (at, behind) = at(alloc, room, cursor)?;
    let (initial, rest) = initial(alloc, room, behind)?;
    Ok((
        Attributes::Own {
            public,
            at,
            initial,
        },
        rest,
    ))
}

/// Where an element is placed.
fn at<'t, 'a>(
    alloc: Global,
    room: u8,
    cursor: Cursor<'t, 'a>,
) -> Result<(At<'a>, Cursor<'t, 'a>), Failure>
    ensures leads { (b : Bool) → Leads (read_at b) (λ s. Want AtG ∷ s) (attributes_read b no_at) result cursor.entry room }
    ensures within { Within result cursor.entry }
{
    let Some((_, after)) = cursor.keyword(Keyword::At) else {
        return Ok((At::None, cursor));
    };
    let inner = after.expect_mark(Mark::LeftParenthesis)?;
    if let Some((number, behind)) = inner.numeral() {
        return behind.close(At::Numeral(number), Mark::RightParenthesis);
    }
    let Some((place, form, start)) = form_at(inner) else {
        return Err(inner.refuse());
    };
    let (location, behind) = location(alloc, room, place, form, start)?;
    behind.close(At::Location(location), Mark::RightParenthesis)
}

/// What fills an element.
fn initial<'t, 'a>(
    alloc: Global,
    room: u8,
    cursor: Cursor<'t, 'a>,
) -> Result<(Initial<'a>, Cursor<'t, 'a>), Failure>
    ensures leads { (b : Bool) (a : AtT) → Leads (read_initial b a) (λ s. Want InitialG ∷ s) (attributes_read b a) result cursor.entry room }
    ensures within { Within result cursor.entry }
{
    if let Some((_, after)) = cursor.keyword(Keyword::Initial) {
        let inner = after.expect_mark(Mark::LeftParenthesis)?;
        let (list, rest) = values(alloc, room, inner)?;
        return Ok((Initial::Initial(list), rest));
    }
    if let Some((_, after)) = cursor.keyword(Keyword::Data) {
        let inner = after.expect_mark(Mark::LeftParenthesis)?;
        let (list, rest) = values(alloc, room, inner)?;
        return Ok((Initial::Data(list), rest));
    }
    Ok((Initial::None, cursor))
}
