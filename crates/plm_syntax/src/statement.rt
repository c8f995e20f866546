//! Statements, blocks, procedures and modules.

ghost use Rattle.std.specs.Prelude.{◌≡◌, ◌∷◌, ◌++◌, [], ℕ, List, false, None, Option};
ghost use Rattle.plm_token.specs.declared.token.Keyword.TheVariants.{If as TheIf, Do as TheDo};
ghost use Rattle.plm_syntax.specs.declared.tree.Position.{Position as SomePlace};
ghost use Rattle.plm_syntax.specs.declared.tree.Scalar.{Scalar as SomeScalar};
ghost use Rattle.plm_syntax.specs.Terminal.{NameT, NumeralT, Key, is_key};
ghost use Rattle.plm_syntax.specs.Tree.{NamesT, ItemsT, no_names, no_statements, no_items, no_references, no_linkage};
ghost use Rattle.plm_syntax.specs.View.{name_of, base_of};
ghost use Rattle.plm_syntax.specs.Faults.{terminal_of};
ghost use Rattle.plm_syntax.specs.WellFormed.{is_end_name};
ghost use Rattle.plm_syntax.specs.Inner.Symbol.{Want, Need, Do, need, NamesR, NameR, ReferencesR, StatementsR, ItemsR, HeaderR, StepR, StatementG, ArmG, DoG, StatementsG, EndG, ItemsG, StepG, SubscriptsG, SelectorG, MoreTargetsG, CalledG, ReturnedG, ParametersG, InterruptG};
ghost use Rattle.plm_syntax.specs.Inner.Parsed.{Leads, LeadsInside, Reads, Within, is_name, next_of, ahead};
ghost use Rattle.plm_syntax.specs.Inner.Blocks.{is_label, begins_statement, IsBeginning, IsLabel, IsHeading, LeadsItem, WithinItem, LeadsReturned, LeadsLinkage, Parses, read_statement, read_arm, read_basic, read_block, read_body, read_end, read_governed, read_step, read_procedure, read_header, read_range, read_interrupt, Shrinks, condition_goals, governed_goals, iterate_goals, range_goals, procedure_goals, header_goals, no_parameters_read};
ghost use Rattle.plm_token.specs.declared.token.Mark.TheVariants.{Semicolon};
ghost use Rattle.plm_syntax.specs.Inner.Machine.{make_call, an_expression};
ghost use Rattle.plm_syntax.specs.Inner.Parts.{nothing_read, read_expression, reference_read, read_parameters};

use crate::cursor::Cursor;
use crate::declaration::{elements, names, scalar_at};
use crate::expression::{expression, reference};
use crate::failure::Failure;
use crate::parts::{MOSTLY, beside, boxed, closing, gathered, pushed};
use crate::tree::{
    Basic, Block, Bounds, Expression, Item, Linkage, Module, Name, Numeral, Position, Procedure,
    Scalar, Statement,
};
use plm_token::{Keyword, Kind, Mark, Token, same_name};
use std::alloc::Global;

/// How many levels may be open inside a module's own.
const INNER_LEVELS: u8 = 63;

/// A module, which takes all tokens.
pub(crate) fn module<'a>(alloc: Global, cursor: Cursor<'_, 'a>) -> Result<Module<'a>, Failure>
    ensures { Parses cursor.entry result }
{
    let (name, behind) = cursor.expect_name()?;
    let heading = behind.expect_mark(Mark::Colon)?;
    let start = heading.expect_keyword(Keyword::Do)?;
    let inner = start.expect_mark(Mark::Semicolon)?;
    let ((block, end), rest) = block(alloc, INNER_LEVELS, Some(name), inner)?;
    rest.finish(Module { name, block, end })
}

/// A block, and the name after its END.
#[cycle(statement)]
fn block<'t, 'a>(
    alloc: Global,
    room: u8,
    label: Option<Name<'a>>,
    cursor: Cursor<'t, 'a>,
) -> Result<((Block<'a>, Option<Name<'a>>), Cursor<'t, 'a>), Failure>
    ensures leads { Leads read_block (λ s. Want (ItemsG (base_of label.entry)) ∷ s) (λ v. ItemsR no_items ∷ v) result cursor.entry room }
    ensures within { Within result cursor.entry }
{
    let mut items = Vec::new(alloc);
    let mut rest = cursor;
    while let Some(behind) = gathered(&mut items, item(alloc, room, rest))? {
        rest = behind;
    }
    let ((statements, end), behind) = statements(alloc, room, label, rest)?;
    Ok(((Block { items, statements }, end), behind))
}

/// A declaration or a procedure, where one comes next.
#[cycle(statement)]
fn item<'t, 'a>(
    alloc: Global,
    room: u8,
    cursor: Cursor<'t, 'a>,
) -> Result<Option<(Item<'a>, Cursor<'t, 'a>)>, Failure>
    ensures leads { LeadsItem result cursor.entry room }
    ensures within { WithinItem result cursor.entry }
{
    if let Some((place, after)) = cursor.keyword(Keyword::Declare) {
        let (list, rest) = elements(alloc, room, after)?;
        return Ok(Some((Item::Declare(place, list), rest)));
    }
    let Some((name, after)) = heading_at(cursor) else {
        return Ok(None);
    };
    let inside = after.level_down(room)?;
    let (procedure, rest) = procedure(alloc, inside, name, after)?;
    Ok(Some((Item::Procedure(procedure), rest)))
}

/// A procedure's name where it comes next with a colon and the word PROCEDURE, and what is left after these.
fn heading_at<'t, 'a>(cursor: Cursor<'t, 'a>) -> Option<(Name<'a>, Cursor<'t, 'a>)>
    ensures { IsHeading cursor.entry result }
{
    let Some((name, behind)) = label_at(cursor) else {
        return None;
    };
    let Some((_, rest)) = behind.keyword(Keyword::Procedure) else {
        return None;
    };
    Some((name, rest))
}

/// A procedure after the word PROCEDURE.
#[cycle(statement)]
fn procedure<'t, 'a>(
    alloc: Global,
    room: u8,
    name: Name<'a>,
    cursor: Cursor<'t, 'a>,
) -> Result<(Procedure<'a>, Cursor<'t, 'a>), Failure>
    ensures leads { (is : ItemsT) → LeadsInside (read_procedure is) (procedure_goals (name_of name.entry)) (no_parameters_read (name_of name.entry) is) result cursor.entry room }
    ensures within { Within result cursor.entry }
{
    let (signature, inner) = header(alloc, cursor)?;
    let ((block, end), rest) = block(alloc, room, Some(name), inner)?;
    Ok((
        Procedure {
            name,
            parameters: signature.parameters,
            returned: signature.returned,
            interrupt: signature.interrupt,
            linkage: signature.linkage,
            block,
            end,
        },
        rest,
    ))
}

/// What stands between the word PROCEDURE and the semicolon.
#[derive(Drop)]
struct Signature<'a> {
    parameters: Vec<Name<'a>>,
    returned: Option<Scalar>,
    interrupt: Option<Numeral>,
    linkage: Linkage,
}

/// A procedure's signature after the word PROCEDURE, and the semicolon after it.
fn header<'t, 'a>(
    alloc: Global,
    cursor: Cursor<'t, 'a>,
) -> Result<(Signature<'a>, Cursor<'t, 'a>), Failure>
    ensures leads { (n : NameT) → Reads (read_header n) header_goals (λ v. HeaderR n no_names None None no_linkage ∷ v) result cursor.entry }
    ensures within { Shrinks result cursor.entry }
{
    let (parameters, behind) = parameters(alloc, cursor)?;
    let (returned, behind) = returned(behind);
    let (interrupt, behind) = interrupt(behind)?;
    let (linkage, behind) = linkage(behind);
    let rest = behind.expect_mark(Mark::Semicolon)?;
    Ok((
        Signature {
            parameters,
            returned,
            interrupt,
            linkage,
        },
        rest,
    ))
}

/// A procedure's parameters, where a parenthesis comes next.
fn parameters<'t, 'a>(
    alloc: Global,
    cursor: Cursor<'t, 'a>,
) -> Result<(Vec<Name<'a>>, Cursor<'t, 'a>), Failure>
    ensures leads { (n : NameT) → Reads (λ ns. read_parameters n ns.items) (λ s. Want ParametersG ∷ s) (read_parameters n []) result cursor.entry }
    ensures within { Within result cursor.entry }
{
    let Some((_, inner)) = cursor.mark(Mark::LeftParenthesis) else {
        return Ok((Vec::new(alloc), cursor));
    };
    names(alloc, inner)
}

/// A procedure's type, where one comes next.
fn returned<'t, 'a>(cursor: Cursor<'t, 'a>) -> (Option<Scalar>, Cursor<'t, 'a>)
    ensures { LeadsReturned cursor.entry result }
{
    match scalar_at(cursor) {
        Some((scalar, rest)) => (Some(scalar), rest),
        None => (None, cursor),
    }
}

/// The number of an interrupt procedure, where the word comes next.
fn interrupt<'t, 'a>(cursor: Cursor<'t, 'a>) -> Result<(Option<Numeral>, Cursor<'t, 'a>), Failure>
    ensures leads { (n : NameT) (ps : NamesT) (t : Option SomeScalar) → Reads (read_interrupt n ps t) (λ s. Want InterruptG ∷ s) (λ v. HeaderR n ps t None no_linkage ∷ v) result cursor.entry }
    ensures within { Within result cursor.entry }
{
    let Some((_, after)) = cursor.keyword(Keyword::Interrupt) else {
        return Ok((None, cursor));
    };
    let (number, rest) = after.expect_number()?;
    Ok((Some(number), rest))
}

/// How a procedure is joined with those of other modules.
fn linkage<'t, 'a>(cursor: Cursor<'t, 'a>) -> (Linkage, Cursor<'t, 'a>)
    ensures { LeadsLinkage cursor.entry result }
{
    if let Some((_, rest)) = cursor.keyword(Keyword::Public) {
        return (Linkage::Public, rest);
    }
    if let Some((_, rest)) = cursor.keyword(Keyword::External) {
        return (Linkage::External, rest);
    }
    (Linkage::None, cursor)
}

/// For how many statements room is taken at once, where this many tokens are left: a module has many, which are not to be moved again and
/// again, and a statement has some eight tokens at least. What is not used of it is never touched. A block inside mostly has few.
fn likely(room: u8, tokens: usize) -> usize {
    if room == INNER_LEVELS { tokens / 8 } else { 2 }
}

/// Statements up to their END, and the name after it.
#[cycle(statement)]
fn statements<'t, 'a>(
    alloc: Global,
    room: u8,
    label: Option<Name<'a>>,
    cursor: Cursor<'t, 'a>,
) -> Result<((Vec<Statement<'a>>, Option<Name<'a>>), Cursor<'t, 'a>), Failure>
    ensures leads { Leads read_body (λ s. Want (StatementsG (base_of label.entry)) ∷ s) (λ v. StatementsR no_statements ∷ v) result cursor.entry room }
    ensures within { Within result cursor.entry }
{
    let mut list = Vec::with_capacity(alloc, likely(room, cursor.tokens.len()))?;
    let mut rest = cursor;
    loop {
        if let Some((_, after)) = rest.keyword(Keyword::End) {
            let (end, behind) = end(label, after)?;
            return Ok(((list, end), behind));
        }
        rest = pushed(&mut list, statement(alloc, room, rest))?;
    }
}

/// The name after END, if it is there, and the semicolon.
fn end<'t, 'a>(
    label: Option<Name<'a>>,
    cursor: Cursor<'t, 'a>,
) -> Result<(Option<Name<'a>>, Cursor<'t, 'a>), Failure>
    ensures leads { Reads read_end (λ s. Want (EndG (base_of label.entry)) ∷ s) nothing_read result cursor.entry }
    ensures within { Within result cursor.entry }
{
    let Some((name, behind)) = cursor.name() else {
        return cursor.close(None, Mark::Semicolon);
    };
    if names_block(label, name) {
        return behind.close(Some(name), Mark::Semicolon);
    }
    Err(cursor.refuse())
}

/// Whether a name may stand after the END of the block with this label.
fn names_block(label: Option<Name<'_>>, name: Name<'_>) -> bool
    ensures { result ≡ is_end_name (base_of label.entry) (name_of name.entry) }
{
    match label {
        Some(label) => same_name(label.text, name.text),
        None => false,
    }
}

/// A statement with its labels.
#[cycle(statement)]
fn statement<'t, 'a>(
    alloc: Global,
    room: u8,
    cursor: Cursor<'t, 'a>,
) -> Result<(Statement<'a>, Cursor<'t, 'a>), Failure>
    ensures leads { Leads read_statement (λ s. Want (StatementG None) ∷ s) (λ v. NamesR no_names ∷ v) result cursor.entry room }
    ensures within { Shrinks result cursor.entry }
{
    let mut labels = Vec::new(alloc);
    let mut last = None;
    let mut rest = cursor;
    while let Some((label, behind)) = label_at(rest) {
        labels.push(label)?;
        last = Some(label);
        rest = behind;
    }
    let (basic, behind) = basic(alloc, room, last, rest)?;
    Ok((Statement { labels, basic }, behind))
}

/// A label and its colon where they come next, and what is left after them.
fn label_at<'t, 'a>(cursor: Cursor<'t, 'a>) -> Option<(Name<'a>, Cursor<'t, 'a>)>
    ensures { IsLabel cursor.entry result }
{
    let Some((name, behind)) = cursor.name() else {
        return None;
    };
    let Some((_, rest)) = behind.mark(Mark::Colon) else {
        return None;
    };
    Some((name, rest))
}

/// A statement after its labels, the last of which this is.
#[cycle(statement)]
fn basic<'t, 'a>(
    alloc: Global,
    room: u8,
    label: Option<Name<'a>>,
    cursor: Cursor<'t, 'a>,
) -> Result<(Basic<'a>, Cursor<'t, 'a>), Failure>
    requires { is_label (ahead cursor) ≡ false }
    ensures leads { (ls : NamesT) → Leads (read_basic ls) (λ s. Want (StatementG (base_of label.entry)) ∷ s) (λ v. NamesR ls ∷ v) result cursor.entry room }
    ensures within { Shrinks result cursor.entry }
{
    if let Some((name, after)) = cursor.name() {
        return assignment(alloc, room, name, after);
    }
    if let Some((place, after)) = cursor.keyword(Keyword::If) {
        return condition(alloc, room, place, after);
    }
    if let Some((place, after)) = cursor.keyword(Keyword::Do) {
        let inside = after.level_down(room)?;
        return group(alloc, inside, label, place, after);
    }
    plain(alloc, room, cursor)
}

/// An assignment after the name of its first target.
#[inline(never)]
fn assignment<'t, 'a>(
    alloc: Global,
    room: u8,
    name: Name<'a>,
    cursor: Cursor<'t, 'a>,
) -> Result<(Basic<'a>, Cursor<'t, 'a>), Failure>
    ensures leads { (ls : NamesT) → Leads (read_basic ls) (λ s. Want SubscriptsG ∷ Want SelectorG ∷ Want MoreTargetsG ∷ s) (λ v. reference_read (name_of name.entry) (ReferencesR no_references ∷ NamesR ls ∷ v)) result cursor.entry room }
    ensures within { Within result cursor.entry }
{
    let mut targets = Vec::with_capacity(alloc, MOSTLY)?;
    let mut rest = pushed(&mut targets, reference(alloc, room, name, cursor))?;
    while let Some((_, after)) = rest.mark(Mark::Comma) {
        let (name, begun) = after.expect_name()?;
        rest = pushed(&mut targets, reference(alloc, room, name, begun))?;
    }
    let after = rest.expect_mark(Mark::Equal)?;
    let (value, end) = closing_expression(alloc, room, after)?;
    Ok((Basic::Assign(targets, value), end))
}

/// A statement that begins neither with a name nor with IF or DO.
fn plain<'t, 'a>(
    alloc: Global,
    room: u8,
    cursor: Cursor<'t, 'a>,
) -> Result<(Basic<'a>, Cursor<'t, 'a>), Failure>
    requires name { is_name (next_of cursor) ≡ false }
    requires condition { is_key TheIf (next_of cursor) ≡ false }
    requires group { is_key TheDo (next_of cursor) ≡ false }
    ensures leads { (label : Option NameT) (ls : NamesT) → Leads (read_basic ls) (λ s. Want (StatementG label) ∷ s) (λ v. NamesR ls ∷ v) result cursor.entry room }
    ensures within { Shrinks result cursor.entry }
{
    if let Some((place, rest)) = cursor.mark(Mark::Semicolon) {
        return Ok((Basic::Empty(place), rest));
    }
    if let Some((place, after)) = cursor.keyword(Keyword::Call) {
        return call(alloc, room, place, after);
    }
    if let Some((place, after)) = cursor.keyword(Keyword::Return) {
        return return_from(alloc, room, place, after);
    }
    if let Some((place, after)) = cursor.keyword(Keyword::Enable) {
        return after.close(Basic::Enable(place), Mark::Semicolon);
    }
    if let Some((place, after)) = cursor.keyword(Keyword::Disable) {
        return after.close(Basic::Disable(place), Mark::Semicolon);
    }
    if let Some((place, after)) = cursor.keyword(Keyword::Halt) {
        return after.close(Basic::Halt(place), Mark::Semicolon);
    }
    Err(cursor.refuse())
}

/// A CALL after its first word.
fn call<'t, 'a>(
    alloc: Global,
    room: u8,
    place: Position,
    cursor: Cursor<'t, 'a>,
) -> Result<(Basic<'a>, Cursor<'t, 'a>), Failure>
    ensures leads { (ls : NamesT) → Leads (read_basic ls) (λ s. Want CalledG ∷ need Semicolon ∷ Do (make_call place) ∷ s) (λ v. NamesR ls ∷ v) result cursor.entry room }
    ensures within { Within result cursor.entry }
{
    let (name, begun) = cursor.expect_name()?;
    let (called, rest) = closing(reference(alloc, room, name, begun), Mark::Semicolon)?;
    Ok((Basic::Call(place, called), rest))
}

/// A RETURN after its first word.
fn return_from<'t, 'a>(
    alloc: Global,
    room: u8,
    place: Position,
    cursor: Cursor<'t, 'a>,
) -> Result<(Basic<'a>, Cursor<'t, 'a>), Failure>
    ensures leads { (ls : NamesT) → Leads (read_basic ls) (λ s. Want (ReturnedG place) ∷ s) (λ v. NamesR ls ∷ v) result cursor.entry room }
    ensures within { Within result cursor.entry }
{
    if let Some((_, rest)) = cursor.mark(Mark::Semicolon) {
        return Ok((Basic::Return(place), rest));
    }
    let (value, rest) = closing_expression(alloc, room, cursor)?;
    Ok((Basic::ReturnValue(place, value), rest))
}

/// An expression, and the semicolon after it.
fn closing_expression<'t, 'a>(
    alloc: Global,
    room: u8,
    cursor: Cursor<'t, 'a>,
) -> Result<(Expression<'a>, Cursor<'t, 'a>), Failure>
    ensures leads { Leads read_expression (λ s. an_expression (need Semicolon ∷ s)) nothing_read result cursor.entry room }
    ensures within { Shrinks result cursor.entry }
{
    closing(expression(alloc, room, cursor), Mark::Semicolon)
}

/// An expression, and the reserved word after it.
fn expression_before<'t, 'a>(
    alloc: Global,
    room: u8,
    word: Keyword,
    cursor: Cursor<'t, 'a>,
) -> Result<(Expression<'a>, Cursor<'t, 'a>), Failure>
    ensures leads { Leads read_expression (λ s. an_expression (Need (Key word) ∷ s)) nothing_read result cursor.entry room }
    ensures within { Shrinks result cursor.entry }
{
    let (value, behind) = expression(alloc, room, cursor)?;
    behind.close_word(value, word)
}

/// An IF after its first word.
#[cycle(statement)]
#[inline(never)]
fn condition<'t, 'a>(
    alloc: Global,
    room: u8,
    place: Position,
    cursor: Cursor<'t, 'a>,
) -> Result<(Basic<'a>, Cursor<'t, 'a>), Failure>
    ensures leads { (ls : NamesT) → Leads (read_basic ls) (condition_goals place) (λ v. NamesR ls ∷ v) result cursor.entry room }
    ensures within { Within result cursor.entry }
{
    let (asked, start) = expression_before(alloc, room, Keyword::Then, cursor)?;
    let (choice, behind) = beside(asked, arm(alloc, room, start))?;
    let Some((_, after)) = behind.keyword(Keyword::Else) else {
        return Ok((Basic::If(place, choice.0, choice.1), behind));
    };
    let (((test, then), other), rest) = beside(choice, arm(alloc, room, after))?;
    Ok((Basic::IfElse(place, test, then, other), rest))
}

/// An arm of an IF: its first token opens a level, if it can begin a statement.
#[cycle(statement)]
fn arm<'t, 'a>(
    alloc: Global,
    room: u8,
    cursor: Cursor<'t, 'a>,
) -> Result<(Box<Statement<'a>>, Cursor<'t, 'a>), Failure>
    ensures leads { Leads read_arm (λ s. Want ArmG ∷ s) nothing_read result cursor.entry room }
    ensures within { Within result cursor.entry }
{
    let Some((_, _, behind)) = beginning(cursor) else {
        return Err(cursor.refuse());
    };
    let inside = behind.level_down(room)?;
    boxed(alloc, statement(alloc, inside, cursor))
}

/// A token that can begin a statement where one comes next, and what is left after it.
fn beginning<'t, 'a>(cursor: Cursor<'t, 'a>) -> Option<(Token<'a>, Position, Cursor<'t, 'a>)>
    ensures { IsBeginning cursor.entry result }
{
    let (token, place, rest) = cursor.next()?;
    if begins_statement(token.kind) {
        Some((token, place, rest))
    } else {
        None
    }
}

/// Whether a token can begin a statement.
fn begins_statement(kind: Kind) -> bool
    ensures { (text : List ℕ) (p : SomePlace) → result ≡ begins_statement (terminal_of kind text p) }
{
    matches!(
        kind,
        Kind::Identifier
            | Kind::Special(Mark::Semicolon)
            | Kind::Reserved(
                Keyword::Call
                    | Keyword::Return
                    | Keyword::Enable
                    | Keyword::Disable
                    | Keyword::Halt
                    | Keyword::If
                    | Keyword::Do
            )
    )
}

/// A DO group after the word DO.
#[cycle(statement)]
#[inline(never)]
fn group<'t, 'a>(
    alloc: Global,
    room: u8,
    label: Option<Name<'a>>,
    place: Position,
    cursor: Cursor<'t, 'a>,
) -> Result<(Basic<'a>, Cursor<'t, 'a>), Failure>
    ensures leads { (ls : NamesT) → Leads (read_basic ls) (λ s. Want (DoG place (base_of label.entry)) ∷ s) (λ v. NamesR ls ∷ v) result cursor.entry room }
    ensures within { Within result cursor.entry }
{
    if let Some((index, after)) = cursor.name() {
        return iterate(alloc, room, label, place, index, after);
    }
    if let Some((_, inner)) = cursor.mark(Mark::Semicolon) {
        let ((block, end), rest) = block(alloc, room, label, inner)?;
        return Ok((Basic::Do(place, block, end), rest));
    }
    if let Some((_, after)) = cursor.keyword(Keyword::While) {
        let ((test, (body, end)), rest) = governed(alloc, room, label, after)?;
        return Ok((Basic::While(place, test, body, end), rest));
    }
    if let Some((_, after)) = cursor.keyword(Keyword::Case) {
        let ((selected, (cases, end)), rest) = governed(alloc, room, label, after)?;
        return Ok((Basic::Case(place, selected, cases, end), rest));
    }
    Err(cursor.refuse())
}

/// The expression of a DO WHILE or DO CASE, its statements, and the name after their END.
#[cycle(statement)]
fn governed<'t, 'a>(
    alloc: Global,
    room: u8,
    label: Option<Name<'a>>,
    cursor: Cursor<'t, 'a>,
) -> Result<
    (
        (Expression<'a>, (Vec<Statement<'a>>, Option<Name<'a>>)),
        Cursor<'t, 'a>,
    ),
    Failure,
>
    ensures leads { Leads read_governed (governed_goals (base_of label.entry)) nothing_read result cursor.entry room }
    ensures within { Within result cursor.entry }
{
    let (value, start) = closing_expression(alloc, room, cursor)?;
    beside(value, statements(alloc, room, label, start))
}

/// `DO i = a TO b [BY s]` after its index.
#[cycle(statement)]
#[inline(never)]
fn iterate<'t, 'a>(
    alloc: Global,
    room: u8,
    label: Option<Name<'a>>,
    place: Position,
    index: Name<'a>,
    cursor: Cursor<'t, 'a>,
) -> Result<(Basic<'a>, Cursor<'t, 'a>), Failure>
    ensures leads { (ls : NamesT) → Leads (read_basic ls) (iterate_goals place (base_of label.entry)) (λ v. NameR (name_of index.entry) ∷ NamesR ls ∷ v) result cursor.entry room }
    ensures within { Within result cursor.entry }
{
    let (header, start) = range(alloc, room, cursor)?;
    let ((bounds, (body, end)), rest) = beside(header, statements(alloc, room, label, start))?;
    Ok((Basic::Iterate(place, index, bounds, body, end), rest))
}

/// `= a TO b [BY s]` and the semicolon after it.
fn range<'t, 'a>(
    alloc: Global,
    room: u8,
    cursor: Cursor<'t, 'a>,
) -> Result<(Box<Bounds<'a>>, Cursor<'t, 'a>), Failure>
    ensures leads { (i : NameT) → Leads (read_range i) range_goals (λ v. NameR i ∷ v) result cursor.entry room }
    ensures within { Shrinks result cursor.entry }
{
    let begun = cursor.expect_mark(Mark::Equal)?;
    let (start, bound) = expression_before(alloc, room, Keyword::To, begun)?;
    let (ends, behind) = beside(start, expression(alloc, room, bound))?;
    let (((first, last), step), rest) = beside(ends, step(alloc, room, behind))?;
    boxed(alloc, Ok((Bounds { first, last, step }, rest)))
}

/// The step of a DO with an index, where the word BY comes next, and the semicolon after it.
fn step<'t, 'a>(
    alloc: Global,
    room: u8,
    cursor: Cursor<'t, 'a>,
) -> Result<(Option<Expression<'a>>, Cursor<'t, 'a>), Failure>
    ensures leads { Leads read_step (λ s. Want StepG ∷ need Semicolon ∷ s) (λ v. StepR None ∷ v) result cursor.entry room }
    ensures within { Shrinks result cursor.entry }
{
    let Some((_, after)) = cursor.keyword(Keyword::By) else {
        return cursor.close(None, Mark::Semicolon);
    };
    let (value, behind) = expression(alloc, room, after)?;
    behind.close(Some(value), Mark::Semicolon)
}
