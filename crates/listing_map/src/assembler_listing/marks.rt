//! At which instruction of its routine's code each statement begins.
//!
//! The code of a statement stands in one piece, and what ends it can be told: an assignment stores so many values, a CALL calls so many
//! procedures, a condition ends at the jump that asks it. So statements and code are gone through side by side.

use crate::noted::Noted;
use icode::Instruction;
use plm_decl::{Binding, Expression, Location, Operation, Reference, Selector, Statement};
use plm_syntax::Position;
use plm_type::is_measure;
use std::alloc::AllocError;

/// The line of a statement, and the number of its first instruction. Behind the last statement stands a routine's end, which has no line.
#[derive(Clone, Copy)]
pub(crate) struct Mark {
    pub index: usize,
    pub line: Option<u32>,
}

/// How many values are stored while something is evaluated, and how many procedures are called.
#[derive(Clone, Copy)]
struct Tally {
    stores: usize,
    calls: usize,
}

const NONE: Tally = Tally {
    stores: 0,
    calls: 0,
};

const STORE: Tally = Tally {
    stores: 1,
    calls: 0,
};

impl Tally {
    fn and(self, other: Tally) -> Tally {
        Tally {
            stores: self.stores.saturating_add(other.stores),
            calls: self.calls.saturating_add(other.calls),
        }
    }
}

#[cycle(counting)]
fn of_expression(tree: &Expression) -> Tally {
    match tree {
        Expression::Number(_) | Expression::Text(_, _) => NONE,
        Expression::Reference(reference) => of_reference(reference),
        Expression::Location(location) => of_location(location),
        Expression::Parenthesised(_, inner) => of_expression(inner),
        Expression::Embedded(_, target, value) => {
            STORE.and(of_parts(target)).and(of_expression(value))
        }
        Expression::Unary(_, _, operand) => of_expression(operand),
        Expression::Chain { first, others } => of_expression(first).and(of_operations(others)),
    }
}

#[cycle(counting)]
fn of_operations(operations: &[Operation]) -> Tally {
    let mut tally = NONE;
    for operation in operations {
        tally = tally.and(of_expression(&operation.operand));
    }
    tally
}

#[cycle(counting)]
fn of_expressions(trees: &[Expression]) -> Tally {
    let mut tally = NONE;
    for tree in trees {
        tally = tally.and(of_expression(tree));
    }
    tally
}

/// Of the subscripts or arguments of a reference, and of its member's.
#[cycle(counting)]
fn of_parts(reference: &Reference) -> Tally {
    of_expressions(&reference.subscripts).and(of_selector(&reference.selector))
}

#[cycle(counting)]
fn of_selector(selector: &Selector) -> Tally {
    match selector {
        Selector::None | Selector::Member(_, _) => NONE,
        Selector::Element(_, _, subscript) => of_expression(subscript),
    }
}

/// Of a reference that is evaluated: a procedure's parameters are stored, and it is called.
#[cycle(counting)]
fn of_reference(reference: &Reference) -> Tally {
    match reference.binding {
        Binding::Variable(_) | Binding::Nothing => of_parts(reference),
        Binding::Builtin(builtin) => {
            if is_measure(builtin) {
                NONE
            } else {
                of_parts(reference)
            }
        }
        Binding::Procedure(_) => {
            let call = Tally {
                stores: reference.subscripts.len(),
                calls: 1,
            };
            call.and(of_parts(reference))
        }
    }
}

#[cycle(counting)]
fn of_location(location: &Location) -> Tally {
    match location {
        Location::Reference(_, _, reference) => of_parts(reference),
        Location::Constants(_, _, _) => NONE,
    }
}

/// Of an assignment's targets.
fn of_targets(targets: &[Reference]) -> Tally {
    let mut tally = NONE;
    for target in targets {
        tally = tally.and(STORE).and(of_parts(target));
    }
    tally
}

/// A sort of instruction: of those that end something, or else.
#[derive(Clone, Copy, PartialEq, Eq)]
pub(crate) enum Sort {
    Store,
    Call,
    Leave,
    /// A jump ahead that asks.
    Asks,
    /// A jump back that asks.
    AsksBack,
    /// What a table of cases stands behind.
    Cases,
    /// A word of that table.
    Case,
    Other,
}

pub(crate) fn sort_of(instruction: Instruction) -> Sort {
    match instruction {
        Instruction::Store(_, _)
        | Instruction::StoreAt(_, _)
        | Instruction::StoreThere(_)
        | Instruction::StoreTop(_, _)
        | Instruction::StoreConstantAt(_, _, _)
        | Instruction::Send(_)
        | Instruction::SendTo(_, _) => Sort::Store,
        Instruction::Invoke(_) => Sort::Call,
        Instruction::Leave | Instruction::Finish => Sort::Leave,
        Instruction::AheadUnless(_, _) => Sort::Asks,
        Instruction::BackUnless(_, _) | Instruction::Next(_, _, _, _) => Sort::AsksBack,
        Instruction::Switch(_) => Sort::Cases,
        Instruction::Case(_) => Sort::Case,
        Instruction::Constant(_)
        | Instruction::Locate(_)
        | Instruction::LocateAt(_)
        | Instruction::Load(_, _)
        | Instruction::LoadAt(_, _)
        | Instruction::LoadThere(_)
        | Instruction::Low(_, _)
        | Instruction::Push
        | Instruction::Pick(_)
        | Instruction::Drop(_)
        | Instruction::Unary(_, _)
        | Instruction::Binary(_, _)
        | Instruction::BinaryConstant(_, _, _)
        | Instruction::BinaryPlain(_, _, _, _)
        | Instruction::Receive(_)
        | Instruction::ReceiveFrom(_, _)
        | Instruction::Ahead(_)
        | Instruction::Back(_)
        | Instruction::Enable
        | Instruction::Disable
        | Instruction::Halt => Sort::Other,
    }
}

/// How far the instructions of a routine are gone through, whether each DO WHILE that is still to come has no test, and the marks so far.
#[derive(Drop)]
struct Walk<'c> {
    instructions: &'c [Instruction],
    endless: &'c [bool],
    at: usize,
    marks: Noted<Mark>,
}

impl Walk<'_> {
    fn mark(&mut self, place: Position) {
        self.marks.add(Mark {
            index: self.at,
            line: Some(place.line),
        });
    }

    /// Notes that a statement begins, and goes on behind the next instruction of a sort, so many times.
    fn mark_behind(&mut self, place: Position, sort: Sort, times: usize) {
        self.mark(place);
        self.behind(sort, times);
    }

    /// Goes on over so many instructions.
    fn over(&mut self, count: usize) {
        self.at = self.at.saturating_add(count);
    }

    /// Goes on behind the next instruction of a sort, so many times.
    fn behind(&mut self, sort: Sort, times: usize) {
        self.at = place_behind(self.instructions, self.at, sort, times);
    }

    /// Whether the next DO WHILE has no test, since its condition always holds.
    fn is_next_endless(&mut self) -> bool {
        match self.endless {
            [first, others @ ..] => {
                self.endless = others;
                *first
            }
            [] => false,
        }
    }

    /// Goes on over the jump that stands before what is done otherwise, if that has code.
    fn over_jump(&mut self, otherwise: &Statement) {
        if !is_silent(otherwise) {
            self.over(1);
        }
    }
}

/// The place behind the next instruction of a sort, so many times, from a place on.
fn place_behind(instructions: &[Instruction], from: usize, sort: Sort, times: usize) -> usize {
    let mut left = times;
    let mut place = from;
    for at in from..instructions.len() {
        if left == 0 {
            return place;
        }
        if sort_of(instructions[at]) == sort {
            left -= 1;
        }
        place = at.saturating_add(1);
    }
    place
}

/// Whether a statement has no code: the empty one, and a block of such.
#[cycle(silence)]
fn is_silent(tree: &Statement) -> bool {
    match tree {
        Statement::Empty(_) => true,
        Statement::Do(_, statements) => are_silent(statements),
        Statement::Assign(_, _)
        | Statement::Call(_, _)
        | Statement::Return(_)
        | Statement::ReturnValue(_, _)
        | Statement::Enable(_)
        | Statement::Disable(_)
        | Statement::Halt(_)
        | Statement::If(_, _, _)
        | Statement::IfElse(_, _, _, _)
        | Statement::While(_, _, _)
        | Statement::Case(_, _, _)
        | Statement::Iterate(_, _, _, _) => false,
    }
}

#[cycle(silence)]
fn are_silent(trees: &[Statement]) -> bool {
    for tree in trees {
        if !is_silent(tree) {
            return false;
        }
    }
    true
}

/// The place of an assignment's first target.
fn first_place(targets: &[Reference]) -> Position {
    match targets.first() {
        Some(target) => target.place,
        None => Position { token: 0, line: 1 },
    }
}

#[cycle(walking)]
fn walk_statements(trees: &[Statement], walk: &mut Walk<'_>) {
    for tree in trees {
        walk_statement(tree, walk);
    }
}

/// Each case ends in a jump behind them all.
#[cycle(walking)]
fn walk_cases(trees: &[Statement], walk: &mut Walk<'_>) {
    for tree in trees {
        walk_statement(tree, walk);
        walk.over(1);
    }
}

/// DO WHILE: its test, if there is one, its statements, and the jump back.
#[cycle(walking)]
fn walk_while(trees: &[Statement], place: Position, walk: &mut Walk<'_>) {
    if walk.is_next_endless() {
        walk.mark(place);
    } else {
        walk.mark_behind(place, Sort::Asks, 1);
    }
    walk_statements(trees, walk);
    walk.mark_behind(place, Sort::Other, 1)
}

/// DO with an index: what comes before its rounds, its statements, and what ends a round.
#[cycle(walking)]
fn walk_iterate(trees: &[Statement], place: Position, walk: &mut Walk<'_>) {
    walk.mark_behind(place, Sort::Asks, 1);
    walk_statements(trees, walk);
    walk.mark_behind(place, Sort::AsksBack, 1)
}

#[cycle(walking)]
fn walk_statement(tree: &Statement, walk: &mut Walk<'_>) {
    match tree {
        Statement::Empty(_) => {}
        Statement::Assign(targets, value) => {
            let tally = of_expression(value).and(of_targets(targets));
            walk.mark_behind(first_place(targets), Sort::Store, tally.stores)
        }
        Statement::Call(place, reference) => {
            walk.mark_behind(*place, Sort::Call, of_reference(reference).calls)
        }
        Statement::Return(place) | Statement::ReturnValue(place, _) => {
            walk.mark_behind(*place, Sort::Leave, 1)
        }
        Statement::Enable(place) | Statement::Disable(place) | Statement::Halt(place) => {
            walk.mark_behind(*place, Sort::Other, 1)
        }
        Statement::If(place, _, arm) => {
            walk.mark_behind(*place, Sort::Asks, 1);
            walk_statement(arm, walk)
        }
        Statement::IfElse(place, _, arm, otherwise) => {
            walk.mark_behind(*place, Sort::Asks, 1);
            walk_statement(arm, walk);
            walk.over_jump(otherwise);
            walk_statement(otherwise, walk)
        }
        Statement::Do(_, statements) => walk_statements(statements, walk),
        Statement::While(place, _, statements) => walk_while(statements, *place, walk),
        Statement::Case(place, _, statements) => {
            walk.mark_behind(*place, Sort::Cases, 1);
            walk.over(statements.len().saturating_add(1));
            walk_cases(statements, walk)
        }
        Statement::Iterate(place, _, _, statements) => walk_iterate(statements, *place, walk),
    }
}

/// Where the statements of a routine begin in its code, and at last where they end. `endless` says of each DO WHILE whether it has no test.
pub(crate) fn marks_of(
    trees: &[Statement],
    endless: &[bool],
    instructions: &[Instruction],
    marks: Noted<Mark>,
) -> Result<Vec<Mark>, AllocError> {
    let mut walk = Walk {
        instructions,
        endless,
        at: 0,
        marks,
    };
    walk_statements(trees, &mut walk);
    let Walk {
        instructions: _,
        endless: _,
        at,
        mut marks,
    } = walk;
    marks.add(Mark {
        index: at,
        line: None,
    });
    marks.whole()
}
