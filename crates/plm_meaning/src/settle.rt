//! From what a context has still to do to the part that is rewritten next: none of these moves is a step.
//!
//! Each way to begin is a function of its own, never inlined: room for what it makes is cleared where it is entered, and `settle`
//! would clear that of all of them at each step.

ghost use Rattle.std.specs.Prelude.{◌≡◌, ◌+◌, ◌<◌, ◌≤◌, OnOk, IfSome, IfNone, vec_len, vec_capacity};
ghost use Rattle.plm_type.specs.Next.{behind, bound_of};
ghost use Rattle.plm_type.specs.Rest.{Statements, Call, More, Then, End, Returned, Running, Comparing as Compare, Value as Known};
ghost use Rattle.plm_type.specs.View.{expression_of, expressions_of, target_of, statement_of, statements_of, loop_of};
ghost use Rattle.plm_meaning.specs.Context.{Expr, ToRun, aimed, later_of, given, around, to_run_in, to_run_of};
ghost use Rattle.plm_meaning.specs.Inner.Context.{IsSettled};

use crate::context::{Context, Destination, Focus, Frame, Later, Redex};
use crate::start::{bound_start, expression_start, leaf, statement_start, target_start};
use plm_type::{Expression, Loop, Statement, Target};
use std::alloc::{AllocError, Global};

// How many frames are put down at most before an expression begins: what stands around statements, what comes after the first of them,
// and what that one waits for.
const ROOM: usize = 3;

// An expression begins: what comes first of it is an expression again, or a part that is rewritten next. A refused growth of memory
// leaves the expression to be evaluated.
#[tactic(auto, using(crate::proofs::Plug::to_run_last))]
#[inline(never)]
fn begin_expression<'a>(
    alloc: Global,
    e: &'a Expression,
    context: &mut Context<'a>,
) -> Result<(), AllocError>
    ensures rest { to_run_of context.new ≡ to_run_in context.old.frames.items (Expr (expression_of e.now)) }
    ensures settled { OnOk result (IsSettled context.new.focus context.new.frames.items) }
{
    let mut first = e;
    loop {
        if let Some(redex) = leaf(first) {
            context.focus = Focus::Ready(redex);
            return Ok(());
        }
        if let Err(refused) = context.frames.reserve(1) {
            context.focus = Focus::Expression(first);
            return Err(refused);
        }
        match expression_start(first, alloc, context) {
            None => return Ok(()),
            Some(inner) => first = inner,
        }
    }
}

// Goes on with the expression that comes first, if there is one.
fn begin<'a>(
    alloc: Global,
    first: Option<&'a Expression>,
    context: &mut Context<'a>,
) -> Result<(), AllocError>
    requires settled { IfNone first (IsSettled context.old.focus context.old.frames.items) }
    ensures rest { (ss : Statements) → IfNone first.entry (to_run_of context.old ≡ ss) → IfSome first.entry (λ e. to_run_in context.old.frames.items (Expr (expression_of e.now)) ≡ ss) → to_run_of context.new ≡ ss }
    ensures settled { OnOk result (IsSettled context.new.focus context.new.frames.items) }
{
    match first {
        None => Ok(()),
        Some(e) => begin_expression(alloc, e, context),
    }
}

// A statement begins alone.
#[inline(never)]
fn begin_alone<'a>(
    alloc: Global,
    s: &'a Statement,
    context: &mut Context<'a>,
) -> Result<(), AllocError>
    requires room { vec_len context.old.frames < vec_capacity context.old.frames }
    ensures rest { to_run_of context.new ≡ to_run_in context.old.frames.items (ToRun (Then (statement_of s.now) End)) }
    ensures settled { OnOk result (IsSettled context.new.focus context.new.frames.items) }
{
    let first = statement_start(s, context);
    begin(alloc, first, context)
}

// A target begins.
#[inline(never)]
fn begin_target<'a>(
    alloc: Global,
    target: &'a Target,
    destination: Destination<'a>,
    context: &mut Context<'a>,
) -> Result<(), AllocError>
    requires room { vec_len context.old.frames < vec_capacity context.old.frames }
    ensures rest { to_run_of context.new ≡ to_run_in context.old.frames.items (aimed destination.entry (target_of target.now)) }
    ensures settled { OnOk result (IsSettled context.new.focus context.new.frames.items) }
{
    let first = target_start(target, destination, context);
    begin(alloc, first, context)
}

// The bound of a DO begins, with which the index is compared.
#[inline(never)]
fn begin_bound<'a>(
    alloc: Global,
    index: u16,
    rounds: &'a Loop,
    context: &mut Context<'a>,
) -> Result<(), AllocError>
    requires room { vec_len context.old.frames < vec_capacity context.old.frames }
    ensures rest { to_run_of context.new ≡ to_run_in context.old.frames.items (ToRun (Then (Compare index (bound_of (loop_of rounds.now)) (loop_of rounds.now)) End)) }
    ensures settled { OnOk result (IsSettled context.new.focus context.new.frames.items) }
{
    let first = bound_start(index, rounds, context);
    begin(alloc, first, context)
}

// A statement begins, before others.
#[tactic(auto, using(crate::proofs::Plug::to_run_last))]
fn begin_statement<'a>(
    alloc: Global,
    s: &'a Statement,
    after: &'a [Box<Statement>],
    context: &mut Context<'a>,
) -> Result<(), AllocError>
    requires room { vec_len context.old.frames + 2 ≤ vec_capacity context.old.frames }
    ensures rest { to_run_of context.new ≡ to_run_in context.old.frames.items (ToRun (Then (statement_of s.now) (statements_of after.now))) }
    ensures settled { OnOk result (IsSettled context.new.focus context.new.frames.items) }
{
    context.frames.push_reserved(Frame::Behind(after));
    begin_alone(alloc, s, context)
}

// Nothing is left to do here: what comes after it is next.
#[tactic(auto, using(crate::proofs::Plug::to_run_last))]
fn at_end<'a>(alloc: Global, context: &mut Context<'a>) -> Result<(), AllocError>
    requires room { vec_len context.old.frames < vec_capacity context.old.frames }
    ensures rest { to_run_of context.new ≡ to_run_in context.old.frames.items (ToRun End) }
    ensures settled { OnOk result (IsSettled context.new.focus context.new.frames.items) }
{
    while let Some(frame) = context.frames.pop() {
        match frame {
            Frame::Behind(after) => match after.split_first() {
                None => {}
                Some((s, others)) => {
                    return begin_statement(alloc, s, others, context);
                }
            },
            Frame::Later(later) => {
                let first = later.start(context);
                return begin(alloc, first, context);
            }
            Frame::Running => {
                context.focus = Focus::Ready(Redex::Ended);
                return Ok(());
            }
            other => {
                context.frames.push_reserved(other);
                context.focus = Focus::Ready(Redex::Ended);
                return Ok(());
            }
        }
    }
    context.focus = Focus::Statements(&[]);
    Ok(())
}

// A RETURN leaves out what comes after it.
#[tactic(auto, using(crate::proofs::Plug::to_run_last))]
fn give<'a>(v: u16, context: &mut Context<'a>)
    ensures rest { to_run_of context.new ≡ to_run_in context.old.frames.items (ToRun (Returned v)) }
    ensures settled { IsSettled context.new.focus context.new.frames.items }
{
    while let Some(frame) = context.frames.pop() {
        match frame {
            Frame::Behind(_) => {}
            Frame::Later(_) => {}
            Frame::Running => {
                context.focus = Focus::Ready(Redex::Given(v));
                return;
            }
            other => {
                context.frames.push_reserved(other);
                context.focus = Focus::Ready(Redex::Given(v));
                return;
            }
        }
    }
    context.focus = Focus::Returned(v);
}

// The first part of the first statement.
#[tactic(auto, using(crate::proofs::Plug::to_run_last))]
fn begin_statements<'a>(
    alloc: Global,
    statements: &'a [Box<Statement>],
    context: &mut Context<'a>,
) -> Result<(), AllocError>
    requires room { vec_len context.old.frames + 2 ≤ vec_capacity context.old.frames }
    ensures rest { to_run_of context.new ≡ to_run_in context.old.frames.items (ToRun (statements_of statements.now)) }
    ensures settled { OnOk result (IsSettled context.new.focus context.new.frames.items) }
{
    match statements.split_first() {
        None => at_end(alloc, context),
        Some((s, after)) => begin_statement(alloc, s, after, context),
    }
}

// Statements begin, in a frame.
#[tactic(auto, using(crate::proofs::Plug::to_run_last))]
fn begin_within<'a>(
    alloc: Global,
    frame: Frame<'a>,
    statements: &'a [Box<Statement>],
    context: &mut Context<'a>,
) -> Result<(), AllocError>
    requires room { vec_len context.old.frames + 3 ≤ vec_capacity context.old.frames }
    ensures rest { to_run_of context.new ≡ to_run_in context.old.frames.items (around frame.entry (ToRun (statements_of statements.now))) }
    ensures settled { OnOk result (IsSettled context.new.focus context.new.frames.items) }
{
    context.frames.push_reserved(frame);
    begin_statements(alloc, statements, context)
}

// Statements begin, before what comes after them.
#[inline(never)]
fn begin_before<'a>(
    alloc: Global,
    later: Later<'a>,
    statements: &'a [Box<Statement>],
    context: &mut Context<'a>,
) -> Result<(), AllocError>
    requires room { vec_len context.old.frames + 3 ≤ vec_capacity context.old.frames }
    ensures rest { to_run_of context.new ≡ to_run_in context.old.frames.items (ToRun (behind (statements_of statements.now) (later_of later.entry))) }
    ensures settled { OnOk result (IsSettled context.new.focus context.new.frames.items) }
{
    begin_within(alloc, Frame::Later(later), statements, context)
}

// The body of a call begins.
#[inline(never)]
fn begin_body<'a>(
    alloc: Global,
    body: &'a [Box<Statement>],
    context: &mut Context<'a>,
) -> Result<(), AllocError>
    requires room { vec_len context.old.frames + 3 ≤ vec_capacity context.old.frames }
    ensures rest { to_run_of context.new ≡ to_run_in context.old.frames.items (Expr (Running (statements_of body.now))) }
    ensures settled { OnOk result (IsSettled context.new.focus context.new.frames.items) }
{
    begin_within(alloc, Frame::Running, body, context)
}

// An argument has its value.
#[tactic(auto, using(crate::proofs::Plug::to_run_last, crate::proofs::Given::given_last))]
fn argument<'a>(
    alloc: Global,
    procedure: usize,
    mut values: Vec<u16>,
    v: u16,
    more: &'a [Expression],
    context: &mut Context<'a>,
) -> Result<(), AllocError>
    requires room { vec_len context.old.frames < vec_capacity context.old.frames }
    requires focus { context.old.focus ≡ Focus.Value v }
    ensures rest { to_run_of context.new ≡ to_run_in context.old.frames.items (Expr (Call procedure (given values.items (More (Known v) (expressions_of more.now))))) }
    ensures settled { OnOk result (IsSettled context.new.focus context.new.frames.items) }
{
    match values.push(v) {
        Err(_) => {
            context
                .frames
                .push_reserved(Frame::Argument(procedure, values, more));
            Err(AllocError)
        }
        Ok(()) => match more.split_first() {
            None => {
                context.focus = Focus::Call(procedure, values);
                Ok(())
            }
            Some((e, others)) => {
                context
                    .frames
                    .push_reserved(Frame::Argument(procedure, values, others));
                begin_expression(alloc, e, context)
            }
        },
    }
}

// A value goes to the frame around it.
#[tactic(auto, using(crate::proofs::Plug::to_run_last))]
#[inline(never)]
fn resume<'a>(alloc: Global, v: u16, context: &mut Context<'a>) -> Result<(), AllocError>
    requires room { vec_len context.old.frames < vec_capacity context.old.frames }
    requires focus { context.old.focus ≡ Focus.Value v }
    ensures rest { to_run_of context.new ≡ to_run_of context.old }
    ensures settled { OnOk result (IsSettled context.new.focus context.new.frames.items) }
{
    match context.frames.pop() {
        None | Some(Frame::Evaluate) => at_end(alloc, context),
        Some(Frame::Hole(hole)) => {
            let first = hole.filled(v, context);
            begin(alloc, first, context)
        }
        Some(Frame::Argument(procedure, values, more)) => argument(
            alloc, procedure, values, v, more, context,
        ),
        Some(other) => {
            context.frames.push_reserved(other);
            at_end(alloc, context)
        }
    }
}

/// Moves on to the part that is rewritten next. A refused growth of memory leaves what is to be done as it was.
pub fn settle<'a>(alloc: Global, context: &mut Context<'a>) -> Result<(), AllocError>
    ensures rest { to_run_of context.new ≡ to_run_of context.old }
    ensures settled { OnOk result (IsSettled context.new.focus context.new.frames.items) }
{
    context.frames.reserve(ROOM)?;
    match &context.focus {
        Focus::Expression(e) => begin_expression(alloc, e, context),
        Focus::Value(v) => resume(alloc, *v, context),
        Focus::Statements(statements) => begin_statements(alloc, statements, context),
        Focus::Statement(s) => begin_alone(alloc, s, context),
        Focus::Returned(v) => {
            give(*v, context);
            Ok(())
        }
        Focus::Within(later, statements) => begin_before(alloc, *later, statements, context),
        Focus::Entering(body) => begin_body(alloc, body, context),
        Focus::Bound(index, rounds) => begin_bound(alloc, *index, rounds, context),
        Focus::Aim(target, destination) => begin_target(alloc, target, *destination, context),
        Focus::Call(_, _) | Focus::Passing(_, _, _, _) | Focus::Ready(_) => Ok(()),
    }
}
