//! How an expression, a statement, and what waited for a value begin.
//!
//! Each way to begin puts down what stands around the expression that comes first, and answers that expression; where a part is
//! rewritten next, it goes into the focus, and no expression is answered. So each part is made where it stays, and is not copied.

ghost use Rattle.std.specs.Prelude.{◌≡◌, ℕ, suc, ◌+◌, ◌*◌, ◌%◌, ◌<◌, ◌≤◌, IfSome, IfNone, vec_len, vec_capacity};
ghost use Rattle.plm_type.specs.Rest.{Refer, NoSubscripts, Then, End, Binary, Call, Evaluate, Comparing as Compare, Value as Known};
ghost use Rattle.plm_type.specs.Next.{bound_of};
ghost use Rattle.plm_type.specs.View.{anchor_of, expression_of, expressions_of, chained, reference_of, subscripts_of, target_of, statement_of, loop_of};
ghost use Rattle.plm_meaning.specs.Context.{Expr, ToRun, aimed, purposed, later_of, in_hole, redex_part, to_run_in, to_run_of};
ghost use Rattle.plm_meaning.specs.Inner.Context.{IsSettled};
ghost use Rattle.plm_meaning.specs.Inner.Start.{depth, arguments_depth, reference_depth, subscripts_depth};

use crate::access::Origin;
use crate::context::{Context, Destination, Focus, Frame, Hole, Later, Phase, Purpose, Redex};
use plm_type::{
    Anchor, Expression, Line, Loop, Operation, Reference, Statement, Subscript, Target,
    trees_have_their_lists,
};
use std::alloc::Global;

// A part is rewritten next.
#[inline(always)]
fn ready<'a>(redex: Redex<'a>, context: &mut Context<'a>) -> Option<&'a Expression>
    ensures rest { IfNone result (to_run_of context.new ≡ to_run_in context.old.frames.items (redex_part redex.entry)) }
    ensures settled { IfNone result (IsSettled context.new.focus context.new.frames.items) }
    ensures first { IfSome result (λ x. to_run_in context.new.frames.items (Expr (expression_of x.now)) ≡ to_run_in context.old.frames.items (redex_part redex.entry)) }
    ensures depth { (n : ℕ) → IfSome result (λ x. suc (depth (expression_of x.now)) ≤ n) }
{
    context.focus = Focus::Ready(redex);
    None
}

// An expression comes first, in a hole.
#[tactic(auto, using(crate::proofs::Plug::to_run_last))]
#[inline(always)]
fn within<'a>(
    hole: Hole<'a>,
    e: &'a Expression,
    context: &mut Context<'a>,
) -> Option<&'a Expression>
    requires room { vec_len context.old.frames < vec_capacity context.old.frames }
    ensures rest { IfNone result (to_run_of context.new ≡ to_run_in context.old.frames.items (in_hole hole.entry (Expr (expression_of e.now)))) }
    ensures settled { IfNone result (IsSettled context.new.focus context.new.frames.items) }
    ensures first { IfSome result (λ x. to_run_in context.new.frames.items (Expr (expression_of x.now)) ≡ to_run_in context.old.frames.items (in_hole hole.entry (Expr (expression_of e.now)))) }
    ensures depth { (n : ℕ) → suc (depth (expression_of e.now)) ≤ n → IfSome result (λ x. suc (depth (expression_of x.now)) ≤ n) }
{
    context.frames.push_reserved(Frame::Hole(hole));
    Some(e)
}

// A reference begins whose subscripts all have their values.
fn refer<'a>(
    purpose: &Purpose<'a>,
    line: Line,
    anchor: &Anchor,
    offset: u64,
    context: &mut Context<'a>,
) -> Option<&'a Expression>
    ensures rest { IfNone result (to_run_of context.new ≡ to_run_in context.old.frames.items (purposed purpose.now (Refer line.module line.line (anchor_of anchor.now) offset NoSubscripts))) }
    ensures settled { IfNone result (IsSettled context.new.focus context.new.frames.items) }
    ensures first { IfSome result (λ x. to_run_in context.new.frames.items (Expr (expression_of x.now)) ≡ to_run_in context.old.frames.items (purposed purpose.now (Refer line.module line.line (anchor_of anchor.now) offset NoSubscripts))) }
    ensures depth { (n : ℕ) → IfSome result (λ x. suc (depth (expression_of x.now)) ≤ n) }
{
    match anchor {
        Anchor::Behind(base) => ready(Redex::Base(*purpose, line, *base, offset), context),
        Anchor::InObject(object, start, size) => {
            let origin = Origin::InObject(*object, *start, *size);
            ready(Redex::Refer(*purpose, line, origin, offset), context)
        }
        Anchor::OnScreen(page, start, size) => {
            let origin = Origin::OnScreen(*page, *start, *size);
            ready(Redex::Refer(*purpose, line, origin, offset), context)
        }
    }
}

// The offset once a subscript has its value, modulo 65,536.
fn indexed(offset: u64, stride: u64, index: u16) -> u64
    ensures { result ≡ (offset + stride * index) % 65536 }
{
    offset.wrapping_add(stride.wrapping_mul(u64::from(index))) % 0x1_0000
}

// A reference begins that has these subscripts left.
fn subscripts_start<'a>(
    purpose: &Purpose<'a>,
    line: Line,
    anchor: &Anchor,
    offset: u64,
    subscripts: &'a [Subscript],
    context: &mut Context<'a>,
) -> Option<&'a Expression>
    requires room { vec_len context.old.frames < vec_capacity context.old.frames }
    ensures rest { IfNone result (to_run_of context.new ≡ to_run_in context.old.frames.items (purposed purpose.now (Refer line.module line.line (anchor_of anchor.now) offset (subscripts_of subscripts.now)))) }
    ensures settled { IfNone result (IsSettled context.new.focus context.new.frames.items) }
    ensures first { IfSome result (λ x. to_run_in context.new.frames.items (Expr (expression_of x.now)) ≡ to_run_in context.old.frames.items (purposed purpose.now (Refer line.module line.line (anchor_of anchor.now) offset (subscripts_of subscripts.now)))) }
    ensures depth { IfSome result (λ x. suc (depth (expression_of x.now)) ≤ subscripts_depth (subscripts_of subscripts.now)) }
{
    match subscripts.split_first() {
        None => refer(purpose, line, anchor, offset, context),
        Some((s, more)) => within(
            Hole::Subscript(*purpose, line, *anchor, offset, s.stride, more),
            &s.index,
            context,
        ),
    }
}

// A reference begins.
fn reference_start<'a>(
    r: &'a Reference,
    purpose: &Purpose<'a>,
    context: &mut Context<'a>,
) -> Option<&'a Expression>
    requires room { vec_len context.old.frames < vec_capacity context.old.frames }
    ensures rest { IfNone result (to_run_of context.new ≡ to_run_in context.old.frames.items (purposed purpose.now (reference_of r.now))) }
    ensures settled { IfNone result (IsSettled context.new.focus context.new.frames.items) }
    ensures first { IfSome result (λ x. to_run_in context.new.frames.items (Expr (expression_of x.now)) ≡ to_run_in context.old.frames.items (purposed purpose.now (reference_of r.now))) }
    ensures depth { IfSome result (λ x. suc (depth (expression_of x.now)) ≤ reference_depth (reference_of r.now)) }
{
    trees_have_their_lists();
    subscripts_start(purpose, r.line, &r.anchor, r.offset, &r.subscripts, context)
}

/// The part that is rewritten next, where an expression is one by itself: most that begin are.
pub fn leaf<'a>(e: &'a Expression) -> Option<Redex<'a>>
    ensures { IfSome result (λ r. redex_part r ≡ Expr (expression_of e.now)) }
{
    match e {
        Expression::Constant(k) => Some(Redex::Constant(*k)),
        Expression::Plain(width, place) => Some(Redex::Plain(*width, *place)),
        Expression::Variable(_, _)
        | Expression::Location(_)
        | Expression::Unary(_, _, _)
        | Expression::Chain(_, _)
        | Expression::Embedded(_, _)
        | Expression::Input(_, _)
        | Expression::Call(_, _) => None,
    }
}

// A call of a procedure begins, with its arguments.
#[tactic(auto, using(crate::proofs::Plug::to_run_last))]
fn call_start<'a>(
    alloc: Global,
    procedure: usize,
    arguments: &'a [Expression],
    context: &mut Context<'a>,
) -> Option<&'a Expression>
    requires room { vec_len context.old.frames < vec_capacity context.old.frames }
    ensures rest { IfNone result (to_run_of context.new ≡ to_run_in context.old.frames.items (Expr (Call procedure (expressions_of arguments.now)))) }
    ensures settled { IfNone result (IsSettled context.new.focus context.new.frames.items) }
    ensures first { IfSome result (λ x. to_run_in context.new.frames.items (Expr (expression_of x.now)) ≡ to_run_in context.old.frames.items (Expr (Call procedure (expressions_of arguments.now)))) }
    ensures depth { IfSome result (λ x. suc (depth (expression_of x.now)) ≤ arguments_depth (expressions_of arguments.now)) }
{
    match arguments.split_first() {
        None => {
            context.focus = Focus::Call(procedure, Vec::new(alloc));
            None
        }
        Some((e, more)) => {
            context
                .frames
                .push_reserved(Frame::Argument(procedure, Vec::new(alloc), more));
            Some(e)
        }
    }
}

/// An expression begins: the expression that comes first of it, if one does.
pub fn expression_start<'a>(
    e: &'a Expression,
    alloc: Global,
    context: &mut Context<'a>,
) -> Option<&'a Expression>
    requires room { vec_len context.old.frames < vec_capacity context.old.frames }
    ensures rest { IfNone result (to_run_of context.new ≡ to_run_in context.old.frames.items (Expr (expression_of e.now))) }
    ensures settled { IfNone result (IsSettled context.new.focus context.new.frames.items) }
    ensures first { IfSome result (λ x. to_run_in context.new.frames.items (Expr (expression_of x.now)) ≡ to_run_in context.old.frames.items (Expr (expression_of e.now))) }
    ensures depth { IfSome result (λ x. suc (depth (expression_of x.now)) ≤ depth (expression_of e.now)) }
{
    trees_have_their_lists();
    match e {
        Expression::Constant(k) => ready(Redex::Constant(*k), context),
        Expression::Plain(width, place) => ready(Redex::Plain(*width, *place), context),
        Expression::Variable(width, r) => reference_start(r, &Purpose::Read(*width), context),
        Expression::Location(r) => reference_start(r, &Purpose::Locate, context),
        Expression::Unary(operation, width, operand) => {
            within(Hole::Unary(*operation, *width), operand, context)
        }
        Expression::Chain(first, operations) => match operations.split_first() {
            None => expression_start(first, alloc, context),
            Some((operation, more)) => within(Hole::Left(operation, more), first, context),
        },
        Expression::Embedded(target, value) => within(Hole::Embedded(target), value, context),
        Expression::Input(width, port) => within(Hole::Input(*width), port, context),
        Expression::Call(procedure, arguments) => {
            call_start(alloc, *procedure, arguments, context)
        }
    }
}

/// A target begins, to which a value goes: the expression that comes first of it, if one does.
#[inline(never)]
pub fn target_start<'a>(
    target: &'a Target,
    destination: Destination<'a>,
    context: &mut Context<'a>,
) -> Option<&'a Expression>
    requires room { vec_len context.old.frames < vec_capacity context.old.frames }
    ensures rest { IfNone result (to_run_of context.new ≡ to_run_in context.old.frames.items (aimed destination.entry (target_of target.now))) }
    ensures settled { IfNone result (IsSettled context.new.focus context.new.frames.items) }
    ensures first { IfSome result (λ x. to_run_in context.new.frames.items (Expr (expression_of x.now)) ≡ to_run_in context.old.frames.items (aimed destination.entry (target_of target.now))) }
{
    match target {
        Target::Plain(width, place) => ready(Redex::Store(*width, *place, destination), context),
        Target::Variable(width, r) => {
            reference_start(r, &Purpose::Store(*width, destination), context)
        }
        Target::Port(width, port) => within(Hole::Port(*width, destination), port, context),
    }
}

// A CALL begins.
#[tactic(auto, using(crate::proofs::Plug::to_run_last))]
fn evaluation_start<'a>(call: &'a Expression, context: &mut Context<'a>) -> Option<&'a Expression>
    requires room { vec_len context.old.frames < vec_capacity context.old.frames }
    ensures rest { IfNone result (to_run_of context.new ≡ to_run_in context.old.frames.items (ToRun (Then (Evaluate (expression_of call.now)) End))) }
    ensures settled { IfNone result (IsSettled context.new.focus context.new.frames.items) }
    ensures first { IfSome result (λ x. to_run_in context.new.frames.items (Expr (expression_of x.now)) ≡ to_run_in context.old.frames.items (ToRun (Then (Evaluate (expression_of call.now)) End))) }
{
    context.frames.push_reserved(Frame::Evaluate);
    Some(call)
}

/// A statement begins: the expression that comes first of it, if one does.
pub fn statement_start<'a>(s: &'a Statement, context: &mut Context<'a>) -> Option<&'a Expression>
    requires room { vec_len context.old.frames < vec_capacity context.old.frames }
    ensures rest { IfNone result (to_run_of context.new ≡ to_run_in context.old.frames.items (ToRun (Then (statement_of s.now) End))) }
    ensures settled { IfNone result (IsSettled context.new.focus context.new.frames.items) }
    ensures first { IfSome result (λ x. to_run_in context.new.frames.items (Expr (expression_of x.now)) ≡ to_run_in context.old.frames.items (ToRun (Then (statement_of s.now) End))) }
{
    trees_have_their_lists();
    match s {
        Statement::Empty => ready(Redex::Empty, context),
        Statement::Assign(target, others, value) => {
            within(Hole::Assign(target, others), value, context)
        }
        Statement::Evaluate(call) => evaluation_start(call, context),
        Statement::Return => ready(Redex::Return, context),
        Statement::ReturnValue(width, value) => within(Hole::ReturnValue(*width), value, context),
        Statement::Enable => ready(Redex::Enable, context),
        Statement::Disable => ready(Redex::Disable, context),
        Statement::Halt => ready(Redex::Halt, context),
        Statement::If(condition, arm, other) => within(Hole::If(arm, other), condition, context),
        Statement::Block(body) => ready(Redex::Block(body), context),
        Statement::While(condition, body) => {
            within(Hole::While(condition, body), condition, context)
        }
        Statement::Case(value, cases) => within(Hole::Case(cases), value, context),
        Statement::Iterate(first, rounds) => within(Hole::Iterate(rounds), first, context),
    }
}

// Both operands are known.
#[tactic(auto, using(crate::proofs::Plug::to_run_last))]
fn operate<'a>(
    x: u16,
    y: u16,
    operation: &'a Operation,
    more: &'a [Operation],
    context: &mut Context<'a>,
) -> Option<&'a Expression>
    requires room { vec_len context.old.frames < vec_capacity context.old.frames }
    ensures rest { IfNone result (to_run_of context.new ≡ to_run_in context.old.frames.items (Expr (chained (Binary operation.now.line.module operation.now.line.line operation.now.operation operation.now.width (Known x) (Known y)) more.now))) }
    ensures settled { IfNone result (IsSettled context.new.focus context.new.frames.items) }
    ensures first { IfSome result (λ e. to_run_in context.new.frames.items (Expr (expression_of e.now)) ≡ to_run_in context.old.frames.items (Expr (chained (Binary operation.now.line.module operation.now.line.line operation.now.operation operation.now.width (Known x) (Known y)) more.now))) }
{
    context.focus = Focus::Ready(Redex::Binary(
        operation.line,
        operation.operation,
        operation.width,
        x,
        y,
    ));
    match more.split_first() {
        None => None,
        Some((next, others)) => {
            context
                .frames
                .push_reserved(Frame::Hole(Hole::Left(next, others)));
            None
        }
    }
}

/// The bound of a DO begins, with which the index is compared: the expression that comes first of it.
pub fn bound_start<'a>(
    index: u16,
    rounds: &'a Loop,
    context: &mut Context<'a>,
) -> Option<&'a Expression>
    requires room { vec_len context.old.frames < vec_capacity context.old.frames }
    ensures rest { IfNone result (to_run_of context.new ≡ to_run_in context.old.frames.items (ToRun (Then (Compare index (bound_of (loop_of rounds.now)) (loop_of rounds.now)) End))) }
    ensures settled { IfNone result (IsSettled context.new.focus context.new.frames.items) }
    ensures first { IfSome result (λ x. to_run_in context.new.frames.items (Expr (expression_of x.now)) ≡ to_run_in context.old.frames.items (ToRun (Then (Compare index (bound_of (loop_of rounds.now)) (loop_of rounds.now)) End))) }
{
    within(Hole::Comparing(index, rounds), &rounds.bound, context)
}

impl<'a> Later<'a> {
    /// What comes after statements begins: the expression that comes first of it, if one does.
    pub fn start(self, context: &mut Context<'a>) -> Option<&'a Expression>
        requires room { vec_len context.old.frames < vec_capacity context.old.frames }
        ensures rest { IfNone result (to_run_of context.new ≡ to_run_in context.old.frames.items (ToRun (later_of self.entry))) }
        ensures settled { IfNone result (IsSettled context.new.focus context.new.frames.items) }
        ensures first { IfSome result (λ x. to_run_in context.new.frames.items (Expr (expression_of x.now)) ≡ to_run_in context.old.frames.items (ToRun (later_of self.entry))) }
    {
        match self {
            Later::Leaving => ready(Redex::Leaving, context),
            Later::While(condition, body) => {
                within(Hole::While(condition, body), condition, context)
            }
            Later::Next(rounds) => within(Hole::Stepping(rounds), &rounds.step, context),
        }
    }
}

impl<'a> Hole<'a> {
    /// What waited for a value has it: the expression that comes first then, if one does.
    #[inline(never)]
    pub fn filled(&self, v: u16, context: &mut Context<'a>) -> Option<&'a Expression>
        requires room { vec_len context.old.frames < vec_capacity context.old.frames }
        ensures rest { IfNone result (to_run_of context.new ≡ to_run_in context.old.frames.items (in_hole self.now (Expr (Known v)))) }
        ensures settled { IfNone result (IsSettled context.new.focus context.new.frames.items) }
        ensures first { IfSome result (λ x. to_run_in context.new.frames.items (Expr (expression_of x.now)) ≡ to_run_in context.old.frames.items (in_hole self.now (Expr (Known v)))) }
    {
        match self {
            Hole::Unary(operation, width) => ready(Redex::Unary(*operation, *width, v), context),
            Hole::Left(operation, more) => {
                within(Hole::Right(v, operation, more), &operation.operand, context)
            }
            Hole::Right(x, operation, more) => operate(*x, v, operation, more, context),
            Hole::Embedded(target) => target_start(target, Destination::Embedded(v), context),
            Hole::Input(width) => ready(Redex::Input(*width, v), context),
            Hole::Subscript(purpose, line, anchor, offset, stride, more) => {
                let offset = indexed(*offset, *stride, v);
                subscripts_start(purpose, *line, anchor, offset, more, context)
            }
            Hole::Port(width, destination) => {
                ready(Redex::Output(*width, v, *destination), context)
            }
            Hole::Assign(target, others) => {
                target_start(target, Destination::Assigned(v, others), context)
            }
            Hole::ReturnValue(width) => ready(Redex::ReturnValue(*width, v), context),
            Hole::If(arm, other) => ready(Redex::If(v, arm, other), context),
            Hole::While(condition, body) => ready(Redex::While(v, condition, body), context),
            Hole::Case(cases) => ready(Redex::Case(v, cases), context),
            Hole::Iterate(rounds) => ready(Redex::Loop(Phase::Begin(v), rounds), context),
            Hole::Comparing(index, rounds) => {
                ready(Redex::Loop(Phase::Comparing(*index, v), rounds), context)
            }
            Hole::Stepping(rounds) => ready(Redex::Loop(Phase::Stepping(v), rounds), context),
        }
    }
}
