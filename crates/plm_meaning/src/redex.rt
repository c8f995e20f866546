//! The step of the part that is rewritten next: the access, the switch of interrupts or the silent step that it makes, and what
//! stands in its place afterwards.
//!
//! The step goes where the caller has room for it, and what it leaves goes into the focus: as answers both would be cleared, filled and
//! copied each time.

ghost use Rattle.std.specs.Prelude.{◌≡◌, ℕ, List, ◌+◌, ◌<◌, Bool, if◌then◌else◌, Some, None, map, slice_get, drop, length};
ghost use Rattle.word86.specs.Place.{where_of};
ghost use Rattle.word86.specs.Access.{Write, Access as Accessed, values};
ghost use Rattle.word86.specs.Action.{Touch, Over, map_action, Silent as Quiet};
ghost use Rattle.word86.specs.Arithmetic.{low};
ghost use Rattle.plm_type.specs.Rest.{Refer, NoSubscripts, Round, Statements, While, Then, End, Stepping as Steps, Main, Handler};
ghost use Rattle.plm_type.specs.Next.{is_odd, operated, next as plm_next, next_case, next_passing, next_statements, has_passed, leaves, counting_of, behind, rounds_of, step_of, parameters_of, body_of};
ghost use Rattle.plm_type.specs.View.{scalar_of, expression_of, statements_of, loop_of, procedures_of};
ghost use Rattle.plm_meaning.specs.Context.{Part, Expr, ToRun, purposed, origin_of, part_of, phase_of, redex_part, to_run_in, to_run_of};
ghost use Rattle.plm_meaning.specs.Inner.Context.{IsSettled};
ghost use Rattle.plm_meaning.specs.Inner.Redex.{offsets_of, sizes_of, procedures_in, next_part, stored, left_of, referred, value_left, loop_left, redex_left, call_left, left, acting, context_action, value_in, IsStep, SaysEnd, HasHalted, FitsIn};

use crate::access::Origin;
use crate::around::Surroundings;
use crate::context::{Context, Destination, Focus, Later, Phase, Purpose, Redex};
use plm_type::{Counting, Expression, Line, Loop, Place, Scalar, Statement};
use std::mem;
use word86::{Access, Width, signed16};

/// What a context does next. What is left then is said by its focus.
#[derive(Clone, Copy)]
pub enum Action {
    Silent,
    Touch(Access),
    Enable,
    Disable,
    Halt,
    /// At its end.
    Ended,
    /// By a RETURN.
    Returned,
    /// A Bad step.
    Bad(Line),
}

impl<'a> Destination<'a> {
    // The value that is stored.
    fn value(self) -> u16
        ensures { result ≡ value_in self.entry }
    {
        match self {
            Destination::Assigned(v, _) | Destination::Embedded(v) => v,
        }
    }

    // Leaves what comes once it is stored.
    fn stored(&self, focus: &mut Focus<'a>)
        ensures { part_of focus.new ≡ stored self.now }
    {
        match self {
            Destination::Embedded(v) => *focus = Focus::Value(*v),
            Destination::Assigned(v, targets) => match targets.split_first() {
                None => *focus = Focus::Statements(&[]),
                Some((target, others)) => {
                    *focus = Focus::Aim(target, Destination::Assigned(*v, others));
                }
            },
        }
    }
}

// A store of a value of which the low bits are kept.
fn write(width: Width, place: Place, v: u32) -> Action
    ensures write { result ≡ Action.Touch (Access.Write width place (low width v)) }
    ensures going { IsStep result }
{
    Action::Touch(Access::Write(width, place, width.low(v)))
}

// A store of a destination's value.
fn store(width: Width, place: Place, destination: Destination<'_>) -> Action
    ensures write { result ≡ Action.Touch (Access.Write width place (low width (value_in destination.entry))) }
    ensures going { IsStep result }
{
    write(width, place, u32::from(destination.value()))
}

fn is_odd(v: u16) -> bool
    ensures { result ≡ is_odd v }
{
    v % 2 == 1
}

// A reference whose address is known.
fn refer(
    around: &Surroundings<'_>,
    purpose: &Purpose<'_>,
    line: Line,
    origin: Origin,
    offset: u64,
    next: &mut Action,
)
    ensures step { acting next.new (referred around.now purpose.now origin offset) ≡ next_part around.now (purposed purpose.now (Refer line.module line.line (origin_of origin) offset NoSubscripts)) }
    ensures going { IsStep next.new }
{
    let address = around.address(origin, offset);
    match purpose {
        Purpose::Locate => *next = Action::Silent,
        Purpose::Read(width) => match around.place(*width, origin, address) {
            None => *next = Action::Bad(line),
            Some(place) => *next = Action::Touch(Access::Read(*width, place)),
        },
        Purpose::Store(width, destination) => match around.place(*width, origin, address) {
            None => *next = Action::Bad(line),
            Some(place) => *next = store(*width, place, *destination),
        },
    }
}

// Leaves what a reference leaves.
fn referred<'a>(
    around: &Surroundings<'_>,
    purpose: &Purpose<'a>,
    origin: Origin,
    offset: u64,
    answer: u16,
    focus: &mut Focus<'a>,
)
    ensures { part_of focus.new ≡ referred around.now purpose.now origin offset answer }
{
    match purpose {
        Purpose::Read(_) => *focus = Focus::Value(answer),
        Purpose::Locate => *focus = Focus::Value(around.address(origin, offset)),
        Purpose::Store(_, destination) => destination.stored(focus),
    }
}

// A DO CASE: a case is dropped, or taken.
fn case<'a>(v: u16, cases: &'a [Box<Statement>]) -> Focus<'a>
    ensures { Quiet (part_of result) ≡ map_action ToRun (next_case (Some v) (statements_of cases.now) End Over) }
{
    match cases.split_first() {
        None => Focus::Statements(&[]),
        Some((case, others)) => {
            if v == 0 {
                Focus::Statement(case)
            } else {
                Focus::Ready(Redex::Case(v - 1, others))
            }
        }
    }
}

// An arm of IF.
#[tactic(auto, using(crate::proofs::Plug::behind_end))]
fn arm<'a>(v: u16, arm: &'a [Box<Statement>], other: &'a [Box<Statement>]) -> Focus<'a>
    ensures { part_of result ≡ ToRun (behind (if is_odd v then statements_of arm.now else statements_of other.now) End) }
{
    if is_odd(v) {
        Focus::Statements(arm)
    } else {
        Focus::Statements(other)
    }
}

// A DO WHILE after its test.
fn while_loop<'a>(v: u16, condition: &'a Expression, body: &'a [Box<Statement>]) -> Focus<'a>
    ensures { part_of result ≡ ToRun (if is_odd v then behind (statements_of body.now) (Then (While (expression_of condition.now) (expression_of condition.now) (statements_of body.now)) End) else End) }
{
    if is_odd(v) {
        Focus::Within(Later::While(condition, body), body)
    } else {
        Focus::Statements(&[])
    }
}

// Whether an index is behind the bound.
fn has_passed(counting: Counting, index: u16, bound: u16) -> bool
    ensures { result ≡ has_passed counting index bound }
{
    match counting {
        Counting::Up => bound < index,
        Counting::SignedUp => signed16(bound) < signed16(index),
        Counting::SignedDown => signed16(index) < signed16(bound),
    }
}

// A DO with an index, after the comparison with its bound.
fn compare<'a>(index: u16, bound: u16, rounds: &'a Loop) -> Focus<'a>
    ensures { part_of result ≡ ToRun (if has_passed (counting_of (loop_of rounds.now)) index bound then End else behind (rounds_of (loop_of rounds.now)) (Then (Steps (step_of (loop_of rounds.now)) (loop_of rounds.now)) End)) }
{
    if has_passed(rounds.counting, index, bound) {
        Focus::Statements(&[])
    } else {
        Focus::Within(Later::Next(rounds), &rounds.body)
    }
}

// How many values there are of a width.
fn values(width: Width) -> u32
    ensures { result ≡ values width }
{
    match width {
        Width::Byte => 0x100,
        Width::Word => 0x1_0000,
    }
}

// Whether an index and a step have a sum outside the range of the index.
fn leaves(counting: Counting, width: Width, index: u16, step: u16) -> bool
    ensures { result ≡ leaves counting width index step }
{
    match counting {
        Counting::Up => u32::from(index) + u32::from(step) >= values(width),
        Counting::SignedUp | Counting::SignedDown => {
            let sum = i32::from(signed16(index)) + i32::from(signed16(step));
            sum < -0x8000 || sum >= 0x8000
        }
    }
}

// A DO with an index, after the store of its sum: the next round, unless the sum left the range of the index.
fn end_round<'a>(leaves: bool, rounds: &'a Loop) -> Focus<'a>
    ensures { part_of result ≡ ToRun (if leaves then End else Then (Round (loop_of rounds.now)) End) }
{
    if leaves {
        Focus::Statements(&[])
    } else {
        Focus::Ready(Redex::Loop(Phase::Round, rounds))
    }
}

// The step of an operator.
fn operate(line: Line, value: Option<u16>, next: &mut Action)
    ensures step { acting next.new (λ v. value_left value) ≡ map_action Expr (operated line.module line.line value) }
    ensures going { IsStep next.new }
{
    match value {
        None => *next = Action::Bad(line),
        Some(_) => *next = Action::Silent,
    }
}

// What an operator leaves.
fn operated<'a>(value: Option<u16>) -> Focus<'a>
    ensures { part_of result ≡ value_left value }
{
    match value {
        None => Focus::Statements(&[]),
        Some(v) => Focus::Value(v),
    }
}

// The step of a DO with an index.
fn loop_step(phase: Phase, rounds: &Loop, next: &mut Action)
    ensures step { (s : Surroundings) → acting next.new (loop_left s phase rounds.now) ≡ next_part s (ToRun (Then (phase_of phase (loop_of rounds.now)) End)) }
    ensures going { IsStep next.new }
{
    let width = rounds.index.width;
    let place = rounds.index.place;
    match phase {
        Phase::Begin(v) => *next = write(width, place, u32::from(v)),
        Phase::Storing(sum, _) => *next = write(width, place, sum),
        Phase::Round | Phase::Stepping(_) => *next = Action::Touch(Access::Read(width, place)),
        Phase::Comparing(_, _) | Phase::Adding(_, _) | Phase::Ending(_) => *next = Action::Silent,
    }
}

// Leaves what the step of a DO with an index leaves.
fn round_left<'a>(phase: Phase, rounds: &'a Loop, answer: u16, focus: &mut Focus<'a>)
    ensures { (s : Surroundings) → part_of focus.new ≡ loop_left s phase rounds.now answer }
{
    let width = rounds.index.width;
    match phase {
        Phase::Begin(_) => *focus = Focus::Ready(Redex::Loop(Phase::Round, rounds)),
        Phase::Round => *focus = Focus::Bound(answer, rounds),
        Phase::Comparing(index, bound) => *focus = compare(index, bound, rounds),
        Phase::Stepping(step) => {
            *focus = Focus::Ready(Redex::Loop(Phase::Adding(answer, step), rounds));
        }
        Phase::Adding(index, step) => {
            let sum = u32::from(index) + u32::from(step);
            let leaves = leaves(rounds.counting, width, index, step);
            *focus = Focus::Ready(Redex::Loop(Phase::Storing(sum, leaves), rounds));
        }
        Phase::Storing(_, leaves) => {
            *focus = Focus::Ready(Redex::Loop(Phase::Ending(leaves), rounds));
        }
        Phase::Ending(leaves) => *focus = end_round(leaves, rounds),
    }
}

// The step of the part that is rewritten next.
fn redex_step(around: &Surroundings<'_>, redex: &Redex<'_>, next: &mut Action)
    ensures step { acting next.new (redex_left around.now redex.now) ≡ next_part around.now (redex_part redex.now) }
    ensures going { IsStep next.new }
{
    match redex {
        Redex::Plain(width, place) => *next = Action::Touch(Access::Read(*width, *place)),
        Redex::Base(_, _, base, _) => *next = Action::Touch(Access::Read(Width::Word, *base)),
        Redex::Refer(purpose, line, origin, offset) => {
            refer(around, purpose, *line, *origin, *offset, next);
        }
        Redex::Binary(line, operation, width, x, y) => {
            operate(*line, operation.value(*width, *x, *y), next);
        }
        Redex::Store(width, place, destination) => *next = store(*width, *place, *destination),
        Redex::Input(width, port) => *next = Action::Touch(Access::Input(*width, *port)),
        Redex::Output(width, port, destination) => {
            let v = width.low(u32::from(destination.value()));
            *next = Action::Touch(Access::Output(*width, *port, v));
        }
        Redex::Enable => *next = Action::Enable,
        Redex::Disable => *next = Action::Disable,
        Redex::Halt => *next = Action::Halt,
        Redex::Loop(phase, rounds) => loop_step(*phase, rounds, next),
        Redex::Constant(_)
        | Redex::Unary(_, _, _)
        | Redex::Ended
        | Redex::Given(_)
        | Redex::Empty
        | Redex::Return
        | Redex::ReturnValue(_, _)
        | Redex::If(_, _, _)
        | Redex::Block(_)
        | Redex::Leaving
        | Redex::While(_, _, _)
        | Redex::Case(_, _) => *next = Action::Silent,
    }
}

// Leaves what the step of the part that is rewritten next leaves, once its access has this answer.
fn redex_left<'a>(around: &Surroundings<'_>, redex: &Redex<'a>, answer: u16, focus: &mut Focus<'a>)
    ensures { part_of focus.new ≡ redex_left around.now redex.now answer }
{
    match redex {
        Redex::Constant(k) => *focus = Focus::Value(*k),
        Redex::Plain(_, _) | Redex::Input(_, _) => *focus = Focus::Value(answer),
        Redex::Base(purpose, line, _, offset) => {
            let origin = Origin::There(answer);
            *focus = Focus::Ready(Redex::Refer(*purpose, *line, origin, *offset));
        }
        Redex::Refer(purpose, _, origin, offset) => {
            referred(around, purpose, *origin, *offset, answer, focus);
        }
        Redex::Unary(operation, width, v) => *focus = Focus::Value(operation.value(*width, *v)),
        Redex::Binary(_, operation, width, x, y) => {
            *focus = operated(operation.value(*width, *x, *y));
        }
        Redex::Store(_, _, destination) | Redex::Output(_, _, destination) => {
            destination.stored(focus);
        }
        Redex::Ended => *focus = Focus::Value(0),
        Redex::Given(v) => *focus = Focus::Value(*v),
        Redex::Empty | Redex::Leaving | Redex::Enable | Redex::Disable | Redex::Halt => {
            *focus = Focus::Statements(&[]);
        }
        Redex::Return => *focus = Focus::Returned(0),
        Redex::ReturnValue(width, v) => *focus = Focus::Returned(width.low(u32::from(*v))),
        Redex::If(v, taken, other) => *focus = arm(*v, taken, other),
        Redex::Block(body) => *focus = Focus::Within(Later::Leaving, body),
        Redex::While(v, condition, body) => *focus = while_loop(*v, condition, body),
        Redex::Case(v, cases) => *focus = case(*v, cases),
        Redex::Loop(phase, rounds) => round_left(*phase, rounds, answer, focus),
    }
}

// The next parameter gets its value, or the body begins.
fn pass(parameters: &[Scalar], values: &[u16], done: usize, next: &mut Action)
    ensures step { (n : ℕ) (body : Statements) → let passing = map_action Expr (next_passing n (map scalar_of parameters.now) (drop done values.now) body) in acting next.new (left_of passing) ≡ passing }
    ensures going { IsStep next.new }
{
    match parameters.split_first() {
        None => *next = Action::Silent,
        Some((x, _)) => match values.get(done) {
            None => *next = Action::Silent,
            Some(v) => *next = write(x.width, x.place, u32::from(*v)),
        },
    }
}

// What is left once a parameter has its value, or as the body begins.
fn passed<'a>(
    procedure: usize,
    parameters: &'a [Scalar],
    values: Vec<u16>,
    done: usize,
    body: &'a [Box<Statement>],
) -> Focus<'a>
    ensures { (answer : ℕ) → part_of result ≡ left_of (map_action Expr (next_passing procedure (map scalar_of parameters.now) (drop done values.items) (statements_of body.now))) answer }
{
    match parameters.split_first() {
        None => Focus::Entering(body),
        Some((_, others)) => match values.get(done) {
            None => Focus::Entering(body),
            Some(_) => Focus::Passing(procedure, others, values, done.saturating_add(1)),
        },
    }
}

/// What a settled context does next.
#[tactic(auto, using(crate::proofs::Steps::whole_step))]
pub fn next_action(context: &Context<'_>, around: &Surroundings<'_>, next: &mut Action)
    requires { IsSettled context.now.focus context.now.frames.items }
    ensures action { context_action around.now context.now next.new ≡ next_statements (offsets_of around.now) (sizes_of around.now) (procedures_in around.now) (to_run_of context.now) }
    ensures end { SaysEnd next.new (to_run_of context.now) }
    ensures halts { HasHalted next.new context.now.frames.items }
    ensures fits { FitsIn next.new }
{
    match &context.focus {
        Focus::Ready(redex) => redex_step(around, redex, next),
        Focus::Call(p, values) => pass(around.procedure(*p).0, values, 0, next),
        Focus::Passing(_, parameters, values, done) => pass(parameters, values, *done, next),
        Focus::Returned(_) => *next = Action::Returned,
        _ => *next = Action::Ended,
    }
}

/// What main does next, once it is settled: at its end it halts again and again.
#[inline(always)]
pub fn main_action(context: &Context<'_>, around: &Surroundings<'_>, next: &mut Action)
    requires { IsSettled context.now.focus context.now.frames.items }
    ensures action { plm_next (offsets_of around.now) (sizes_of around.now) (procedures_in around.now) (Main (to_run_of context.now)) ≡ map_action Main (context_action around.now context.now next.new) }
    ensures fits { FitsIn next.new }
{
    next_action(context, around, next);
    if let Action::Ended = next {
        *next = Action::Halt;
    }
}

/// What an interrupt procedure does next, once it is settled: it is used up at its end, or by RETURN.
pub fn handler_action(context: &Context<'_>, around: &Surroundings<'_>, next: &mut Action)
    requires { IsSettled context.now.focus context.now.frames.items }
    ensures action { plm_next (offsets_of around.now) (sizes_of around.now) (procedures_in around.now) (Handler (to_run_of context.now)) ≡ map_action Handler (context_action around.now context.now next.new) }
    ensures fits { FitsIn next.new }
{
    next_action(context, around, next);
}

// What the step of a call leaves of it: a parameter has its value, or the body begins.
fn call_left<'a>(focus: Focus<'a>, around: &Surroundings<'a>) -> Focus<'a>
    ensures { (answer : ℕ) → part_of result ≡ call_left around.now focus.entry answer }
{
    match focus {
        Focus::Call(p, values) => {
            let (parameters, body) = around.procedure(p);
            passed(p, parameters, values, 0, body)
        }
        Focus::Passing(p, parameters, values, done) => {
            passed(p, parameters, values, done, around.procedure(p).1)
        }
        Focus::Expression(_)
        | Focus::Value(_)
        | Focus::Statements(_)
        | Focus::Statement(_)
        | Focus::Returned(_)
        | Focus::Within(_, _)
        | Focus::Entering(_)
        | Focus::Bound(_, _)
        | Focus::Aim(_, _)
        | Focus::Ready(_) => Focus::Statements(&[]),
    }
}

/// Goes on with the answer of an access; a silent step needs none.
pub fn go_on<'a>(context: &mut Context<'a>, around: &Surroundings<'a>, answer: u16)
    ensures rest { to_run_of context.new ≡ to_run_in context.old.frames.items (left around.now context.old.focus answer) }
{
    if let Focus::Ready(redex) = &context.focus {
        let redex = *redex;
        redex_left(around, &redex, answer, &mut context.focus);
        return;
    }
    let focus = mem::replace(&mut context.focus, Focus::Value(answer));
    context.focus = call_left(focus, around);
}
