//! The code of statements.

ghost use Rattle.std.specs.Prelude.{◌≡◌, ◌++◌, ◌+◌, ◌∷◌, [], length, map, vec_items, IfOk, OnOk, IsOkUnless};
ghost use Rattle.icode.specs.declared.instruction.Instruction.TheVariants as op;
ghost use Rattle.plm_type.specs.View.{statement_of, statements_of, expression_of, loop_of, procedures_of};
ghost use Rattle.plm_type.specs.Rest.{While, Case, Iterate};
ghost use Rattle.lower.specs.Expressions.{expression_code, dropped_code};
ghost use Rattle.lower.specs.Conditions.{condition_code, test_of};
ghost use Rattle.lower.specs.LowBytes.{returned_code};
ghost use Rattle.lower.specs.Statements.{returning, narrowed, statement_code, statements_code, cases_code, over, failing, choosing, ending, routine_code};
ghost use Rattle.lower.specs.Inner.Statements.{branching};

use crate::assignments::assignment;
use crate::callees::Callees;
use crate::cases::switch;
use crate::conditions::condition;
use crate::expressions::{dropped, expression};
use crate::kind::Kind;
use crate::loops::{iterate, while_loop};
use crate::low_bytes::returned;
use crate::put::{ROOM, add, distance, put};
use crate::silence::{all_stay, are_silent, exit_before, with_code};
use icode::Instruction;
use plm_type::{Expression, Loop, Statement, trees_have_their_lists};
use std::alloc::Global;
use word86::{Fault, UnaryOperation, Width};

type Instructions = Vec<Instruction>;

/// What lowering statements needs: room, what can be called, and what the routine is.
#[derive(Clone, Copy)]
pub struct Around<'p> {
    pub alloc: Global,
    pub callees: Callees<'p>,
    pub kind: Kind,
}

// The code of RETURN.
fn leave(code: &mut Instructions, kind: Kind) -> Result<(), Fault>
    ensures code { OnOk result (code.new.items ≡ code.old.items ++ returning kind) }
    ensures memory { IsOkUnless result Fault.Memory }
{
    match kind {
        Kind::OfMain => Ok(()),
        Kind::Called => put(code, Instruction::Leave),
        Kind::Giving => add(code, &[Instruction::Constant(0), Instruction::Leave]),
        Kind::Serving => put(code, Instruction::Finish),
    }
}

// The end of a routine: main halts there again and again.
fn end(code: &mut Instructions, kind: Kind) -> Result<(), Fault>
    ensures code { OnOk result (code.new.items ≡ code.old.items ++ ending kind) }
    ensures memory { IsOkUnless result Fault.Memory }
{
    match kind {
        Kind::OfMain => add(code, &[Instruction::Halt, Instruction::Back(2)]),
        Kind::Called => leave(code, kind),
        Kind::Giving => leave(code, kind),
        Kind::Serving => leave(code, kind),
    }
}

// A value of this width is in the accumulator.
fn narrow(code: &mut Instructions, width: Width) -> Result<(), Fault>
    ensures code { OnOk result (code.new.items ≡ code.old.items ++ narrowed width) }
    ensures memory { IsOkUnless result Fault.Memory }
{
    match width {
        Width::Byte => put(code, Instruction::Unary(UnaryOperation::Low, Width::Word)),
        Width::Word => Ok(()),
    }
}

// A jump over what is done otherwise, if anything is.
fn pass_over(
    code: &mut Instructions,
    silent: bool,
    otherwise: &[Instruction],
    exit: usize,
) -> Result<(), Fault>
    ensures code { OnOk result (code.new.items ≡ code.old.items ++ over silent otherwise.now exit) }
    ensures memory { IsOkUnless result Fault.Memory }
{
    if silent {
        return Ok(());
    }
    put(code, Instruction::Ahead(distance(otherwise.len(), exit)?))
}

// How far the exit of an arm is from the end of its code.
fn arm_exit(silent: bool, otherwise: &[Instruction], exit: usize) -> Result<usize, Fault>
    ensures exit { IfOk result (λ r. r ≡ length (over silent otherwise.now exit) + length otherwise.now + exit) }
    ensures memory { IsOkUnless result Fault.Memory }
{
    let jump = if silent { 0 } else { 1 };
    distance(distance(jump, otherwise.len())?, exit)
}

// How far a test that fails leads.
fn failing(silent: bool, arm: &[Instruction], exit: usize) -> Result<usize, Fault>
    ensures exit { IfOk result (λ r. r ≡ failing silent arm.now exit) }
    ensures memory { IsOkUnless result Fault.Memory }
{
    distance(arm.len(), if silent { exit } else { 1 })
}

impl Around<'_> {
    // The code of RETURN with a value.
    fn value_return(
        self,
        code: &mut Instructions,
        width: Width,
        value: &Expression,
    ) -> Result<(), Fault>
        ensures code { OnOk result (code.new.items ≡ code.old.items ++ (returned_code (procedures_of self.entry.callees.procedures.now) width (expression_of value.now) ++ (narrowed width ++ op.Leave ∷ []))) }
        ensures memory { IsOkUnless result Fault.Memory }
    {
        returned(code, self.callees, width, value)?;
        narrow(code, width)?;
        put(code, Instruction::Leave)
    }

    // IF, by the code of its arms.
    fn choice(
        self,
        code: &mut Instructions,
        tree: &Expression,
        arm: &[Instruction],
        silent: bool,
        otherwise: &[Instruction],
        exit: usize,
    ) -> Result<(), Fault>
        ensures code { OnOk result (code.new.items ≡ code.old.items ++ choosing (condition_code (procedures_of self.entry.callees.procedures.now) (expression_of tree.now)) (test_of (expression_of tree.now)) arm.now silent otherwise.now exit) }
        ensures memory { IsOkUnless result Fault.Memory }
    {
        let test = condition(code, self.callees, tree)?;
        let fails = failing(silent, arm, exit)?;
        put(code, Instruction::AheadUnless(test, fails))?;
        add(code, arm)?;
        pass_over(code, silent, otherwise, exit)?;
        add(code, otherwise)
    }

    // The code of a statement after which control goes on at its exit, `exit` instructions after its end.
    #[cycle(statements)]
    fn statement(
        self,
        code: &mut Instructions,
        statement: &Statement,
        exit: usize,
    ) -> Result<(), Fault>
        ensures code { OnOk result (code.new.items ≡ code.old.items ++ statement_code (procedures_of self.entry.callees.procedures.now) self.entry.kind exit (statement_of statement.now)) }
        ensures memory { IsOkUnless result Fault.Memory }
    {
        trees_have_their_lists();
        match statement {
            Statement::Empty => Ok(()),
            Statement::Assign(first, others, value) => {
                assignment(code, self.callees, first, others, value)
            }
            Statement::Evaluate(value) => dropped(code, self.callees, value),
            Statement::Return => leave(code, self.kind),
            Statement::ReturnValue(width, value) => self.value_return(code, *width, value),
            Statement::Enable => put(code, Instruction::Enable),
            Statement::Disable => put(code, Instruction::Disable),
            Statement::Halt => put(code, Instruction::Halt),
            Statement::If(condition, arm, other) => {
                let otherwise = self.apart(other, exit)?;
                self.branch(code, arm, condition, are_silent(other), &otherwise, exit)
            }
            Statement::Block(body) => self.statements(code, body, exit),
            Statement::While(condition, body) => self.while_loop(code, body, condition, exit),
            Statement::Case(value, cases) => self.case(code, cases, value, exit),
            Statement::Iterate(first, rounds) => self.iterate(code, rounds, first, exit),
        }
    }

    // The code of statements in sequence; the last one has the exit of all.
    #[cycle(statements)]
    fn statements(
        self,
        code: &mut Instructions,
        body: &[Box<Statement>],
        exit: usize,
    ) -> Result<(), Fault>
        ensures code { OnOk result (code.new.items ≡ code.old.items ++ statements_code (procedures_of self.entry.callees.procedures.now) self.entry.kind exit (statements_of body.now)) }
        ensures memory { IsOkUnless result Fault.Memory }
    {
        let with_code = with_code(body);
        for (k, statement) in body.iter().enumerate() {
            let own = exit_before(with_code <= k + 1, exit);
            self.statement(code, statement, own)?;
        }
        Ok(())
    }

    // The same by itself, where a jump has to know how long it is.
    #[cycle(statements)]
    fn apart(self, body: &[Box<Statement>], exit: usize) -> Result<Instructions, Fault>
        ensures code { IfOk result (λ r. r.items ≡ statements_code (procedures_of self.entry.callees.procedures.now) self.entry.kind exit (statements_of body.now)) }
        ensures memory { IsOkUnless result Fault.Memory }
    {
        let mut code = Vec::with_capacity(self.alloc, body.len().saturating_mul(ROOM))?;
        self.statements(&mut code, body, exit)?;
        Ok(code)
    }

    // IF, by the code of what is done otherwise.
    #[cycle(statements)]
    fn branch(
        self,
        code: &mut Instructions,
        arm: &[Box<Statement>],
        tree: &Expression,
        silent: bool,
        otherwise: &[Instruction],
        exit: usize,
    ) -> Result<(), Fault>
        ensures code { OnOk result (code.new.items ≡ code.old.items ++ branching (procedures_of self.entry.callees.procedures.now) self.entry.kind (expression_of tree.now) (statements_of arm.now) silent otherwise.now exit) }
        ensures memory { IsOkUnless result Fault.Memory }
    {
        let own = arm_exit(silent, otherwise, exit)?;
        let arm = self.apart(arm, own)?;
        self.choice(code, tree, &arm, silent, otherwise, exit)
    }

    // DO WHILE.
    #[cycle(statements)]
    fn while_loop(
        self,
        code: &mut Instructions,
        body: &[Box<Statement>],
        tree: &Expression,
        exit: usize,
    ) -> Result<(), Fault>
        ensures code { OnOk result (code.new.items ≡ code.old.items ++ statement_code (procedures_of self.entry.callees.procedures.now) self.entry.kind exit (While (expression_of tree.now) (expression_of tree.now) (statements_of body.now))) }
        ensures memory { IsOkUnless result Fault.Memory }
    {
        let body = self.apart(body, 0)?;
        let more = while_loop(self.alloc, self.callees, tree, &body, exit)?;
        add(code, &more)
    }

    // DO with an index.
    #[cycle(statements)]
    fn iterate(
        self,
        code: &mut Instructions,
        rounds: &Loop,
        first: &Expression,
        exit: usize,
    ) -> Result<(), Fault>
        ensures code { OnOk result (code.new.items ≡ code.old.items ++ statement_code (procedures_of self.entry.callees.procedures.now) self.entry.kind exit (Iterate (expression_of first.now) (loop_of rounds.now))) }
        ensures memory { IsOkUnless result Fault.Memory }
    {
        let body = self.apart(&rounds.body, 0)?;
        returned(code, self.callees, rounds.index.width, first)?;
        iterate(code, self.alloc, self.callees, rounds, &body, exit)
    }

    // DO CASE.
    #[cycle(statements)]
    fn case(
        self,
        code: &mut Instructions,
        cases: &[Box<Statement>],
        value: &Expression,
        exit: usize,
    ) -> Result<(), Fault>
        ensures code { OnOk result (code.new.items ≡ code.old.items ++ statement_code (procedures_of self.entry.callees.procedures.now) self.entry.kind exit (Case (expression_of value.now) (statements_of cases.now))) }
        ensures memory { IsOkUnless result Fault.Memory }
    {
        let codes = self.each_case(cases, exit)?;
        expression(code, self.callees, value)?;
        switch(code, &codes, exit)
    }

    // The code of each case. The last one is made first, since each jumps over those after it.
    #[cycle(statements)]
    fn each_case(self, cases: &[Box<Statement>], exit: usize) -> Result<Vec<Instructions>, Fault>
        ensures code { IfOk result (λ r. map vec_items r.items ≡ cases_code (procedures_of self.entry.callees.procedures.now) self.entry.kind exit (statements_of cases.now)) }
        ensures memory { IsOkUnless result Fault.Memory }
    {
        let mut behind = exit;
        let mut codes: Vec<Instructions> = Vec::new(self.alloc);
        for k in (0..cases.len()).rev() {
            let mut code = Vec::with_capacity(self.alloc, ROOM)?;
            self.statement(&mut code, &cases[k], distance(1, behind)?)?;
            put(&mut code, Instruction::Ahead(behind))?;
            behind = distance(code.len(), behind)?;
            codes.push(code)?;
        }
        codes.reverse();
        Ok(codes)
    }

    /// The code of a routine that does this.
    pub fn routine(self, body: &[Box<Statement>]) -> Result<Instructions, Fault>
        ensures code { IfOk result (λ r. r.items ≡ routine_code (procedures_of self.entry.callees.procedures.now) self.entry.kind (statements_of body.now)) }
        ensures memory { IsOkUnless result Fault.Memory }
    {
        let mut code = self.apart(body, 0)?;
        if all_stay(body) {
            return Ok(code);
        }
        end(&mut code, self.kind)?;
        Ok(code)
    }
}
