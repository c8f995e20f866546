//! The names of statements and blocks.

ghost use Rattle.std.specs.Prelude.{◌≡◌, IfOk, IsOkAnd, OnOk, Option, map, None};
ghost use Rattle.plm_syntax.specs.Tree.{no_references, AssignS, CallS, ReturnValueS, IfS, DoS, WhileS, CaseS};
ghost use Rattle.plm_syntax.specs.View.{name_of, names_of, element_of, reference_of, item_of, items_of, basic_of, block_of, statement_of, statements_of, procedure_of};
ghost use Rattle.plm_syntax.specs.View as tree;
ghost use Rattle.plm_syntax.specs.Spelling.{last_name};
ghost use Rattle.plm_decl.specs.Inner.Scope.{frames_of};
ghost use Rattle.plm_decl.specs.Inner.Resolver.{known_of};
ghost use Rattle.plm_decl.specs.Resolved as resolved;
ghost use Rattle.plm_decl.specs.Resolved.{ExpressionR, StatementR};
ghost use Rattle.plm_decl.specs.Resolver.{Known};
ghost use Rattle.plm_decl.specs.ResolvedView as view;
ghost use Rattle.plm_decl.specs.Statements as spec;
ghost use Rattle.plm_decl.specs.Expressions.{expression};
ghost use Rattle.plm_decl.specs.Inner.Procedures.{finished};
ghost use Rattle.plm_decl.specs.Inner.Statements.{bounds_of, bounds_for, iterated, with_alternative};

use crate::parts::{boxed, pushed};
use crate::procedures::takes_no_room;
use crate::resolved::{Bounds, Expression, Reference, Statement};
use crate::resolver::{Resolver, next};
use crate::scope::Scope;
use crate::spelling::block_path;
use plm_syntax::{
    Basic, Block, Element, Item as SyntaxItem, Name, Position, Procedure as SyntaxProcedure,
};
use std::alloc::AllocError;

impl Resolver {
    /// The path of a `DO;` block: that of its last label, or the number of an unnamed one.
    fn do_path(&mut self, scope: &Scope<'_>, labels: &[Name<'_>]) -> Result<Vec<u8>, AllocError>
        ensures { IfOk result (λ r. (r.items, known_of self.new) ≡ spec.block_path (frames_of scope.now) (last_name (names_of labels.now)) (known_of self.old)) }
    {
        match labels.last() {
            Some(label) => self.path_of(scope, label),
            None => {
                self.blocks = next(self.blocks);
                block_path(self.alloc, scope.path(), self.blocks)
            }
        }
    }

    #[tactic(auto, using(crate::proofs::ResolvedRows::reference_pushed))]
    fn references(
        &mut self,
        scope: &Scope<'_>,
        references: &[plm_syntax::Reference<'_>],
    ) -> Result<Vec<Reference>, AllocError>
        ensures { IfOk result (λ r. (view.references_of r.items, known_of self.new) ≡ spec.targets_from (frames_of scope.now) resolved.no_references (map reference_of references.now) (known_of self.old)) }
    {
        let mut resolved = Vec::with_capacity(self.alloc, references.len())?;
        for reference in references {
            pushed(&mut resolved, self.reference(reference, scope))?;
        }
        Ok(resolved)
    }

    fn step(
        &mut self,
        scope: &Scope<'_>,
        step: &Option<plm_syntax::Expression<'_>>,
    ) -> Result<Option<Expression>, AllocError>
        ensures { IfOk result (λ r. (view.step_of r, known_of self.new) ≡ spec.step_for (frames_of scope.now) (tree.step_of step.now) (known_of self.old)) }
    {
        match step {
            Some(step) => Ok(Some(self.expression(step, scope)?)),
            None => Ok(None),
        }
    }

    #[cycle(statement)]
    fn statement(
        &mut self,
        statement: &plm_syntax::Statement<'_>,
        scope: &Scope<'_>,
    ) -> Result<Statement, AllocError>
        ensures { IfOk result (λ r. (view.statement_of r, known_of self.new) ≡ spec.statement (frames_of scope.now) (statement_of statement.now) (known_of self.old)) }
    {
        Resolver::basic(&statement.basic, self, scope, &statement.labels)
    }

    #[cycle(statement)]
    fn statements(
        &mut self,
        statements: &[plm_syntax::Statement<'_>],
        scope: &Scope<'_>,
    ) -> Result<Vec<Statement>, AllocError>
        ensures { IfOk result (λ r. (view.statements_of r.items, known_of self.new) ≡ spec.statements (frames_of scope.now) (statements_of statements.now) (known_of self.old)) }
    {
        let mut resolved = Vec::with_capacity(self.alloc, statements.len())?;
        for statement in statements {
            pushed(&mut resolved, self.statement(statement, scope))?;
        }
        Ok(resolved)
    }

    /// What stands before the body of a DO with an index.
    #[inline(never)]
    fn bounds(
        &mut self,
        index: &Name<'_>,
        values: &plm_syntax::Bounds<'_>,
        scope: &Scope<'_>,
    ) -> Result<Box<Bounds>, AllocError>
        ensures { IfOk result (λ r. (bounds_of r.value, known_of self.new) ≡ bounds_for (frames_of scope.now) (name_of index.now) (tree.expression_of values.now.first) (tree.expression_of values.now.last) (tree.step_of values.now.step) (known_of self.old)) }
    {
        boxed(self.alloc, self.unboxed_bounds(index, values, scope))
    }

    #[inline(never)]
    fn unboxed_bounds(
        &mut self,
        index: &Name<'_>,
        values: &plm_syntax::Bounds<'_>,
        scope: &Scope<'_>,
    ) -> Result<Bounds, AllocError>
        ensures { IfOk result (λ r. (bounds_of r, known_of self.new) ≡ bounds_for (frames_of scope.now) (name_of index.now) (tree.expression_of values.now.first) (tree.expression_of values.now.last) (tree.step_of values.now.step) (known_of self.old)) }
    {
        let binding = self.used(scope, index)?;
        let from = self.expression(&values.first, scope)?;
        match self.last_and_step(values, scope) {
            Ok(limits) => Ok(Bounds {
                binding,
                from,
                to: limits.0,
                step: limits.1,
            }),
            Err(refused) => {
                drop(from);
                Err(refused)
            }
        }
    }

    fn last_and_step(
        &mut self,
        values: &plm_syntax::Bounds<'_>,
        scope: &Scope<'_>,
    ) -> Result<(Expression, Option<Expression>), AllocError>
        ensures { let e = expression (frames_of scope.now) (tree.expression_of values.now.last) (known_of self.old) in let s = spec.step_for (frames_of scope.now) (tree.step_of values.now.step) e.1 in let all : ExpressionR × Option ExpressionR × Known = (e.0, s.0, s.1) in IfOk result (λ r. (view.expression_of r.0, view.step_of r.1, known_of self.new) ≡ all) }
    {
        let to = self.expression(&values.last, scope)?;
        match self.step(scope, &values.step) {
            Ok(step) => Ok((to, step)),
            Err(refused) => {
                drop(to);
                Err(refused)
            }
        }
    }

    /// An assignment.
    #[tactic(auto, using(crate::proofs::ListViews::reference_list_from))]
    #[inline(never)]
    fn assignment(
        &mut self,
        targets: &[plm_syntax::Reference<'_>],
        value: &plm_syntax::Expression<'_>,
        scope: &Scope<'_>,
    ) -> Result<Statement, AllocError>
        ensures { IfOk result (λ r. (view.statement_of r, known_of self.new) ≡ spec.basic (frames_of scope.now) None (AssignS (tree.references_from targets.now no_references) (tree.expression_of value.now)) (known_of self.old)) }
    {
        let targets = self.references(scope, targets)?;
        Ok(Statement::Assign(targets, self.expression(value, scope)?))
    }

    /// A CALL.
    #[inline(never)]
    fn call(
        &mut self,
        procedure: &plm_syntax::Reference<'_>,
        place: Position,
        scope: &Scope<'_>,
    ) -> Result<Statement, AllocError>
        ensures { IfOk result (λ r. (view.statement_of r, known_of self.new) ≡ spec.basic (frames_of scope.now) None (CallS place (reference_of procedure.now)) (known_of self.old)) }
    {
        Ok(Statement::Call(place, self.reference(procedure, scope)?))
    }

    /// A RETURN with a value.
    #[inline(never)]
    fn return_value(
        &mut self,
        value: &plm_syntax::Expression<'_>,
        place: Position,
        scope: &Scope<'_>,
    ) -> Result<Statement, AllocError>
        ensures { IfOk result (λ r. (view.statement_of r, known_of self.new) ≡ spec.basic (frames_of scope.now) None (ReturnValueS place (tree.expression_of value.now)) (known_of self.old)) }
    {
        Ok(Statement::ReturnValue(place, self.expression(value, scope)?))
    }

    #[cycle(statement)]
    fn boxed_statement(
        &mut self,
        statement: &plm_syntax::Statement<'_>,
        scope: &Scope<'_>,
    ) -> Result<Box<Statement>, AllocError>
        ensures { IfOk result (λ r. (view.statement_of r.value, known_of self.new) ≡ spec.statement (frames_of scope.now) (statement_of statement.now) (known_of self.old)) }
    {
        boxed(self.alloc, self.statement(statement, scope))
    }

    /// What stands behind IF and THEN.
    #[cycle(statement)]
    #[inline(never)]
    fn tested(
        &mut self,
        body: &plm_syntax::Statement<'_>,
        test: &plm_syntax::Expression<'_>,
        scope: &Scope<'_>,
    ) -> Result<(Expression, Box<Statement>), AllocError>
        ensures { let e = expression (frames_of scope.now) (tree.expression_of test.now) (known_of self.old) in let s = spec.statement (frames_of scope.now) (statement_of body.now) e.1 in let all : ExpressionR × StatementR × Known = (e.0, s.0, s.1) in IfOk result (λ r. (view.expression_of r.0, view.statement_of r.1.value, known_of self.new) ≡ all) }
    {
        let test = self.expression(test, scope)?;
        match self.boxed_statement(body, scope) {
            Ok(body) => Ok((test, body)),
            Err(refused) => {
                drop(test);
                Err(refused)
            }
        }
    }

    /// What stands after IF, where there is no ELSE.
    #[cycle(statement)]
    #[inline(never)]
    fn conditional(
        &mut self,
        body: &plm_syntax::Statement<'_>,
        test: &plm_syntax::Expression<'_>,
        place: Position,
        scope: &Scope<'_>,
    ) -> Result<Statement, AllocError>
        ensures { IfOk result (λ r. (view.statement_of r, known_of self.new) ≡ spec.basic (frames_of scope.now) None (IfS place (tree.expression_of test.now) (statement_of body.now)) (known_of self.old)) }
    {
        let tested = self.tested(body, test, scope)?;
        Ok(Statement::If(place, tested.0, tested.1))
    }

    /// What stands after ELSE, where this test and this statement stand before it.
    #[cycle(statement)]
    #[inline(never)]
    fn alternative(
        &mut self,
        other: &plm_syntax::Statement<'_>,
        test: Expression,
        body: Box<Statement>,
        place: Position,
        scope: &Scope<'_>,
    ) -> Result<Statement, AllocError>
        ensures { IfOk result (λ r. (view.statement_of r, known_of self.new) ≡ with_alternative place (view.expression_of test) (view.statement_of body.value) (spec.statement (frames_of scope.now) (statement_of other.now) (known_of self.old))) }
    {
        match self.boxed_statement(other, scope) {
            Ok(other) => Ok(Statement::IfElse(place, test, body, other)),
            Err(refused) => {
                drop(test);
                Err(refused)
            }
        }
    }

    /// The same, where what stands before ELSE may want memory.
    #[cycle(statement)]
    #[inline(never)]
    fn alternative_to(
        &mut self,
        other: &plm_syntax::Statement<'_>,
        tested: Result<(Expression, Box<Statement>), AllocError>,
        place: Position,
        scope: &Scope<'_>,
    ) -> Result<Statement, AllocError>
        ensures { IfOk result (λ r. IsOkAnd tested (λ t. (view.statement_of r, known_of self.new) ≡ with_alternative place (view.expression_of t.0) (view.statement_of t.1.value) (spec.statement (frames_of scope.now) (statement_of other.now) (known_of self.old)))) }
    {
        let tested = tested?;
        self.alternative(other, tested.0, tested.1, place, scope)
    }

    /// A `DO;` block.
    #[cycle(statement)]
    #[inline(never)]
    fn do_block(
        &mut self,
        block: &Block<'_>,
        place: Position,
        scope: &Scope<'_>,
        labels: &[Name<'_>],
    ) -> Result<Statement, AllocError>
        ensures { IfOk result (λ r. (view.statement_of r, known_of self.new) ≡ spec.basic (frames_of scope.now) (last_name (names_of labels.now)) (DoS place (block_of block.now) None) (known_of self.old)) }
    {
        let path = self.do_path(scope, labels)?;
        let mut inside = Scope::inside(self.alloc, scope, path, scope.is_external());
        let statements = Resolver::block(block, self, &mut inside);
        drop(inside);
        let statements = statements?;
        Ok(Statement::Do(place, statements))
    }

    /// A DO WHILE block.
    #[cycle(statement)]
    #[tactic(auto, using(crate::proofs::ResolvedRows::statement_row))]
    #[inline(never)]
    fn while_loop(
        &mut self,
        body: &[plm_syntax::Statement<'_>],
        test: &plm_syntax::Expression<'_>,
        place: Position,
        scope: &Scope<'_>,
    ) -> Result<Statement, AllocError>
        ensures { IfOk result (λ r. (view.statement_of r, known_of self.new) ≡ spec.basic (frames_of scope.now) None (WhileS place (tree.expression_of test.now) (statements_of body.now) None) (known_of self.old)) }
    {
        let test = self.expression(test, scope)?;
        match self.statements(body, scope) {
            Ok(body) => Ok(Statement::While(place, test, body)),
            Err(refused) => {
                drop(test);
                Err(refused)
            }
        }
    }

    /// A DO CASE block.
    #[cycle(statement)]
    #[tactic(auto, using(crate::proofs::ResolvedRows::statement_row))]
    #[inline(never)]
    fn case(
        &mut self,
        cases: &[plm_syntax::Statement<'_>],
        selector: &plm_syntax::Expression<'_>,
        place: Position,
        scope: &Scope<'_>,
    ) -> Result<Statement, AllocError>
        ensures { IfOk result (λ r. (view.statement_of r, known_of self.new) ≡ spec.basic (frames_of scope.now) None (CaseS place (tree.expression_of selector.now) (statements_of cases.now) None) (known_of self.old)) }
    {
        let selector = self.expression(selector, scope)?;
        match self.statements(cases, scope) {
            Ok(cases) => Ok(Statement::Case(place, selector, cases)),
            Err(refused) => {
                drop(selector);
                Err(refused)
            }
        }
    }

    /// A block of DO with an index.
    #[cycle(statement)]
    #[inline(never)]
    fn iterate(
        &mut self,
        body: &[plm_syntax::Statement<'_>],
        bounds: Box<Bounds>,
        place: Position,
        index: Position,
        scope: &Scope<'_>,
    ) -> Result<Statement, AllocError>
        ensures { IfOk result (λ r. (view.statement_of r, known_of self.new) ≡ iterated place index (bounds_of bounds.value) (spec.statements (frames_of scope.now) (statements_of body.now) (known_of self.old))) }
    {
        let body = self.statements(body, scope)?;
        Ok(Statement::Iterate(place, index, bounds, body))
    }

    /// The same, where what stands before the body may want memory.
    #[cycle(statement)]
    #[inline(never)]
    fn iterate_from(
        &mut self,
        body: &[plm_syntax::Statement<'_>],
        bounds: Result<Box<Bounds>, AllocError>,
        place: Position,
        index: Position,
        scope: &Scope<'_>,
    ) -> Result<Statement, AllocError>
        ensures { IfOk result (λ r. IsOkAnd bounds (λ b. (view.statement_of r, known_of self.new) ≡ iterated place index (bounds_of b.value) (spec.statements (frames_of scope.now) (statements_of body.now) (known_of self.old)))) }
    {
        let bounds = bounds?;
        self.iterate(body, bounds, place, index, scope)
    }

    // The tree stands before the resolver, where a check finds its parts at once. Each arm that makes a tree is a function that is not put in
    // here: else the answers of all arms are zeroed, whichever arm it is.
    #[cycle(statement)]
    fn basic(
        basic: &Basic<'_>,
        resolver: &mut Resolver,
        scope: &Scope<'_>,
        labels: &[Name<'_>],
    ) -> Result<Statement, AllocError>
        ensures { IfOk result (λ r. (view.statement_of r, known_of resolver.new) ≡ spec.basic (frames_of scope.now) (last_name (names_of labels.now)) (basic_of basic.now) (known_of resolver.old)) }
    {
        match basic {
            Basic::Empty(place) => Ok(Statement::Empty(*place)),
            Basic::Assign(targets, value) => resolver.assignment(targets, value, scope),
            Basic::Call(place, procedure) => resolver.call(procedure, *place, scope),
            Basic::Return(place) => Ok(Statement::Return(*place)),
            Basic::ReturnValue(place, value) => resolver.return_value(value, *place, scope),
            Basic::Enable(place) => Ok(Statement::Enable(*place)),
            Basic::Disable(place) => Ok(Statement::Disable(*place)),
            Basic::Halt(place) => Ok(Statement::Halt(*place)),
            Basic::If(place, test, then) => resolver.conditional(then, test, *place, scope),
            Basic::IfElse(place, test, then, other) => {
                let tested = resolver.tested(then, test, scope);
                resolver.alternative_to(other, tested, *place, scope)
            }
            Basic::Do(place, block, _) => resolver.do_block(block, *place, scope, labels),
            Basic::While(place, test, body, _) => resolver.while_loop(body, test, *place, scope),
            Basic::Case(place, selector, cases, _) => resolver.case(cases, selector, *place, scope),
            Basic::Iterate(place, index, values, body, _) => {
                let bounds = resolver.bounds(index, values, scope);
                resolver.iterate_from(body, bounds, *place, index.place, scope)
            }
        }
    }

    /// The items of a block.
    #[cycle(statement)]
    fn items(&mut self, items: &[SyntaxItem<'_>], scope: &mut Scope<'_>) -> Result<(), AllocError>
        ensures { OnOk result ((frames_of scope.new, known_of self.new) ≡ spec.with_items (frames_of scope.old) (items_of items.now) (known_of self.old)) }
    {
        for item in items {
            self.item(item, scope)?;
        }
        Ok(())
    }

    /// A block, whose own names are all to come.
    #[cycle(statement)]
    pub fn block(
        block: &Block<'_>,
        resolver: &mut Resolver,
        scope: &mut Scope<'_>,
    ) -> Result<Vec<Statement>, AllocError>
        ensures { IfOk result (λ r. (view.statements_of r.items, frames_of scope.new, known_of resolver.new) ≡ spec.block (frames_of scope.old) (block_of block.now) (known_of resolver.old)) }
    {
        let Block { items, statements } = block;
        resolver.items(items, scope)?;
        resolver.statements(statements, scope)
    }

    #[cycle(statement)]
    #[tactic(auto, using(crate::proofs::ListViews::element_list_from))]
    fn item(&mut self, item: &SyntaxItem<'_>, scope: &mut Scope<'_>) -> Result<(), AllocError>
        ensures { OnOk result ((frames_of scope.new, known_of self.new) ≡ spec.with_item (frames_of scope.old) (item_of item.now) (known_of self.old)) }
    {
        match item {
            SyntaxItem::Declare(_, elements) => self.elements(scope, elements),
            SyntaxItem::Procedure(procedure) => self.procedure(procedure, scope),
        }
    }

    fn elements(
        &mut self,
        scope: &mut Scope<'_>,
        elements: &[Element<'_>],
    ) -> Result<(), AllocError>
        ensures { OnOk result ((frames_of scope.new, known_of self.new) ≡ spec.with_elements (map element_of elements.now) (frames_of scope.old) (known_of self.old)) }
    {
        for element in elements {
            self.element(scope, element)?;
        }
        Ok(())
    }

    #[cycle(statement)]
    fn procedure(
        &mut self,
        procedure: &SyntaxProcedure<'_>,
        scope: &mut Scope<'_>,
    ) -> Result<(), AllocError>
        ensures { OnOk result ((frames_of scope.new, known_of self.new) ≡ spec.with_item (frames_of scope.old) (procedure_of procedure.now) (known_of self.old)) }
    {
        let SyntaxProcedure {
            name,
            parameters,
            linkage,
            block,
            ..
        } = procedure;
        let is_external = takes_no_room(*linkage, scope);
        let path = self.path_of(scope, name)?;
        let number = self.header(scope, procedure)?;
        let mut inside = Scope::inside(self.alloc, scope, path, is_external);
        let read = Resolver::body(block, self, number, &mut inside, parameters);
        drop(inside);
        read
    }

    /// The block of the procedure of this number, in its own scope.
    #[cycle(statement)]
    fn body(
        block: &Block<'_>,
        resolver: &mut Resolver,
        number: usize,
        inside: &mut Scope<'_>,
        parameters: &[Name<'_>],
    ) -> Result<(), AllocError>
        ensures { OnOk result (known_of resolver.new ≡ (let b = spec.block (frames_of inside.old) (block_of block.now) (known_of resolver.old) in finished number b.1 (map name_of parameters.now) b.0 b.2)) }
    {
        let statements = Resolver::block(block, resolver, inside)?;
        resolver.finish(number, inside, parameters, statements)
    }
}
