//! A context of the code: where it stands, its accumulator and its stack.

ghost use Rattle.std.specs.Prelude.{◌≡◌, ℕ, suc, ◌+◌, ◌%◌, ◌∷◌, [], List, false, slice_get, drop, nat_lt, if◌then◌else◌};
ghost use Rattle.std.specs.Option.{option_map};
ghost use Rattle.word86.specs.Access.{Output, Input};
ghost use Rattle.word86.specs.Action.{Silent, Touch};
ghost use Rattle.word86.specs.Arithmetic.{low};
ghost use Rattle.word86.specs.Operation.{binary_value};
ghost use Rattle.word86.specs.Place.{where_of, access_of};
ghost use Rattle.icode.specs.declared.code.Routine.TheVariants.{Procedure};
ghost use Rattle.icode.specs.declared.code.Routine.TheVariants as routine;
ghost use Rattle.icode.specs.declared.code.Word.TheVariants.{Return};
ghost use Rattle.icode.specs.declared.machine.Step.TheVariants as step;
ghost use Rattle.icode.specs.declared.machine.Stop.TheVariants as stop;
ghost use Rattle.icode.specs.Machine.{Context as Target, At, run, stands, jumped, case_of, switched, dropped, computed, value_in, value_on_top, return_on_top, with_value, operated, loaded, stored, stepped, with_low, left, case_in};
ghost use Rattle.icode.specs.Shown.{shown, words_of, action_of, access_in, Does};

use crate::code::{Code, Position, Routine, Word};
use crate::instruction::{Instruction, Relation, Test};
use crate::ram_objects::RamObjects;
use std::alloc::Global;
use word86::{Access, BinaryOperation, Place, Width, signed16};

/// What a step does.
#[derive(Clone, Copy, PartialEq, Eq)]
pub enum Step {
    /// Nothing outside the context.
    Silent,
    /// One access.
    Touch(Access),
    Enable,
    Disable,
    Halt,
}

/// Why there is no step.
#[derive(Clone, Copy, PartialEq, Eq)]
pub enum Stop {
    /// The interrupt procedure is used up.
    Over,
    /// The step would be a Bad one: an access outside the objects and the screen, a quotient that there is not, or none that a
    /// compiled program makes.
    Bad,
    /// A growth of memory was refused.
    Memory,
}

/// Where a context stands, its accumulator, and the words that it pushed, the newest last.
#[derive(Drop)]
pub(crate) struct Context {
    position: Position,
    pub(crate) accumulator: u16,
    words: Vec<Word>,
}

/// A context of a program's code, as far as it has come.
#[derive(Drop)]
pub struct Machine<'a> {
    code: &'a Code,
    ram_objects: RamObjects<'a>,
    context: Context,
}

/// A read where there may be no place.
pub(crate) fn read(width: Width, place: Option<Place>) -> Option<Access>
    ensures { (k : ℕ → Target) → option_map access_of result ≡ access_in (loaded width (option_map where_of place) k) }
{
    match place {
        None => None,
        Some(place) => Some(Access::Read(width, place)),
    }
}

// A write where there may be no place.
fn written(width: Width, place: Option<Place>, value: u16) -> Option<Access>
    ensures { (c : Target) → option_map access_of result ≡ access_in (stored width (option_map where_of place) value c) }
{
    match place {
        None => None,
        Some(place) => Some(Access::Write(width, place, width.low(u32::from(value)))),
    }
}

// The read that a test makes.
fn read_by(ram_objects: RamObjects<'_>, test: Test) -> Option<Access>
    ensures { (routine : Routine) (next target accumulator : ℕ) (words : List Word) → option_map access_of result ≡ access_in (jumped ram_objects.entry.offsets.now ram_objects.entry.sizes.now test routine next target accumulator words) }
{
    match test {
        Test::Plain(_, width, place) => read(width, ram_objects.reached(width, place, 0)),
        Test::Low(_, right) => right.read(ram_objects),
        Test::Named(_, width, place, _) => read(width, ram_objects.reached(width, place, 0)),
        Test::OddNamed(place) => read(Width::Byte, ram_objects.reached(Width::Byte, place, 0)),
        Test::Odd | Test::Constant(_, _) | Test::Top(_) => None,
    }
}

impl Relation {
    /// Whether it stands between two numbers.
    pub(crate) fn stands(self, left: u16, right: u16) -> bool
        ensures { result ≡ stands self left right }
    {
        match self {
            Relation::Equal => left == right,
            Relation::NotEqual => left != right,
            Relation::Less => left < right,
            Relation::LessEqual => left <= right,
            Relation::Greater => left > right,
            Relation::GreaterEqual => left >= right,
            Relation::LessSigned => signed16(left) < signed16(right),
            Relation::LessEqualSigned => signed16(left) <= signed16(right),
            Relation::GreaterSigned => signed16(left) > signed16(right),
            Relation::GreaterEqualSigned => signed16(left) >= signed16(right),
        }
    }
}

impl Instruction {
    // How far a case leads on.
    fn case(self) -> Option<usize>
        ensures { result ≡ case_of self }
    {
        match self {
            Instruction::Case(count) => Some(count),
            Instruction::Constant(_)
            | Instruction::Locate(_)
            | Instruction::LocateAt(_)
            | Instruction::Load(_, _)
            | Instruction::LoadAt(_, _)
            | Instruction::LoadThere(_)
            | Instruction::Low(_, _)
            | Instruction::Push
            | Instruction::Pick(_)
            | Instruction::Drop(_)
            | Instruction::Unary(_, _)
            | Instruction::Binary(_, _)
            | Instruction::BinaryConstant(_, _, _)
            | Instruction::BinaryPlain(_, _, _, _)
            | Instruction::Store(_, _)
            | Instruction::StoreAt(_, _)
            | Instruction::StoreThere(_)
            | Instruction::StoreTop(_, _)
            | Instruction::StoreConstantAt(_, _, _)
            | Instruction::Send(_)
            | Instruction::SendTo(_, _)
            | Instruction::Receive(_)
            | Instruction::ReceiveFrom(_, _)
            | Instruction::Ahead(_)
            | Instruction::AheadUnless(_, _)
            | Instruction::Back(_)
            | Instruction::BackUnless(_, _)
            | Instruction::Next(_, _, _, _)
            | Instruction::Switch(_)
            | Instruction::Invoke(_)
            | Instruction::Leave
            | Instruction::Enable
            | Instruction::Disable
            | Instruction::Halt
            | Instruction::Finish => None,
        }
    }
}

// The sum of a word and a step.
fn sum(word: u16, step: u16) -> u32
    ensures { result ≡ word + step }
{
    u32::from(word) + u32::from(step)
}

// A word whose low bits of a width are those of a value.
fn with_low(width: Width, word: u16, value: u32) -> u16
    ensures { result ≡ with_low width word value }
{
    match width {
        Width::Byte => word / 256 * 256 + (value % 0x100) as u16,
        Width::Word => (value % 0x1_0000) as u16,
    }
}

// The write of a sum where there may be no place.
fn written_sum(width: Width, place: Option<Place>, value: u16, step: u16) -> Option<Access>
    ensures { (routine : Routine) (next target : ℕ) (words : List Word) → option_map access_of result ≡ access_in (stepped width (option_map where_of place) step routine next target value words) }
{
    match place {
        None => None,
        Some(place) => Some(Access::Write(width, place, width.low(sum(value, step)))),
    }
}

// How far the case at an index leads on, if there is one.
fn case_at(all: &[Instruction], index: usize) -> Option<usize>
    ensures { result ≡ case_in (slice_get all.now index) }
{
    match all.get(index) {
        None => None,
        Some(instruction) => instruction.case(),
    }
}

impl Context {
    /// On to another instruction of the body, with this in the accumulator.
    pub(crate) fn go_on(&mut self, index: usize, value: u16) -> Step
        ensures new { shown self.new ≡ At self.old.position.routine index value (words_of self.old) }
        ensures silent { result ≡ step.Silent }
    {
        self.position.index = index;
        self.accumulator = value;
        Step::Silent
    }

    /// The same after an access.
    pub(crate) fn touch(&mut self, index: usize, value: u16, access: Access) -> Step
        ensures new { shown self.new ≡ At self.old.position.routine index value (words_of self.old) }
        ensures touched { result ≡ step.Touch access }
    {
        self.go_on(index, value);
        Step::Touch(access)
    }

    /// The word on top, if it is a value.
    pub(crate) fn value_on_top(&self) -> Option<u16>
        ensures { result ≡ value_on_top (words_of self.now) }
    {
        match self.words.last() {
            Some(Word::Value(value)) => Some(*value),
            Some(Word::Return(_)) => None,
            None => None,
        }
    }

    // The word on top, if it is where a call goes on.
    fn return_on_top(&self) -> Option<Position>
        ensures { result ≡ return_on_top (words_of self.now) }
    {
        match self.words.last() {
            Some(Word::Return(position)) => Some(*position),
            Some(Word::Value(_)) => None,
            None => None,
        }
    }

    /// `count` words go from the top.
    pub(crate) fn remove(&mut self, count: usize)
        ensures words { words_of self.new ≡ drop count (words_of self.old) }
        ensures position { self.new.position ≡ self.old.position }
        ensures accumulator { self.new.accumulator ≡ self.old.accumulator }
    {
        let left = self.words.len().saturating_sub(count);
        self.words.truncate(left);
    }

    // `count` words go, if there are as many.
    fn discard(&mut self, next: usize, count: usize, answer: u16) -> Result<Step, Stop>
        ensures { Does (dropped count self.old.position.routine next self.old.accumulator (words_of self.old)) answer self.old self.new result }
    {
        if self.words.len() < count {
            return Err(Stop::Bad);
        }
        self.remove(count);
        Ok(self.go_on(next, self.accumulator))
    }

    // The value that `above` words lie on.
    fn picked(&self, above: usize) -> Option<u16>
        ensures { result ≡ value_in (slice_get (words_of self.now) above) }
    {
        let count = self.words.len();
        if count <= above {
            return None;
        }
        match self.words[count - 1 - above] {
            Word::Value(value) => Some(value),
            Word::Return(_) => None,
        }
    }

    // A value that there may not be.
    fn operate(&mut self, next: usize, value: Option<u16>, answer: u16) -> Result<Step, Stop>
        ensures { Does (operated value (λ x. At self.old.position.routine next x (words_of self.old))) answer self.old self.new result }
    {
        match value {
            None => Err(Stop::Bad),
            Some(value) => Ok(self.go_on(next, value)),
        }
    }

    // The value of what was read; where there is none, on at the routine without instructions.
    fn compute(&mut self, next: usize, value: Option<u16>)
        ensures { shown self.new ≡ computed value self.old.position.routine next (words_of self.old) }
    {
        match value {
            None => {
                self.position.routine = Routine::Nowhere;
                self.go_on(0, 0);
            }
            Some(value) => {
                self.go_on(next, value);
            }
        }
    }

    // A read where there may be no place.
    fn load(
        &mut self,
        next: usize,
        width: Width,
        place: Option<Place>,
        answer: u16,
    ) -> Result<Step, Stop>
        ensures { Does (loaded width (option_map where_of place) (λ v. At self.old.position.routine next v (words_of self.old))) answer self.old self.new result }
    {
        match place {
            None => Err(Stop::Bad),
            Some(place) => {
                let value = width.low(u32::from(answer));
                Ok(self.touch(next, value, Access::Read(width, place)))
            }
        }
    }

    // The accumulator is written where there may be no place.
    fn store(
        &mut self,
        next: usize,
        width: Width,
        place: Option<Place>,
        answer: u16,
    ) -> Result<Step, Stop>
        ensures { Does (stored width (option_map where_of place) self.old.accumulator (At self.old.position.routine next self.old.accumulator (words_of self.old))) answer self.old self.new result }
    {
        match place {
            None => Err(Stop::Bad),
            Some(place) => {
                let value = self.accumulator;
                let access = Access::Write(width, place, width.low(u32::from(value)));
                Ok(self.touch(next, value, access))
            }
        }
    }

    // A constant is written where there may be no place, and the accumulator gets it.
    fn store_constant(
        &mut self,
        next: usize,
        width: Width,
        place: Option<Place>,
        constant: u16,
        answer: u16,
    ) -> Result<Step, Stop>
        ensures { Does (stored width (option_map where_of place) constant (At self.old.position.routine next constant (words_of self.old))) answer self.old self.new result }
    {
        match place {
            None => Err(Stop::Bad),
            Some(place) => {
                let access = Access::Write(width, place, width.low(u32::from(constant)));
                Ok(self.touch(next, constant, access))
            }
        }
    }

    // The value on top is written where there may be no place.
    fn store_top(
        &mut self,
        next: usize,
        width: Width,
        place: Option<Place>,
        answer: u16,
    ) -> Result<Step, Stop>
        ensures { Does (with_value (value_on_top (words_of self.old)) (λ v. stored width (option_map where_of place) v (At self.old.position.routine next v (drop 1 (words_of self.old))))) answer self.old self.new result }
    {
        let Some(value) = self.value_on_top() else {
            return Err(Stop::Bad);
        };
        match place {
            None => Err(Stop::Bad),
            Some(place) => {
                self.remove(1);
                let access = Access::Write(width, place, width.low(u32::from(value)));
                Ok(self.touch(next, value, access))
            }
        }
    }

    // The value on top is written where there may be no place; the accumulator stays.
    fn store_below(
        &mut self,
        next: usize,
        width: Width,
        place: Option<Place>,
        answer: u16,
    ) -> Result<Step, Stop>
        ensures { Does (with_value (value_on_top (words_of self.old)) (λ v. stored width (option_map where_of place) v (At self.old.position.routine next self.old.accumulator (drop 1 (words_of self.old))))) answer self.old self.new result }
    {
        let Some(value) = self.value_on_top() else {
            return Err(Stop::Bad);
        };
        match place {
            None => Err(Stop::Bad),
            Some(place) => {
                let accumulator = self.accumulator;
                self.remove(1);
                let access = Access::Write(width, place, width.low(u32::from(value)));
                Ok(self.touch(next, accumulator, access))
            }
        }
    }

    // The value on top is written to the port in the accumulator.
    fn send(&mut self, next: usize, width: Width, answer: u16) -> Result<Step, Stop>
        ensures { Does (with_value (value_on_top (words_of self.old)) (λ v. Touch (Output width self.old.accumulator (low width v)) (λ _. At self.old.position.routine next v (drop 1 (words_of self.old))))) answer self.old self.new result }
    {
        let Some(value) = self.value_on_top() else {
            return Err(Stop::Bad);
        };
        let port = self.accumulator;
        self.remove(1);
        let low = width.low(u32::from(value));
        Ok(self.touch(next, value, Access::Output(width, port, low)))
    }

    // The accumulator is written to a port.
    fn send_to(&mut self, next: usize, width: Width, port: u16, answer: u16) -> Result<Step, Stop>
        ensures { Does (Touch (Output width port (low width self.old.accumulator)) (λ _. At self.old.position.routine next self.old.accumulator (words_of self.old))) answer self.old self.new result }
    {
        let value = self.accumulator;
        let low = width.low(u32::from(value));
        Ok(self.touch(next, value, Access::Output(width, port, low)))
    }

    // The accumulator gets what is read from a port.
    fn receive(&mut self, next: usize, width: Width, port: u16, answer: u16) -> Result<Step, Stop>
        ensures { Does (Touch (Input width port) (λ v. At self.old.position.routine next v (words_of self.old))) answer self.old self.new result }
    {
        let value = width.low(u32::from(answer));
        Ok(self.touch(next, value, Access::Input(width, port)))
    }

    fn push(&mut self, next: usize, word: Word, answer: u16) -> Result<Step, Stop>
        ensures { Does (Silent (At self.old.position.routine next self.old.accumulator (word ∷ words_of self.old))) answer self.old self.new result }
    {
        if self.words.push(word).is_err() {
            return Err(Stop::Memory);
        }
        Ok(self.go_on(next, self.accumulator))
    }

    // An operator on the value on top, which goes, and the accumulator.
    fn apply(
        &mut self,
        next: usize,
        operation: BinaryOperation,
        width: Width,
        answer: u16,
    ) -> Result<Step, Stop>
        ensures { Does (with_value (value_on_top (words_of self.old)) (λ v. operated (binary_value operation width v self.old.accumulator) (λ x. At self.old.position.routine next x (drop 1 (words_of self.old))))) answer self.old self.new result }
    {
        let Some(left) = self.value_on_top() else {
            return Err(Stop::Bad);
        };
        let Some(value) = operation.value(width, left, self.accumulator) else {
            return Err(Stop::Bad);
        };
        self.remove(1);
        Ok(self.go_on(next, value))
    }

    // An operator on the accumulator and what is read where there may be no place.
    fn apply_read(
        &mut self,
        next: usize,
        operation: BinaryOperation,
        width: Width,
        read: Width,
        place: Option<Place>,
        answer: u16,
    ) -> Result<Step, Stop>
        ensures { Does (loaded read (option_map where_of place) (λ v. computed (binary_value operation width self.old.accumulator v) self.old.position.routine next (words_of self.old))) answer self.old self.new result }
    {
        match place {
            None => Err(Stop::Bad),
            Some(place) => {
                let right = read.low(u32::from(answer));
                let value = operation.value(width, self.accumulator, right);
                self.compute(next, value);
                Ok(Step::Touch(Access::Read(read, place)))
            }
        }
    }

    // On at the first instruction of a procedure, which leaves for the next one.
    fn invoke(&mut self, next: usize, procedure: usize, answer: u16) -> Result<Step, Stop>
        ensures { Does (Silent (At (Procedure procedure) 0 self.old.accumulator (Return (record { routine = self.old.position.routine; index = next }) ∷ words_of self.old))) answer self.old self.new result }
    {
        let place = Position {
            routine: self.position.routine,
            index: next,
        };
        if self.words.push(Word::Return(place)).is_err() {
            return Err(Stop::Memory);
        }
        self.position.routine = Routine::Procedure(procedure);
        Ok(self.go_on(0, self.accumulator))
    }

    // On where the procedure was called.
    fn leave(&mut self, answer: u16) -> Result<Step, Stop>
        ensures { Does (left (return_on_top (words_of self.old)) self.old.accumulator (drop 1 (words_of self.old))) answer self.old self.new result }
    {
        let Some(place) = self.return_on_top() else {
            return Err(Stop::Bad);
        };
        self.remove(1);
        self.position = place;
        Ok(Step::Silent)
    }

    // On over `count` instructions. A jump of sound code leads to an instruction of its routine, so the sum is below the number of these,
    // and this `Memory` never comes. The same holds for the two sums below.
    fn ahead(&mut self, next: usize, count: usize, answer: u16) -> Result<Step, Stop>
        ensures { Does (Silent (At self.old.position.routine (next + count) self.old.accumulator (words_of self.old))) answer self.old self.new result }
    {
        match next.checked_add(count) {
            None => Err(Stop::Memory),
            Some(place) => Ok(self.go_on(place, self.accumulator)),
        }
    }

    /// On at the next instruction where a relation stands, else at the target.
    pub(crate) fn branch(&mut self, holds: bool, next: usize, target: usize) -> Step
        ensures new { shown self.new ≡ At self.old.position.routine (if holds then next else target) self.old.accumulator (words_of self.old) }
        ensures silent { result ≡ step.Silent }
    {
        let index = if holds { next } else { target };
        self.go_on(index, self.accumulator)
    }

    // To the target unless a test holds.
    fn jump(
        &mut self,
        ram_objects: RamObjects<'_>,
        test: Test,
        next: usize,
        target: usize,
        answer: u16,
    ) -> Result<Step, Stop>
        ensures { Does (jumped ram_objects.entry.offsets.now ram_objects.entry.sizes.now test self.old.position.routine next target self.old.accumulator (words_of self.old)) answer self.old self.new result }
    {
        let value = self.accumulator;
        match test {
            Test::Odd => Ok(self.branch(value % 2 == 1, next, target)),
            Test::Constant(relation, right) => {
                Ok(self.branch(relation.stands(value, right), next, target))
            }
            Test::Plain(relation, width, place) => {
                let Some(place) = ram_objects.reached(width, place, 0) else {
                    return Err(Stop::Bad);
                };
                let right = width.low(u32::from(answer));
                self.branch(relation.stands(value, right), next, target);
                Ok(Step::Touch(Access::Read(width, place)))
            }
            Test::Top(relation) => {
                let Some(left) = self.value_on_top() else {
                    return Err(Stop::Bad);
                };
                self.remove(1);
                Ok(self.branch(relation.stands(left, value), next, target))
            }
            Test::Low(relation, right) => {
                self.jump_low(ram_objects, relation, right, next, target, answer)
            }
            Test::Named(relation, width, place, right) => {
                let found = ram_objects.reached(width, place, 0);
                self.jump_named(relation, width, found, right, next, target, answer)
            }
            Test::OddNamed(place) => {
                let Some(place) = ram_objects.reached(Width::Byte, place, 0) else {
                    return Err(Stop::Bad);
                };
                self.branch(answer % 2 == 1, next, target);
                Ok(Step::Touch(Access::Read(Width::Byte, place)))
            }
        }
    }

    // To the target unless what is read where there may be no place stands in a relation to a constant.
    fn jump_named(
        &mut self,
        relation: Relation,
        width: Width,
        place: Option<Place>,
        right: u16,
        next: usize,
        target: usize,
        answer: u16,
    ) -> Result<Step, Stop>
        ensures { Does (loaded width (option_map where_of place) (λ v. At self.old.position.routine (if stands relation v (low width right) then next else target) self.old.accumulator (words_of self.old))) answer self.old self.new result }
    {
        let Some(place) = place else {
            return Err(Stop::Bad);
        };
        let left = width.low(u32::from(answer));
        let holds = relation.stands(left, width.low(u32::from(right)));
        self.branch(holds, next, target);
        Ok(Step::Touch(Access::Read(width, place)))
    }

    // A step is added, and the sum written where there may be no place; to the target unless it is below the step.
    fn count(
        &mut self,
        width: Width,
        place: Option<Place>,
        step: u16,
        next: usize,
        target: usize,
        answer: u16,
    ) -> Result<Step, Stop>
        ensures { Does (stepped width (option_map where_of place) step self.old.position.routine next target self.old.accumulator (words_of self.old)) answer self.old self.new result }
    {
        match place {
            None => Err(Stop::Bad),
            Some(place) => {
                let sum = sum(self.accumulator, step);
                let low = width.low(sum);
                let value = with_low(width, self.accumulator, sum);
                let index = if low < step { next } else { target };
                Ok(self.touch(index, value, Access::Write(width, place, low)))
            }
        }
    }

    // On by the case that the accumulator counts, or past all cases.
    fn choose(
        &mut self,
        all: &[Instruction],
        next: usize,
        count: usize,
        answer: u16,
    ) -> Result<Step, Stop>
        ensures { Does (if nat_lt self.old.accumulator count then switched (slice_get all.now (next + self.old.accumulator)) self.old.position.routine (next + suc self.old.accumulator) self.old.accumulator (words_of self.old) else Silent (At self.old.position.routine (next + count) self.old.accumulator (words_of self.old))) answer self.old self.new result }
    {
        let value = usize::from(self.accumulator);
        if count <= value {
            return self.ahead(next, count, answer);
        }
        let Some(entry) = next.checked_add(value) else {
            return Err(Stop::Memory);
        };
        match case_at(all, entry) {
            None => Err(Stop::Bad),
            Some(length) => self.ahead(entry + 1, length, answer),
        }
    }

    // The access that an instruction makes.
    fn access(&self, ram_objects: RamObjects<'_>, instruction: Instruction) -> Option<Access>
        ensures { (all : List Instruction) (next : ℕ) → option_map access_of result ≡ access_in (run ram_objects.entry.offsets.now ram_objects.entry.sizes.now all instruction self.now.position.routine next self.now.accumulator (words_of self.now)) }
    {
        let value = self.accumulator;
        match instruction {
            Instruction::Load(width, place) => read(width, ram_objects.reached(width, place, 0)),
            Instruction::LoadAt(width, place) => read(
                width,
                ram_objects.reached(width, place, value),
            ),
            Instruction::LoadThere(width) => read(width, ram_objects.held(width, value)),
            Instruction::BinaryPlain(_, _, width, place) => {
                read(width, ram_objects.reached(width, place, 0))
            }
            Instruction::Store(width, place) => {
                written(width, ram_objects.reached(width, place, 0), value)
            }
            Instruction::StoreAt(width, place) => {
                self.written_top(width, ram_objects.reached(width, place, value))
            }
            Instruction::StoreThere(width) => self.written_top(
                width,
                ram_objects.held(width, value),
            ),
            Instruction::StoreTop(width, place) => {
                self.written_top(width, ram_objects.reached(width, place, 0))
            }
            Instruction::StoreConstantAt(width, place, constant) => {
                written(width, ram_objects.reached(width, place, value), constant)
            }
            Instruction::Send(width) => match self.value_on_top() {
                None => None,
                Some(top) => Some(Access::Output(width, value, width.low(u32::from(top)))),
            },
            Instruction::SendTo(width, port) => {
                let low = width.low(u32::from(value));
                Some(Access::Output(width, port, low))
            }
            Instruction::Receive(width) => Some(Access::Input(width, value)),
            Instruction::ReceiveFrom(width, port) => Some(Access::Input(width, port)),
            Instruction::Low(low, _) => self.access_low(ram_objects, low),
            Instruction::AheadUnless(test, _) => read_by(ram_objects, test),
            Instruction::BackUnless(test, _) => read_by(ram_objects, test),
            Instruction::Next(width, place, step, _) => {
                written_sum(width, ram_objects.reached(width, place, 0), value, step)
            }
            Instruction::Constant(_)
            | Instruction::Locate(_)
            | Instruction::LocateAt(_)
            | Instruction::Push
            | Instruction::Pick(_)
            | Instruction::Drop(_)
            | Instruction::Unary(_, _)
            | Instruction::Binary(_, _)
            | Instruction::BinaryConstant(_, _, _)
            | Instruction::Ahead(_)
            | Instruction::Back(_)
            | Instruction::Switch(_)
            | Instruction::Case(_)
            | Instruction::Invoke(_)
            | Instruction::Leave
            | Instruction::Enable
            | Instruction::Disable
            | Instruction::Halt
            | Instruction::Finish => None,
        }
    }

    // The write of the value on top where there may be no place.
    fn written_top(&self, width: Width, place: Option<Place>) -> Option<Access>
        ensures { (k : ℕ → Target) → option_map access_of result ≡ access_in (with_value (value_on_top (words_of self.now)) (λ v. stored width (option_map where_of place) v (k v))) }
    {
        match self.value_on_top() {
            None => None,
            Some(value) => written(width, place, value),
        }
    }

    // What an instruction does, where the next one has this index. A case is no instruction of its own.
    fn make(
        &mut self,
        ram_objects: RamObjects<'_>,
        all: &[Instruction],
        instruction: Instruction,
        next: usize,
        answer: u16,
    ) -> Result<Step, Stop>
        ensures { Does (run ram_objects.entry.offsets.now ram_objects.entry.sizes.now all.now instruction self.old.position.routine next self.old.accumulator (words_of self.old)) answer self.old self.new result }
    {
        let value = self.accumulator;
        match instruction {
            Instruction::Constant(constant) => Ok(self.go_on(next, constant)),
            Instruction::Locate(place) => Ok(self.go_on(next, ram_objects.address(place, 0))),
            Instruction::LocateAt(place) => Ok(self.go_on(next, ram_objects.address(place, value))),
            Instruction::Low(low, high) => self.make_low(ram_objects, low, high, next, answer),
            Instruction::Push => self.push(next, Word::Value(value), answer),
            Instruction::Pick(above) => self.operate(next, self.picked(above), answer),
            Instruction::Drop(count) => self.discard(next, count, answer),
            Instruction::Unary(operation, width) => {
                Ok(self.go_on(next, operation.value(width, value)))
            }
            Instruction::Binary(operation, width) => self.apply(next, operation, width, answer),
            Instruction::BinaryConstant(operation, width, right) => {
                self.operate(next, operation.value(width, value, right), answer)
            }
            Instruction::Enable => {
                self.go_on(next, value);
                Ok(Step::Enable)
            }
            Instruction::Disable => {
                self.go_on(next, value);
                Ok(Step::Disable)
            }
            Instruction::Halt => {
                self.go_on(next, value);
                Ok(Step::Halt)
            }
            Instruction::Load(width, place) => {
                self.load(next, width, ram_objects.reached(width, place, 0), answer)
            }
            Instruction::LoadAt(width, place) => {
                self.load(
                    next,
                    width,
                    ram_objects.reached(width, place, value),
                    answer,
                )
            }
            Instruction::LoadThere(width) => {
                self.load(next, width, ram_objects.held(width, value), answer)
            }
            Instruction::BinaryPlain(operation, width, read, place) => {
                let found = ram_objects.reached(read, place, 0);
                self.apply_read(next, operation, width, read, found, answer)
            }
            Instruction::Store(width, place) => {
                self.store(next, width, ram_objects.reached(width, place, 0), answer)
            }
            Instruction::StoreAt(width, place) => {
                self.store_top(
                    next,
                    width,
                    ram_objects.reached(width, place, value),
                    answer,
                )
            }
            Instruction::StoreThere(width) => {
                self.store_top(next, width, ram_objects.held(width, value), answer)
            }
            Instruction::StoreTop(width, place) => {
                self.store_below(next, width, ram_objects.reached(width, place, 0), answer)
            }
            Instruction::StoreConstantAt(width, place, constant) => self.store_constant(
                next,
                width,
                ram_objects.reached(width, place, value),
                constant,
                answer,
            ),
            Instruction::Send(width) => self.send(next, width, answer),
            Instruction::SendTo(width, port) => self.send_to(next, width, port, answer),
            Instruction::Receive(width) => self.receive(next, width, value, answer),
            Instruction::ReceiveFrom(width, port) => self.receive(next, width, port, answer),
            Instruction::Ahead(count) => self.ahead(next, count, answer),
            Instruction::AheadUnless(test, count) => match next.checked_add(count) {
                None => Err(Stop::Memory),
                Some(target) => self.jump(ram_objects, test, next, target, answer),
            },
            Instruction::Back(count) => {
                Ok(self.go_on(next.saturating_sub(count), self.accumulator))
            }
            Instruction::BackUnless(test, count) => {
                self.jump(ram_objects, test, next, next.saturating_sub(count), answer)
            }
            Instruction::Next(width, place, step, count) => {
                let found = ram_objects.reached(width, place, 0);
                let target = next.saturating_sub(count);
                self.count(width, found, step, next, target, answer)
            }
            Instruction::Switch(count) => self.choose(all, next, count, answer),
            Instruction::Invoke(procedure) => self.invoke(next, procedure, answer),
            Instruction::Leave => self.leave(answer),
            Instruction::Finish => {
                if self.words.is_empty() {
                    Err(Stop::Over)
                } else {
                    Err(Stop::Bad)
                }
            }
            Instruction::Case(_) => Err(Stop::Bad),
        }
    }
}

impl<'a> Machine<'a> {
    /// Main's first place, with no words on the stack, over objects that lie so.
    pub fn new(alloc: Global, code: &'a Code, ram_objects: RamObjects<'a>) -> Machine<'a>
        ensures context { shown result.context ≡ At routine.Main 0 0 [] }
        ensures code { result.code ≡ code.entry }
        ensures ram_objects { result.ram_objects ≡ ram_objects.entry }
    {
        Machine {
            code,
            ram_objects,
            context: Context {
                position: Position {
                    routine: Routine::Main,
                    index: 0,
                },
                accumulator: 0,
                words: Vec::new(alloc),
            },
        }
    }

    /// The access that the next step makes.
    pub fn access(&self) -> Option<Access>
        ensures { option_map access_of result ≡ access_in (action_of self.now) }
    {
        let Position { routine, index } = self.context.position;
        match self.code.instructions(routine).get(index) {
            None => None,
            Some(instruction) => self.context.access(self.ram_objects, *instruction),
        }
    }

    /// Makes the next step. If it reads, the answer is what is read, of which the low bits of its width count.
    ///
    /// # Errors
    ///
    /// `Over` where an interrupt procedure is used up, `Bad` where the step would be a Bad one, `Memory` where a growth of memory
    /// was refused; the context is then unchanged.
    pub fn step(&mut self, answer: u16) -> Result<Step, Stop>
        ensures does { Does (action_of self.old) answer self.old.context self.new.context result }
        ensures code { self.new.code ≡ self.old.code }
        ensures ram_objects { self.new.ram_objects ≡ self.old.ram_objects }
    {
        let Position { routine, index } = self.context.position;
        let all = self.code.instructions(routine);
        match all.get(index) {
            None => Err(Stop::Bad),
            Some(instruction) => {
                self.context
                    .make(self.ram_objects, all, *instruction, index + 1, answer)
            }
        }
    }
}
