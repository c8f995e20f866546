//! What is done with the low byte of the accumulator.

ghost use Rattle.std.specs.Prelude.{◌≡◌, ℕ, List};
ghost use Rattle.std.specs.Option.{option_map};
ghost use Rattle.word86.specs.declared.width.Width.TheVariants as widths;
ghost use Rattle.word86.specs.Access.{Input};
ghost use Rattle.word86.specs.Action.{Touch};
ghost use Rattle.word86.specs.Place.{where_of, access_of};
ghost use Rattle.icode.specs.Machine.{At, loaded, run_low, by_right, jumped_low, settled, direct_value};
ghost use Rattle.icode.specs.Shown.{words_of, access_in, Does};

use crate::code::{Routine, Word};
use crate::instruction::{Direct, High, LowByte, Relation, Right};
use crate::machine::{Context, Step, Stop, read};
use crate::ram_objects::RamObjects;
use word86::{Access, Place, Width};

impl Right {
    /// The read that it makes.
    pub(crate) fn read(self, ram_objects: RamObjects<'_>) -> Option<Access>
        ensures tested { (relation : Relation) (routine : Routine) (next target accumulator : ℕ) (words : List Word) → option_map access_of result ≡ access_in (jumped_low ram_objects.entry.offsets.now ram_objects.entry.sizes.now relation self routine next target accumulator words) }
        ensures applied { (operation : Direct) (high : High) (routine : Routine) (next accumulator : ℕ) (words : List Word) → option_map access_of result ≡ access_in (by_right ram_objects.entry.offsets.now ram_objects.entry.sizes.now operation self high routine next accumulator words) }
    {
        match self {
            Right::Constant(_) | Right::Top => None,
            Right::Plain(place) => read(Width::Byte, ram_objects.reached(Width::Byte, place, 0)),
        }
    }
}

impl Direct {
    // Its value on bytes.
    fn value(self, left: u8, right: u8) -> u8
        ensures { result ≡ direct_value self left right }
    {
        match self {
            Direct::Add => left.wrapping_add(right),
            Direct::Subtract => left.wrapping_sub(right),
            Direct::And => left & right,
            Direct::Or => left | right,
            Direct::ExclusiveOr => left ^ right,
        }
    }
}

impl High {
    // A value with this low byte.
    fn settled(self, value: u16, low: u8) -> u16
        ensures { result ≡ settled self value low }
    {
        match self {
            High::Kept => value / 256 * 256 + u16::from(low),
            High::Cleared => u16::from(low),
        }
    }
}

impl Context {
    /// To the target unless low bytes stand in a relation.
    pub(crate) fn jump_low(
        &mut self,
        ram_objects: RamObjects<'_>,
        relation: Relation,
        right: Right,
        next: usize,
        target: usize,
        answer: u16,
    ) -> Result<Step, Stop>
        ensures { Does (jumped_low ram_objects.entry.offsets.now ram_objects.entry.sizes.now relation right self.old.position.routine next target self.old.accumulator (words_of self.old)) answer self.old self.new result }
    {
        let value = self.accumulator;
        match right {
            Right::Constant(right) => {
                let holds = relation.stands(value % 256, right % 256);
                Ok(self.branch(holds, next, target))
            }
            Right::Plain(place) => {
                let Some(place) = ram_objects.reached(Width::Byte, place, 0) else {
                    return Err(Stop::Bad);
                };
                self.branch(relation.stands(value % 256, answer % 256), next, target);
                Ok(Step::Touch(Access::Read(Width::Byte, place)))
            }
            Right::Top => {
                let Some(left) = self.value_on_top() else {
                    return Err(Stop::Bad);
                };
                self.remove(1);
                Ok(self.branch(relation.stands(left % 256, value % 256), next, target))
            }
        }
    }

    // The low byte gets what is read where there may be no place.
    fn load_low(
        &mut self,
        next: usize,
        high: High,
        place: Option<Place>,
        answer: u16,
    ) -> Result<Step, Stop>
        ensures { Does (loaded widths.Byte (option_map where_of place) (λ v. At self.old.position.routine next (settled high self.old.accumulator v) (words_of self.old))) answer self.old self.new result }
    {
        match place {
            None => Err(Stop::Bad),
            Some(place) => {
                let value = high.settled(self.accumulator, (answer % 256) as u8);
                Ok(self.touch(next, value, Access::Read(Width::Byte, place)))
            }
        }
    }

    // It gets what is read from a port.
    fn receive_low(&mut self, next: usize, high: High, port: u16, answer: u16) -> Result<Step, Stop>
        ensures { Does (Touch (Input widths.Byte port) (λ v. At self.old.position.routine next (settled high self.old.accumulator v) (words_of self.old))) answer self.old self.new result }
    {
        let value = high.settled(self.accumulator, (answer % 256) as u8);
        Ok(self.touch(next, value, Access::Input(Width::Byte, port)))
    }

    // It gets the value of operands.
    fn apply_low(
        &mut self,
        ram_objects: RamObjects<'_>,
        next: usize,
        operation: Direct,
        right: Right,
        high: High,
        answer: u16,
    ) -> Result<Step, Stop>
        ensures { Does (by_right ram_objects.entry.offsets.now ram_objects.entry.sizes.now operation right high self.old.position.routine next self.old.accumulator (words_of self.old)) answer self.old self.new result }
    {
        let value = self.accumulator;
        match right {
            Right::Constant(right) => {
                let result = operation.value((value % 256) as u8, (right % 256) as u8);
                Ok(self.go_on(next, high.settled(value, result)))
            }
            Right::Plain(place) => {
                let Some(place) = ram_objects.reached(Width::Byte, place, 0) else {
                    return Err(Stop::Bad);
                };
                let result = operation.value((value % 256) as u8, (answer % 256) as u8);
                let access = Access::Read(Width::Byte, place);
                Ok(self.touch(next, high.settled(value, result), access))
            }
            Right::Top => {
                let Some(left) = self.value_on_top() else {
                    return Err(Stop::Bad);
                };
                self.remove(1);
                let result = operation.value((left % 256) as u8, (value % 256) as u8);
                Ok(self.go_on(next, high.settled(left, result)))
            }
        }
    }

    /// Those on the low byte.
    pub(crate) fn make_low(
        &mut self,
        ram_objects: RamObjects<'_>,
        low: LowByte,
        high: High,
        next: usize,
        answer: u16,
    ) -> Result<Step, Stop>
        ensures { Does (run_low ram_objects.entry.offsets.now ram_objects.entry.sizes.now low high self.old.position.routine next self.old.accumulator (words_of self.old)) answer self.old self.new result }
    {
        let value = self.accumulator;
        match low {
            LowByte::Constant(constant) => {
                Ok(self.go_on(next, high.settled(value, (constant % 256) as u8)))
            }
            LowByte::Load(place) => {
                self.load_low(
                    next,
                    high,
                    ram_objects.reached(Width::Byte, place, 0),
                    answer,
                )
            }
            LowByte::LoadAt(place) => {
                let found = ram_objects.reached(Width::Byte, place, value);
                self.load_low(next, high, found, answer)
            }
            LowByte::LoadThere => {
                self.load_low(next, high, ram_objects.held(Width::Byte, value), answer)
            }
            LowByte::Receive => self.receive_low(next, high, value, answer),
            LowByte::ReceiveFrom(port) => self.receive_low(next, high, port, answer),
            LowByte::High => Ok(self.go_on(next, high.settled(value, (value / 256) as u8))),
            LowByte::Operate(operation, right) => {
                self.apply_low(ram_objects, next, operation, right, high, answer)
            }
        }
    }

    /// The access that is made for a low byte.
    pub(crate) fn access_low(&self, ram_objects: RamObjects<'_>, low: LowByte) -> Option<Access>
        ensures { (high : High) (next : ℕ) → option_map access_of result ≡ access_in (run_low ram_objects.entry.offsets.now ram_objects.entry.sizes.now low high self.now.position.routine next self.now.accumulator (words_of self.now)) }
    {
        let value = self.accumulator;
        match low {
            LowByte::Load(place) => read(Width::Byte, ram_objects.reached(Width::Byte, place, 0)),
            LowByte::LoadAt(place) => {
                read(Width::Byte, ram_objects.reached(Width::Byte, place, value))
            }
            LowByte::LoadThere => read(Width::Byte, ram_objects.held(Width::Byte, value)),
            LowByte::Receive => Some(Access::Input(Width::Byte, value)),
            LowByte::ReceiveFrom(port) => Some(Access::Input(Width::Byte, port)),
            LowByte::Operate(_, right) => right.read(ram_objects),
            LowByte::Constant(_) | LowByte::High => None,
        }
    }
}
