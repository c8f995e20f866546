//! What a routine needs with all that it calls.

ghost use Rattle.std.specs.Prelude.{◌≡◌, ◌+◌, ◌^◌, ◌<◌, ℕ, slice_set};
ghost use Rattle.icode.specs.Heights.{after, after_low, after_right, called, popped};

use icode::{Instruction, LowByte, Registers, Right, Test};

/// The most words that are pushed, and the registers that can be changed.
#[derive(Clone, Copy)]
pub(crate) struct Need {
    pub(crate) words: u128,
    pub(crate) registers: Registers,
}

/// Keeps what a procedure needs.
#[tactic(auto, using(std::proofs::lemmas::List::set_past))]
pub(crate) fn keep(needs: &mut Vec<Need>, procedure: usize, need: Need)
    ensures { needs.new.items ≡ slice_set needs.old.items procedure need }
{
    if procedure < needs.len() {
        needs[procedure] = need;
    }
}

impl Need {
    ghost use Rattle.frames.specs.Inner.Need.{nothing, both, met, need, need_at};

    /// Of what there is not.
    pub(crate) fn nothing() -> Need
        ensures { result ≡ nothing }
    {
        Need {
            words: 0,
            registers: Registers::none(),
        }
    }

    // What is enough for either. Where it stands in a loop, the compiler packs the registers bit by bit at each turn.
    #[inline(never)]
    fn and(self, other: Need) -> Need
        ensures { result ≡ both self other }
    {
        Need {
            words: self.words.max(other.words),
            registers: self.registers.joined(other.registers),
        }
    }

    /// Of the procedure of this number.
    pub(crate) fn at(needs: &[Need], procedure: usize) -> Need
        ensures { result ≡ need_at needs.now procedure }
    {
        match needs.get(procedure) {
            None => Need::nothing(),
            Some(need) => *need,
        }
    }

    // Of an instruction at which its routine has pushed `height` values.
    fn met(needs: &[Need], instruction: Instruction, height: usize) -> Need
        requires { (q : ℕ) → (need_at needs.now q).words + 2 ^ 64 < 2 ^ 128 }
        ensures { result ≡ met (need_at needs.now) instruction height }
    {
        match called(instruction) {
            Some(procedure) => {
                let called = Need::at(needs, procedure);
                Need {
                    words: height as u128 + 1 + called.words,
                    registers: called.registers,
                }
            }
            None => Need {
                words: height as u128,
                registers: instruction.changes(),
            },
        }
    }

    // The words alone of an instruction at which its routine has pushed `height` values.
    fn words_at(needs: &[Need], instruction: Instruction, height: usize) -> u128
        requires { (q : ℕ) → (need_at needs.now q).words + 2 ^ 64 < 2 ^ 128 }
        ensures { result ≡ (met (need_at needs.now) instruction height).words }
    {
        match called(instruction) {
            Some(procedure) => height as u128 + 1 + Need::at(needs, procedure).words,
            None => height as u128,
        }
    }

    /// The words alone of a routine with these instructions, where the procedures need this. They are all that is asked of main.
    pub(crate) fn words_of(needs: &[Need], instructions: &[Instruction]) -> u128
        requires { (q : ℕ) → (need_at needs.now q).words + 2 ^ 64 < 2 ^ 128 }
        ensures { result ≡ (need (need_at needs.now) 0 instructions.now).words }
    {
        let mut height = 0;
        let mut most = 0u128;
        for instruction in instructions {
            most = most.max(Need::words_at(needs, *instruction, height));
            height = height_after(*instruction, height);
        }
        most.max(height as u128)
    }

    /// Of a routine with these instructions, where the procedures need this.
    #[tactic(auto, using(crate::proofs::Needing::both_parts, crate::proofs::Needing::both_nothing))]
    pub(crate) fn of(needs: &[Need], instructions: &[Instruction]) -> Need
        requires { (q : ℕ) → (need_at needs.now q).words + 2 ^ 64 < 2 ^ 128 }
        ensures { result ≡ need (need_at needs.now) 0 instructions.now }
    {
        let mut height = 0;
        let mut so_far = Need::nothing();
        for instruction in instructions {
            so_far = so_far.and(Need::met(needs, *instruction, height));
            height = height_after(*instruction, height);
        }
        so_far.and(Need {
            words: height as u128,
            registers: Registers::none(),
        })
    }
}

// The number of the procedure that an instruction calls.
fn called(instruction: Instruction) -> Option<usize>
    ensures { result ≡ called instruction }
{
    match instruction {
        Instruction::Invoke(procedure) => Some(procedure),
        Instruction::Constant(_)
        | Instruction::Locate(_)
        | Instruction::LocateAt(_)
        | Instruction::Load(_, _)
        | Instruction::LoadAt(_, _)
        | Instruction::LoadThere(_)
        | Instruction::Low(_, _)
        | Instruction::Push
        | Instruction::Pick(_)
        | Instruction::Drop(_)
        | Instruction::Unary(_, _)
        | Instruction::Binary(_, _)
        | Instruction::BinaryConstant(_, _, _)
        | Instruction::BinaryPlain(_, _, _, _)
        | Instruction::Store(_, _)
        | Instruction::StoreAt(_, _)
        | Instruction::StoreThere(_)
        | Instruction::StoreTop(_, _)
        | Instruction::StoreConstantAt(_, _, _)
        | Instruction::Send(_)
        | Instruction::SendTo(_, _)
        | Instruction::Receive(_)
        | Instruction::ReceiveFrom(_, _)
        | Instruction::Ahead(_)
        | Instruction::AheadUnless(_, _)
        | Instruction::Back(_)
        | Instruction::BackUnless(_, _)
        | Instruction::Next(_, _, _, _)
        | Instruction::Switch(_)
        | Instruction::Case(_)
        | Instruction::Leave
        | Instruction::Enable
        | Instruction::Disable
        | Instruction::Halt
        | Instruction::Finish => None,
    }
}

// How many values a test takes.
fn popped(test: Test) -> usize
    ensures { result ≡ popped test }
{
    match test {
        Test::Top(_) | Test::Low(_, Right::Top) => 1,
        Test::Low(_, Right::Constant(_)) | Test::Low(_, Right::Plain(_)) => 0,
        Test::Odd | Test::Constant(_, _) | Test::Plain(_, _, _) => 0,
        Test::Named(_, _, _, _) | Test::OddNamed(_) => 0,
    }
}

// How many values of `height` are left once an operator has its right operand.
fn height_after_right(right: Right, height: usize) -> usize
    ensures { result ≡ after_right right height }
{
    match right {
        Right::Constant(_) | Right::Plain(_) => height,
        Right::Top => height.saturating_sub(1),
    }
}

// The same of what the low byte gets.
fn height_after_low(low: LowByte, height: usize) -> usize
    ensures { result ≡ after_low low height }
{
    match low {
        LowByte::Operate(_, right) => height_after_right(right, height),
        LowByte::Constant(_)
        | LowByte::Load(_)
        | LowByte::LoadAt(_)
        | LowByte::LoadThere
        | LowByte::Receive
        | LowByte::ReceiveFrom(_)
        | LowByte::High => height,
    }
}

/// How many values a routine has pushed after an instruction, of `height` before it.
pub fn height_after(instruction: Instruction, height: usize) -> usize
    requires { height + 1 < 2 ^ 64 }
    ensures { result ≡ after instruction height }
{
    match instruction {
        Instruction::Push => height + 1,
        Instruction::Drop(count) => height.saturating_sub(count),
        Instruction::Low(low, _) => height_after_low(low, height),
        Instruction::Binary(_, _)
        | Instruction::StoreAt(_, _)
        | Instruction::StoreThere(_)
        | Instruction::StoreTop(_, _)
        | Instruction::Send(_) => height.saturating_sub(1),
        Instruction::AheadUnless(test, _) | Instruction::BackUnless(test, _) => {
            height.saturating_sub(popped(test))
        }
        Instruction::Constant(_)
        | Instruction::Locate(_)
        | Instruction::LocateAt(_)
        | Instruction::Load(_, _)
        | Instruction::LoadAt(_, _)
        | Instruction::LoadThere(_)
        | Instruction::Pick(_)
        | Instruction::Unary(_, _)
        | Instruction::BinaryConstant(_, _, _)
        | Instruction::BinaryPlain(_, _, _, _)
        | Instruction::Store(_, _)
        | Instruction::StoreConstantAt(_, _, _)
        | Instruction::SendTo(_, _)
        | Instruction::Receive(_)
        | Instruction::ReceiveFrom(_, _)
        | Instruction::Ahead(_)
        | Instruction::Back(_)
        | Instruction::Next(_, _, _, _)
        | Instruction::Switch(_)
        | Instruction::Case(_)
        | Instruction::Invoke(_)
        | Instruction::Leave
        | Instruction::Enable
        | Instruction::Disable
        | Instruction::Halt
        | Instruction::Finish => height,
    }
}
