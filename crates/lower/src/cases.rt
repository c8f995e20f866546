//! DO CASE: a table of jumps, one to each case, and one over them all.

ghost use Rattle.std.specs.Prelude.{◌≡◌, ◌++◌, length, map, vec_items, IfOk, OnOk, IsOkUnless};
ghost use Rattle.lower.specs.Statements.{all_of, entries, switching};

use crate::put::{add, distance, put};
use icode::Instruction;
use word86::Fault;

type Instructions = Vec<Instruction>;

// The entries of the cases. It answers how long the cases are together.
fn enter(code: &mut Instructions, cases: &[Instructions]) -> Result<usize, Fault>
    ensures code { OnOk result (code.new.items ≡ code.old.items ++ entries 0 (map vec_items cases.now)) }
    ensures length { IfOk result (λ r. r ≡ length (all_of (map vec_items cases.now))) }
    ensures memory { IsOkUnless result Fault.Memory }
{
    let mut before = 0;
    for (k, case) in cases.iter().enumerate() {
        let over = distance(cases.len() - k, before)?;
        put(code, Instruction::Case(over))?;
        before = distance(before, case.len())?;
    }
    Ok(before)
}

// The cases, one after the other.
fn join(code: &mut Instructions, cases: &[Instructions]) -> Result<(), Fault>
    ensures code { OnOk result (code.new.items ≡ code.old.items ++ all_of (map vec_items cases.now)) }
    ensures memory { IsOkUnless result Fault.Memory }
{
    for case in cases {
        add(code, case)?;
    }
    Ok(())
}

/// What goes on at the case whose number is in the accumulator.
pub fn switch(code: &mut Instructions, cases: &[Instructions], exit: usize) -> Result<(), Fault>
    ensures code { OnOk result (code.new.items ≡ code.old.items ++ switching (map vec_items cases.now) exit) }
    ensures memory { IsOkUnless result Fault.Memory }
{
    put(code, Instruction::Switch(cases.len()))?;
    let all = enter(code, cases)?;
    put(code, Instruction::Ahead(distance(all, exit)?))?;
    join(code, cases)
}
