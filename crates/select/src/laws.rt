//! What the instructions promise.

ghost use Rattle.select.specs.Cases.{CasesComeSoon};
ghost use Rattle.select.specs.Promise.{InstructionsFollow};
ghost use Rattle.select.specs.Room.{PartsHaveRoom, ProgramsHaveRoom};
ghost use Rattle.select.specs.Saved.{UnservedChangesNone, RegistersAreCounted};

use i86_table::{flag_laws, inverse_law, pair_laws, rotation_laws, shift_laws, signed_laws};

/// Where the steps of each routine of the intermediate code stand at their places, main's instructions follow main's code, and
/// each interrupt procedure's its procedure: at most 20 instructions without a step, no more words on the stack than are counted,
/// and an interrupt procedure gives back each register.
pub fn instructions_follow_code()
    ensures { InstructionsFollow }
{
    inverse_law();
    flag_laws();
    pair_laws();
    rotation_laws();
    shift_laws();
    signed_laws();
}

/// With a DO CASE's value in AX, whatever the number of cases: five instructions lead to the first one of the case that it chooses,
/// and at most three past the table where there is none. They make no access and no other action, and change BX and the flags alone.
pub fn cases_come_soon()
    ensures { CasesComeSoon }
{
    inverse_law();
    flag_laws();
    pair_laws();
    rotation_laws();
    shift_laws();
    signed_laws();
}

/// A part has at most the bytes that its routine's instructions take, and 5.
pub fn parts_have_room()
    ensures { PartsHaveRoom }
{}

/// The parts of a program have together at most the bytes that main's and its procedures' instructions take, 5 for each of these
/// routines, and 11.
pub fn programs_have_room()
    ensures { ProgramsHaveRoom }
{}

/// The routine for vectors without a procedure changes no register.
pub fn unserved_changes_none()
    ensures { UnservedChangesNone }
{}

/// An interrupt procedure pushes a word for each register that is counted.
pub fn registers_are_counted()
    ensures { RegistersAreCounted }
{}
