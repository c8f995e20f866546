//! What the code of a program does.

ghost use Rattle.lower.specs.Checked.{CheckedLaw, SoundLaw};
ghost use Rattle.lower.specs.Heights.{HeightLaw};
ghost use Rattle.lower.specs.Lowering.{EntryLaw};
ghost use Rattle.lower.specs.Room.{RoomLaw};
ghost use Rattle.lower.specs.Runs.{RunsLaw};
ghost use Rattle.lower.specs.Tracking.{LoweringLaw};

/// The code of a well-formed program does what the program means, up to its first Bad step. Wherever the objects lie and whatever
/// happens to what is shared between two steps, main's code tracks main, and what serves a vector tracks that vector's procedure. At
/// most two instructions come without a step of the program.
pub fn lowering_tracks()
    ensures { LoweringLaw }
{}

/// The trees of a checked program are well formed: what is read or written at a fixed place lies in its object or in its page of the
/// screen, a variable's bytes do, a base is a word that does, and what is called has as many parameters as there are arguments and
/// serves no interrupt.
pub fn checked_trees_are_well_formed()
    ensures { CheckedLaw }
{}

/// The code of a well-formed program can be counted and selected: the number of pushed values is the same along every run, and none
/// is pushed after a jump or where one leads; jumps lead to instructions, cases stand after their `Switch`, and constants are words.
/// Main and a procedure call only those that their trees call, and none that serves an interrupt is called.
pub fn checked_code_is_sound()
    ensures { SoundLaw }
{}

/// Of a checked program whose trees are well formed, whatever is answered and wherever the objects lie: main's code is never used up.
/// What an interrupt enters comes to no ENABLE or HALT, in what it calls either, and is used up only in the procedure that was entered.
pub fn checked_runs_are_allowed()
    ensures { RunsLaw }
{}

/// The code of a checked program whose trees are well formed takes at most 23 bytes of a ROM for each node of the program, and 5 for
/// main's end; 12 bytes for each procedure are left of that.
pub fn code_has_room()
    ensures { RoomLaw }
{}

/// Wherever values are pushed in a program's code, they are fewer than the constants and references that a statement of the program
/// has, without the statements inside it.
pub fn heights_are_low()
    ensures { HeightLaw }
{}

/// An interrupt enters the same procedure in the code as in what the program means, and that one serves a vector.
pub fn interrupts_enter_their_procedures()
    ensures { EntryLaw }
{}
