//! What stands between the layers of the compiler and the board; and which run of the language the meaning's is.

ghost use Rattle.plm86.specs.Cases.{CasesAreReachedSoon};
ghost use Rattle.plm86.specs.Inner.BoardLaws.{LawsBelow};
ghost use Rattle.plm86.specs.Laws.{FromLayers, FromRom, QuietFromRom};
ghost use Rattle.plm86.specs.Mean.{MeanLaw};
ghost use Rattle.plm86.specs.OneProgram.{TextsDeclareOneProgram};

use board::memory_laws;
use i86_code::{decoded_widths, one_form};
use i86_table::{context_laws, control_flags_law, flag_laws, instructions_keep_words};
use plm_syntax::spell_once;
use select::cases_come_soon;

/// The types of a compiler's layers: the states of the chips, the rests of a program's contexts, and the places of its
/// intermediate code.
pub trait Layers {
    ghost Ports: { Type 0 };

    ghost Rest: { Type 0 };

    ghost Place: { Type 0 };
}

/// The laws of the crates below on which the lift from contexts to the board rests.
pub(crate) fn laws_below()
    ensures { LawsBelow }
{
    context_laws();
    flag_laws();
    control_flags_law();
    memory_laws();
}

/// From the promises of the layers to what the board does.
///
/// If the intermediate code tracks the program's rests, the instructions follow the intermediate code, and start-up leads from
/// each power-on memory and all words in the general registers to main's first instruction, then, whatever events are due turn
/// by turn, the board's labels are those of an allowed run of the program, interrupts included. From the end of start-up on that
/// run makes a step in every 64 turns, and after each turn ROM and vectors stand, RAM, both pages of the screen and the chips are those
/// of the run's state, the segments are the program's, and the stack pointer is in its bounds. No turn comes to bytes that are no
/// instruction.
pub fn board_is_correct<L: Layers>()
    ensures { FromLayers L.Ports L.Rest L.Place }
{
    laws_below();
    decoded_widths();
    instructions_keep_words();
}

/// The same from the bytes of a ROM: they spell the code, and the code has a start-up that leaves the vectors and the
/// program's first store.
pub fn rom_is_correct<L: Layers>()
    ensures { FromRom L.Ports L.Rest L.Place }
{
    laws_below();
    one_form();
    decoded_widths();
    instructions_keep_words();
}

/// From the bytes of a ROM whose code has a start-up: whatever events are due, start-up makes no label but theirs, comes to no bytes
/// that are no instruction, leads to main's first instruction in the turns that are counted of its acts, and leaves each byte of RAM that
/// it does not set as it was when the power came on.
pub fn rom_starts_quietly<L: Layers>()
    ensures { QuietFromRom L.Ports }
{
    laws_below();
    one_form();
}

/// The labels of a meaning's run are those of a run that the language allows, choice by choice, and where it ends by a Bad step, that
/// step is next.
pub fn mean_is_allowed()
    ensures { MeanLaw }
{}

/// A DO CASE, wherever it stands in a program's code: with its value in AX, and whatever the number of its cases, at most 8 turns lead to
/// the first instruction of the case that the value chooses. The language comes to that case by silent steps alone. Where there is no
/// such case, at most 8 turns lead to what stands after the table, and the language is past the DO CASE.
pub fn cases_are_reached_soon()
    ensures { CasesAreReachedSoon }
{
    cases_come_soon();
}

/// What texts declare is one program. So whatever names a clause of `build` speaks of, they are alike, and no texts both fit and are
/// refused for the room that they take.
pub fn texts_declare_one_program()
    ensures { TextsDeclareOneProgram }
{
    spell_once();
}
