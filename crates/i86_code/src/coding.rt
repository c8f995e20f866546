//! From bytes to an instruction and back: decoding takes every form of the table, encoding writes the best one.

ghost use Rattle.std.specs.Prelude.{◌≡◌, ◌≤◌, ◌++◌, ℕ, List, IfSome, IfNone, take, length, Some};
ghost use Rattle.i86_code.specs.Forms.{Spells};
ghost use Rattle.i86_code.specs.Writing.{WritesBest, bytes_of};
ghost use Rattle.i86_code.specs.Decoding.{decoded};
ghost use Rattle.i86_code.specs.Coding.{DecodedSpells, IsOneForm, IsShort};
ghost use Rattle.i86_code.specs.Widths.{DecodedHasWidths};

use crate::form::Form;
use crate::ranges::instruction_fits;
use arrayvec::ArrayVec;
use i86_table::{Instr, pair_laws};

// As `decode`, by the definition that computes: a form is read, and then what instruction it is.
#[tactic(auto, unfolding(crate::specs::Decoding::decoded))]
fn decode_front(bytes: &[u8]) -> Option<(Instr, usize)>
    ensures exact { result ≡ decoded bytes.now }
    ensures within { IfSome result (λ d. d.1 ≤ length bytes.now) }
{
    let (form, rest) = Form::read(bytes)?;
    let instruction = form.instruction()?;
    Some((instruction, bytes.len() - rest.len()))
}

/// The instruction at the front of the bytes and its length in bytes; `None` exactly where no form of the table begins the bytes.
pub fn decode(bytes: &[u8]) -> Option<(Instr, usize)>
    ensures found { IfSome result (λ d. Spells (take d.1 bytes.now) d.0) }
    ensures none { IfNone result ((front rest : List ℕ) (i : _) → Spells front i → bytes.now ≡ front ++ rest → ⊥) }
    ensures exact { result ≡ decoded bytes.now }
    ensures within { IfSome result (λ d. d.1 ≤ length bytes.now) }
{
    decode_front(bytes)
}

/// The bytes of an instruction in its best form: the shortest, without needless prefixes, the segment prefix first, the accumulator's
/// form before a short number's, and the target in the register field between two registers.
pub fn encode(instruction: &Instr) -> ArrayVec<u8, 8>
    ensures best { WritesBest result.items instruction.now }
    ensures bytes { result.items ≡ bytes_of instruction.now }
{
    instruction_fits(*instruction);
    pair_laws();
    let form = Form::of(*instruction);
    form.bytes()
}

/// The law that what is written for an instruction is read again, whatever follows it.
pub fn round_trip(instruction: Instr, rest: &[u8])
    ensures { decoded (bytes_of instruction ++ rest.now) ≡ Some (instruction, length (bytes_of instruction)) }
{
    instruction_fits(instruction);
    pair_laws();
}

/// The laws that what spells an instruction is decoded so, whatever follows it, and that no form is longer than eight bytes.
#[tactic(auto, using(crate::proofs::Sizes::is_short))]
pub fn one_form()
    ensures only { IsOneForm }
    ensures short { IsShort }
{}

/// The law that what is decoded from bytes is spelt by those bytes: as many as its length says, at least one, and none past
/// their end. With `one_form` it says that `decode` is exact both ways.
pub fn decoded_spells()
    ensures { DecodedSpells }
{}

/// The law that the immediate operands of what is decoded from bytes have their widths: below 256 with a byte operation, below
/// 65,536 with a word operation.
pub fn decoded_widths()
    ensures { DecodedHasWidths }
{}
