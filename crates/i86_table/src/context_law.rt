//! A context's registers in the processor.

ghost use Rattle.i86_table.specs.ContextLaw.{ContextRegisters};

/// The laws that a context's registers are the processor's, whatever the place and the stack pointer: what is read of one is read
/// of the other, and what is set in one is set in the other and changes no flag. They rule out a context with a register of its
/// own, and an instruction whose effect on its registers depends on where it stands or on how much the stack holds.
pub fn context_laws()
    ensures { ContextRegisters }
{}
