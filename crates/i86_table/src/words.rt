//! That registers and words on the stack stay words.

ghost use Rattle.i86_table.specs.Words.{KeepsWords};

/// The law that what an instruction leaves in a context's registers and on its stack are words again, below 65,536. It asks that
/// immediate operands have their widths, as those of decoded instructions have.
pub fn instructions_keep_words()
    ensures { KeepsWords }
{}
