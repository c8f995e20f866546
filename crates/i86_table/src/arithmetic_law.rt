//! Laws of the arithmetic, in terms of numbers with sign, powers of two, quotients and remainders.

ghost use Rattle.i86_table.specs.FlagLaws.{ArithmeticLeavesControl};
ghost use Rattle.i86_table.specs.ArithmeticLaw.{OverflowLaws, ShiftLaws, RotationLaws, ProductLaws, QuotientLaws};

/// The law that OF is set exactly where a result with sign leaves the range of its width.
pub fn overflow_laws()
    ensures { OverflowLaws }
{}

/// The laws that a shift multiplies or divides by a power of two, and which bit CF is.
pub fn shift_laws()
    ensures { ShiftLaws }
{}

/// The laws that a rotation turns the bits round, and which bit CF is.
pub fn rotation_laws()
    ensures { RotationLaws }
{}

/// The laws that MUL and IMUL multiply, and when CF and OF are set.
pub fn product_laws()
    ensures { ProductLaws }
{}

/// The laws that DIV and IDIV divide, and when they are a fault.
pub fn quotient_laws()
    ensures { QuotientLaws }
{}

/// The law that arithmetic changes the status flags alone: TF, IF and DF are as they were, and no bit comes up that is no flag's.
/// It rules out a sum, a test or a shift that lets interrupts in, keeps them off or turns strings round.
pub fn control_flags_law()
    ensures { ArithmeticLeavesControl }
{}
