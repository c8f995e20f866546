//! What the count of a program is at most.

ghost use Rattle.frames.specs.Limits.{StackIsBounded, SmallProgramsFit};

/// Where there is a limit to the words that a routine pushes, and one to the calls on a path from main and from what an interrupt
/// enters, what is counted is at most the sum along such paths.
pub fn stack_is_bounded()
    ensures { StackIsBounded }
{}

/// Where no routine pushes more than 193 words, and both paths together have at most 8 calls, `count` never answers E501.
pub fn small_programs_fit()
    ensures { SmallProgramsFit }
{}
