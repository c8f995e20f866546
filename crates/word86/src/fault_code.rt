//! The number of each fault, as a number.

ghost use Rattle.std.specs.Prelude.{◌≡◌};
ghost use Rattle.word86.specs.FaultCode.{code_of};

use crate::number::Number;

impl Number {
    /// Its place in the order of faults, 101 to 705; 999 for the one warning, which is none.
    pub fn code(self) -> u16
        ensures { result ≡ code_of self }
    {
        match self {
            Number::E101 => 101,
            Number::E102 => 102,
            Number::E103 => 103,
            Number::E104 => 104,
            Number::E105 => 105,
            Number::E106 => 106,
            Number::E107 => 107,
            Number::E201 => 201,
            Number::E202 => 202,
            Number::E203 => 203,
            Number::E204 => 204,
            Number::E205 => 205,
            Number::E301 => 301,
            Number::E302 => 302,
            Number::E303 => 303,
            Number::E304 => 304,
            Number::E305 => 305,
            Number::E306 => 306,
            Number::E307 => 307,
            Number::E308 => 308,
            Number::E309 => 309,
            Number::E310 => 310,
            Number::E401 => 401,
            Number::E402 => 402,
            Number::E403 => 403,
            Number::E404 => 404,
            Number::E405 => 405,
            Number::E406 => 406,
            Number::E501 => 501,
            Number::E601 => 601,
            Number::E701 => 701,
            Number::E702 => 702,
            Number::E703 => 703,
            Number::E704 => 704,
            Number::E705 => 705,
            Number::W1 => 999,
        }
    }
}
