//! The numbers of faults, and their words.

ghost use Rattle.std.specs.Prelude.{◌≡◌};
ghost use Rattle.word86.specs.Number.{number_text};

/// The number of a fault, or of the one warning: E1xx in a text's bytes, E2xx in its grammar, E3xx in its names, E4xx in
/// its types, E5xx and E6xx where the program has no room, E7xx in a run.
#[derive(Debug, Clone, Copy, PartialEq, Eq)]
pub enum Number {
    E101,
    E102,
    E103,
    E104,
    E105,
    E106,
    E107,
    E201,
    E202,
    E203,
    E204,
    E205,
    E301,
    E302,
    E303,
    E304,
    E305,
    E306,
    E307,
    E308,
    E309,
    E310,
    E401,
    E402,
    E403,
    E404,
    E405,
    E406,
    E501,
    E601,
    E701,
    E702,
    E703,
    E704,
    E705,
    W1,
}

impl Number {
    /// The number and its words, as `E201 syntax`.
    pub fn text(self) -> &'static str
        ensures { result.now ≡ number_text self }
    {
        match self {
            Number::E101 => "E101 character",
            Number::E102 => "E102 string not closed",
            Number::E103 => "E103 comment not closed",
            Number::E104 => "E104 number",
            Number::E105 => "E105 identifier too long",
            Number::E106 => "E106 control refused",
            Number::E107 => "E107 source too long",
            Number::E201 => "E201 syntax",
            Number::E202 => "E202 literals nested too deep",
            Number::E203 => "E203 nested too deep",
            Number::E204 => "E204 apostrophe in a literal",
            Number::E205 => "E205 too many tokens",
            Number::E301 => "E301 undeclared name",
            Number::E302 => "E302 declared twice",
            Number::E303 => "E303 AT outside its object or the screen",
            Number::E304 => "E304 bad base",
            Number::E305 => "E305 initial values do not fit",
            Number::E306 => "E306 EXTERNAL without its PUBLIC",
            Number::E307 => "E307 two PUBLIC of one name",
            Number::E308 => "E308 no main module or more than one",
            Number::E309 => "E309 two procedures for one interrupt",
            Number::E310 => "E310 data past its room",
            Number::E401 => "E401 types",
            Number::E402 => "E402 number of arguments",
            Number::E403 => "E403 store to DATA",
            Number::E404 => "E404 recursion",
            Number::E405 => "E405 interrupt procedure reaches ENABLE or HALT",
            Number::E406 => "E406 interrupt procedure called, typed or with parameters",
            Number::E501 => "E501 stack past its room",
            Number::E601 => "E601 code past the ROM",
            Number::E701 => "E701 schedule line",
            Number::E702 => "E702 schedule order",
            Number::E703 => "E703 no STOP",
            Number::E704 => "E704 cannot write",
            Number::E705 => "E705 ROM length",
            Number::W1 => "W1 procedure shared with an interrupt procedure",
        }
    }
}
