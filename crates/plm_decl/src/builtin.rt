//! The built-in procedures: their names are not reserved.

ghost use Rattle.std.specs.Prelude.{◌≡◌, bytes_eq, find};
ghost use Rattle.plm_decl.specs.Builtin.{builtin_named, spelling};

/// A built-in procedure.
#[derive(Clone, Copy)]
pub enum Builtin {
    Length,
    Last,
    Size,
    Low,
    High,
    Double,
    ShiftLeft,
    ShiftRight,
    RotateLeft,
    RotateRight,
    Input,
    InputWord,
    Output,
    OutputWord,
    Signed,
    Unsigned,
}

static BUILTINS: [Builtin; 16] = [
    Builtin::Length,
    Builtin::Last,
    Builtin::Size,
    Builtin::Low,
    Builtin::High,
    Builtin::Double,
    Builtin::ShiftLeft,
    Builtin::ShiftRight,
    Builtin::RotateLeft,
    Builtin::RotateRight,
    Builtin::Input,
    Builtin::InputWord,
    Builtin::Output,
    Builtin::OutputWord,
    Builtin::Signed,
    Builtin::Unsigned,
];

impl Builtin {
    /// Its name, in normal form.
    pub fn spelling(self) -> &'static [u8]
        ensures { result.now ≡ spelling self }
    {
        match self {
            Builtin::Length => b"LENGTH",
            Builtin::Last => b"LAST",
            Builtin::Size => b"SIZE",
            Builtin::Low => b"LOW",
            Builtin::High => b"HIGH",
            Builtin::Double => b"DOUBLE",
            Builtin::ShiftLeft => b"SHL",
            Builtin::ShiftRight => b"SHR",
            Builtin::RotateLeft => b"ROL",
            Builtin::RotateRight => b"ROR",
            Builtin::Input => b"INPUT",
            Builtin::InputWord => b"INWORD",
            Builtin::Output => b"OUTPUT",
            Builtin::OutputWord => b"OUTWORD",
            Builtin::Signed => b"SIGNED",
            Builtin::Unsigned => b"UNSIGN",
        }
    }

    /// The built-in of a name in normal form.
    #[tactic(auto, unfolding(crate::specs::Builtin::builtin_named))]
    pub fn named(name: &[u8]) -> Option<Builtin>
        ensures { result ≡ builtin_named name.now }
    {
        among(name, &BUILTINS)
    }
}

fn among(name: &[u8], builtins: &[Builtin]) -> Option<Builtin>
    ensures { result ≡ find (λ b. bytes_eq name.now (spelling b)) builtins.now }
{
    for builtin in builtins {
        if name == builtin.spelling() {
            return Some(*builtin);
        }
    }
    None
}
