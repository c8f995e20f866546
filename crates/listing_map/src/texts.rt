//! Sources, as what explains their faults takes them.

/// A source: its file's name and its text, one module.
#[derive(Clone, Copy)]
pub struct NamedText<'a> {
    pub name: &'a str,
    pub text: &'a [u8],
}
