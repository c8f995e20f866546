//! What a routine is.

/// What a routine is, which decides how it ends: main; a procedure that is called and gives no value; one that gives a value; one that
/// serves a vector.
#[derive(Clone, Copy, PartialEq, Eq)]
pub enum Kind {
    OfMain,
    Called,
    Giving,
    Serving,
}
