//! What a test expects: that a row holds. A row that holds is a function of it, which the prover walks far faster than `assert!` in a loop of
//! the test's own, as that has a branch and a printed text at each place.

use std::process::Abort;

/// Each row has to hold.
pub(crate) fn each<R, F: Fn(&R) -> bool>(rt: &impl Abort, rows: &[R], holds: F)
    requires { F.IsAlwaysCallable holds }
{
    for (number, row) in rows.iter().enumerate() {
        assert!(rt; holds(row), "row {number}");
    }
}
