//! The scanner of PL/M-86: a text's tokens, or its first fault.
#![tactic(auto)]

mod front;
mod keywords;
mod laws;
mod lengths;
mod letters;
mod numbers;
mod piece;
mod scanner;
mod strings;
mod token;

pub use laws::{front_is_longest, pieces_cover, pieces_in_order};
pub use letters::{is_normal, normal, same_name};
pub use scanner::{SOURCE_LIMIT, scan, scan_literal};
pub use strings::string_value;
pub use token::{Keyword, Kind, Mark, Token};
