//! Types: which programs are typed, and what they do with types known and names as places.
#![tactic(auto)]

mod applications;
mod builtins;
mod calls;
mod checked;
mod checking;
mod effects;
mod expressions;
mod handlers;
mod interrupts;
mod laws;
mod numbers;
mod order;
mod procedures;
mod program;
mod reach;
mod references;
mod shapes;
mod sharing;
mod statements;
mod steps;
mod typer;
mod types;

pub use applications::variable_type;
pub use builtins::{
    arity, builtin_type, is_measure, is_target, may_be_arguments, port_type, wanted_arguments,
};
pub use checked::Program;
pub use checking::{check, type_faults};
pub use laws::trees_have_their_lists;
pub use numbers::Numbers;
pub use program::{
    Anchor, Counting, Expression, Line, Loop, Operation, Procedure, Reference, Scalar, Statement,
    Subscript, Target,
};
pub use references::{location_type, measure};
pub use shapes::designated;
pub use sharing::{Warning, warnings};
pub use types::{
    binary_type, is_bitwise, is_equality, is_integer, is_relation, may_be_number, may_count,
    number_type, operands_fit, result_type, takes, text_type, unary_fits, unary_type,
};
pub use word86::Place;
