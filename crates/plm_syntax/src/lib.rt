//! The parser of PL/M-86: a module's tree from its tokens, or its first fault.
//!
//! `parse` replaces literals (`literals`), reads the tree by recursive descent (`statement`, `declaration`, `expression` over the
//! `cursor`), and answers the tree or the least fault. Its contract speaks of trees, of the tokens that spell them, and of literals
//! replaced; that no two trees are spelled alike is the law `spell_once`, and that the literals replaced at a token are those that are
//! declared before it in the blocks around it is `literals_in_force`.
#![tactic(auto)]

mod answer;
mod cursor;
mod declaration;
mod expression;
mod failure;
mod known;
mod laws;
mod literals;
mod name;
mod named_token;
mod names;
mod open_blocks;
mod operator;
mod parts;
mod reading;
mod scope;
mod statement;
mod tree;

pub use answer::parse;
pub use laws::{literals_in_force, spell_once};
pub use literals::{Expansion, expand};
pub use tree::{
    At, Attributes, Basic, BinaryOperator, Block, Bounds, Declared, Dimension, Element, Expression,
    Initial, Item, Linkage, Location, LocationForm, Member, MemberNames, Module, Name, Numeral,
    Operation, Position, Procedure, Reference, Scalar, Selector, Statement, Text, UnaryOperator,
    Value, Variable, VariableType,
};
