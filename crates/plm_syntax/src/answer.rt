//! A module's tree from its tokens.

ghost use Rattle.std.specs.Prelude.{◌≡◌, ◌≤◌, ℕ, List, length, Ok, Err, IfOk, IfErr, IfSome, IfNone};
ghost use Rattle.word86.specs.declared.fault.Fault.TheVariants.{At};
ghost use Rattle.plm_token.specs.declared.token.Keyword.TheVariants.{Procedure};
ghost use Rattle.plm_syntax.specs.declared.tree.Position.{Position};
ghost use Rattle.plm_syntax.specs.Terminal.{is_key};
ghost use Rattle.plm_token.specs.Scanner.{lexemes};
ghost use Rattle.plm_syntax.specs.Literals.{expanded};
ghost use Rattle.plm_syntax.specs.Answer.{Answers};
ghost use Rattle.plm_syntax.specs.Faults.{line_from, terminal_of, tokens_from, opening_token};
ghost use Rattle.plm_syntax.specs.Inner.Answer.{refusal_at, deep_at, fault_of, LeftIn};

use crate::cursor::Cursor;
use crate::failure::Failure;
use crate::literals::expand;
use crate::statement::module;
use crate::tree::Module;
use plm_token::{Keyword, Kind, Token};
use std::alloc::Global;
use word86::{Fault, Number};

/// The line of the token of this number; the end of the text has that of the last token, 1 if there is none.
fn line_at(tokens: &[Token<'_>], number: usize) -> u32
    ensures { result ≡ line_from 1 (lexemes tokens.now) number }
{
    let mut line = 1;
    for (at, token) in tokens.iter().enumerate() {
        line = token.line;
        if at == number {
            return line;
        }
    }
    line
}

/// The number of the token that a level too deep is put down to: a procedure's name stands two before the word PROCEDURE.
fn opening(tokens: &[Token<'_>], number: usize) -> usize
    ensures { result ≡ opening_token (tokens_from 0 (lexemes tokens.now)) number }
{
    match tokens.get(number) {
        Some(token) => {
            if is_procedure(token.kind) {
                number.saturating_sub(2)
            } else {
                number
            }
        }
        None => number,
    }
}

fn is_procedure(kind: Kind) -> bool
    ensures { (text : List ℕ) (p : Position) → result ≡ is_key Procedure (terminal_of kind text p) }
{
    matches!(kind, Kind::Reserved(Keyword::Procedure))
}

/// The fault of the token after which `left` tokens are left, the end of the text counted; at the end that of the replacement comes first.
fn refusal(tokens: &[Token<'_>], left: usize, stop: Option<(Number, u32)>) -> Fault
    requires { left ≤ length tokens.now }
    ensures { result ≡ refusal_at (lexemes tokens.now) left stop }
{
    match (left, stop) {
        (0, Some((number, line))) => Fault::At(0, line, number),
        _ => Fault::At(0, line_at(tokens, tokens.len() - left), Number::E201),
    }
}

/// The same of the token that opens the first level too deep.
fn depth_fault(tokens: &[Token<'_>], left: usize, stop: Option<(Number, u32)>) -> Fault
    requires { left ≤ length tokens.now }
    ensures { result ≡ deep_at (lexemes tokens.now) left stop }
{
    match (left, stop) {
        (0, Some((number, line))) => Fault::At(0, line, number),
        _ => Fault::At(
            0,
            line_at(tokens, opening(tokens, tokens.len() - left)),
            Number::E203,
        ),
    }
}

/// The fault for which there is no tree.
fn fault(failure: Failure, tokens: &[Token<'_>], stop: Option<(Number, u32)>) -> Fault
    requires { LeftIn failure (length tokens.now) }
    ensures { result ≡ fault_of failure (lexemes tokens.now) stop }
{
    match failure {
        Failure::Memory => Fault::Memory,
        Failure::Refused(left) => refusal(tokens, left, stop),
        Failure::Deep(left) => depth_fault(tokens, left, stop),
    }
}

/// What was read of these tokens, unless their replacement stopped, or the fault for which nothing was read.
fn answered<T: Drop>(
    read: Result<T, Failure>,
    tokens: &[Token<'_>],
    stop: Option<(Number, u32)>,
) -> Result<T, Fault>
    requires { IfErr read (λ f. LeftIn f (length tokens.now)) }
    ensures tree { IfOk read (λ t. IfNone stop (result ≡ Ok t)) }
    ensures stop { IfOk read (λ t. IfSome stop (λ s. result ≡ Err (At 0 s.1 s.0))) }
    ensures failure { IfErr read (λ f. result ≡ Err (fault_of f (lexemes tokens.now) stop)) }
{
    match read {
        Ok(tree) => match stop {
            None => Ok(tree),
            Some((number, line)) => Err(Fault::At(0, line, number)),
        },
        Err(failure) => Err(fault(failure, tokens, stop)),
    }
}

/// The tree of a module's tokens, literals replaced, or its first fault: E201 to E205, or a fault in a literal's text, E101, E103, E104 or E105.
pub fn parse<'a>(alloc: Global, tokens: Vec<Token<'a>>) -> Result<Module<'a>, Fault>
    ensures { Answers result (expanded (lexemes tokens.entry.items)) }
{
    let expansion = expand(alloc, tokens)?;
    let out = expansion.tokens.as_slice();
    let start = Cursor {
        tokens: out,
        number: 0,
    };
    answered(module(alloc, start), out, expansion.stop)
}
