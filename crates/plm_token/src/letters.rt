//! Names and numbers in normal form: capitals, without dollar signs.

ghost use Rattle.std.specs.Prelude.{◌≡◌, ◌++◌, ◌<◌, [], length, option_to_list, IfOk, IfSome, IfNone, bytes_eq};
ghost use Rattle.plm_token.specs.Names.{capital, normal, names_equal};

use std::alloc::{AllocError, Global};

/// The characters of a name or a number in normal form, one after the other.
#[derive(Drop)]
pub struct Letters<'a> {
    rest: &'a [u8],
}

impl<'a> Letters<'a> {
    /// The characters of a spelling.
    pub fn new(text: &'a [u8]) -> Letters<'a>
        ensures { result.rest.now ≡ text.now }
    {
        Letters { rest: text }
    }

    /// The next character, if there is one.
    #[tactic(auto, unfolding(crate::specs::Names::normal))]
    pub fn next(&mut self) -> Option<u8>
        ensures value { normal self.old.rest.now ≡ option_to_list result ++ normal self.new.rest.now }
        ensures shorter { IfSome result (λ _. length self.new.rest.now < length self.old.rest.now) }
        ensures none { IfNone result (self.new.rest.now ≡ []) }
    {
        while let Some((first, rest)) = self.rest.split_first() {
            self.rest = rest;
            if *first != b'$' {
                return Some(capital(*first));
            }
        }
        None
    }
}

/// A letter as a capital; all else as it is.
fn capital(letter: u8) -> u8
    ensures { result ≡ capital letter }
{
    match letter {
        b'a'..=b'z' => letter - 32,
        _ => letter,
    }
}

/// A name in normal form: in capitals, without its dollar signs. Memory is its only error.
#[tactic(auto, unfolding(crate::specs::Names::normal))]
pub fn normal(alloc: Global, name: &[u8]) -> Result<Vec<u8>, AllocError>
    ensures { IfOk result (λ n. n.items ≡ normal name.now) }
{
    let mut letters = Vec::new(alloc);
    for letter in name {
        if *letter != b'$' {
            letters.push(capital(*letter))?;
        }
    }
    Ok(letters)
}

/// Whether two spellings are one name: case and dollar signs do not count.
#[tactic(auto, unfolding(crate::specs::Names::names_equal))]
pub fn same_name(a: &[u8], b: &[u8]) -> bool
    ensures { result ≡ names_equal a.now b.now }
{
    let mut left = Letters::new(a);
    let mut right = Letters::new(b);
    while let Some(letter) = left.next() {
        if right.next() != Some(letter) {
            return false;
        }
    }
    right.next().is_none()
}

/// Whether a spelling is this word, which is in normal form.
pub fn spells(text: &[u8], word: &[u8]) -> bool
    ensures { result ≡ bytes_eq (normal text.now) word.now }
{
    let mut letters = Letters::new(text);
    for letter in word {
        if letters.next() != Some(*letter) {
            return false;
        }
    }
    letters.next().is_none()
}

/// Whether a name is in normal form as it is written: in capitals, without dollar signs.
pub fn is_normal(name: &[u8]) -> bool
    ensures { result ≡ bytes_eq (normal name.now) name.now }
{
    spells(name, name)
}
