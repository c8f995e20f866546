//! The literals of the open blocks, and the numbers of the names in their texts.

ghost use Rattle.std.specs.Prelude.{◌≡◌, ◌+◌, ◌^◌, ◌<◌, ◌≤◌, [], ◌∷◌, ◌++◌, true, false, length, map, take, drop, Some, OnOk, IfOk, IfErr, IfSome};
ghost use Rattle.std.specs.List.{All, slice_get};
ghost use Rattle.word86.specs.declared.fault.Fault.TheVariants.{Memory};
ghost use Rattle.plm_syntax.specs.Literals.{literal_for};
ghost use Rattle.plm_syntax.specs.Inner.NamedToken.{named_symbol};
ghost use Rattle.plm_syntax.specs.Inner.Names.{names_in};
ghost use Rattle.plm_syntax.specs.Inner.Scope.{literal_text, place_in, ArePlaced, AreFirst, IsNumbered, HaveNumbers, StandsAt, IsNumberAt, IsThere, first_named, literal_at, text_at};

use crate::named_token::{LiteralTokens, NamedToken};
use crate::names::{Names, is_identifier};
use std::alloc::Global;
use std::collections::HashMap;
use word86::Fault;

/// How many tokens of a text have one place for what is known of them.
pub(crate) const GRAIN: usize = 16;

/// How many names may be assumptions. Each is a bit of a word; the last bit has none.
pub(crate) const ASSUMPTIONS: usize = 63;

/// How many places the literals may have that assumptions stand for, as `base` is chosen.
const BEHIND: usize = 48;

/// A literal of an open block: the number of its name, whether no literal before it has that name, the numbers of the names in its text,
/// token by token, and how many places the literals before it have for what is known of their texts.
#[derive(Drop)]
pub struct Literal<'t, 'a> {
    pub name: &'t NamedToken<'a>,
    pub text: &'t LiteralTokens<'a>,
    pub number: Option<usize>,
    pub is_first: bool,
    pub numbers: Vec<Option<usize>>,
    pub place: usize,
}

/// The literals of the open blocks, the oldest first, and how many there were when each block began, the innermost last.
///
/// `places` has the place of the first literal of each name. What it says of a name whose literal went is void, so that a block's end need not touch it.
/// `latest` has the place of the latest literal of each number. It is a guess that the literal confirms: so it may say anything.
///
/// What is known of texts may rest on assumptions: that a name puts nothing out. `assumed` has their names, by number, each at its bit, and `bit_of` the bit
/// of each number, a guess that `assumed` confirms. The names of the oldest literals, `base` of them, are not assumed; `is_full` says that one behind them
/// found no bit.
#[derive(Drop)]
pub struct Scope<'t, 'a> {
    pub alloc: Global,
    pub literals: Vec<Literal<'t, 'a>>,
    pub places: HashMap<&'t [u8], usize>,
    pub starts: Vec<usize>,
    pub names: Names<'t, 'a>,
    pub latest: Vec<usize>,
    pub assumed: Vec<usize>,
    pub bit_of: Vec<usize>,
    pub base: usize,
    pub is_full: bool,
    ghost placed: { ArePlaced literals.items (place_in places) },
    ghost first: { AreFirst literals.items },
    ghost numbered: { All (λ l. IsNumbered (names_in names) l) literals.items },
}

/// The numbers of the names in a text, token by token.
fn numbers_of<'t, 'a>(
    alloc: Global,
    names: &mut Names<'t, 'a>,
    text: &'t [NamedToken<'a>],
) -> Result<Vec<Option<usize>>, Fault>
    ensures numbers { IfOk result (λ ns. HaveNumbers (names_in names.new) text.now ns.items) }
    ensures all { IfOk result (λ ns. length ns.items ≡ length text.now) }
    ensures kept { take (length (names_in names.old)) (names_in names.new) ≡ names_in names.old }
    ensures err { IfErr result (λ f. f ≡ Memory) }
{
    let mut numbers = Vec::with_capacity(alloc, text.len())?;
    for token in text {
        let number = names.number(token)?;
        numbers.push(number)?;
    }
    Ok(numbers)
}

/// Remembers something at a number, if there is one.
fn remember(table: &mut Vec<usize>, number: Option<usize>, what: usize) -> Result<(), Fault>
    ensures err { IfErr result (λ f. f ≡ Memory) }
{
    let Some(number) = number else {
        return Ok(());
    };
    if table.len() <= number {
        table.resize(number.saturating_add(1), 0)?;
    }
    if let Some(found) = table.get_mut(number) {
        *found = what;
    }
    Ok(())
}

/// Whether a number is this one.
fn is_number(found: Option<usize>, number: usize) -> bool
    ensures { result ≡ true → found ≡ Some number }
{
    match found {
        None => false,
        Some(found) => found == number,
    }
}

impl<'t, 'a> Scope<'t, 'a> {
    ghost use Rattle.plm_syntax.specs.Literals.{no_blocks, opened, closed, with_literal};
    ghost use Rattle.plm_syntax.specs.Inner.Scope.{WillBePlaced};
    ghost use Rattle.plm_syntax.specs.Inner.Literals.{blocks_in};

    /// No block, and no literal.
    pub(crate) fn new(alloc: Global) -> Self
        ensures { blocks_in result ≡ no_blocks }
    {
        Scope {
            alloc,
            literals: Vec::new(alloc),
            places: HashMap::new(alloc),
            starts: Vec::new(alloc),
            names: Names::new(alloc),
            latest: Vec::new(alloc),
            assumed: Vec::new(alloc),
            bit_of: Vec::new(alloc),
            base: 0,
            is_full: false,
        }
    }

    /// The place of the literal that a token names, if it names one.
    pub(crate) fn literal(&self, token: &NamedToken<'_>) -> Option<usize>
        ensures named { literal_at (blocks_in self.now).literals result ≡ literal_for (blocks_in self.now).literals token.now.token.kind token.now.token.text.now }
        ensures inside { IfSome result (λ i. i < length self.now.literals.items) }
    {
        if is_identifier(token.token.kind) {
            self.named(token.name.letters())
        } else {
            None
        }
    }

    /// The place of the literal of this name, which is in normal form, if there is one.
    fn named(&self, name: &[u8]) -> Option<usize>
        ensures named { result ≡ first_named name.now self.now.literals.items }
        ensures inside { IfSome result (λ i. i < length self.now.literals.items) }
    {
        let place = *self.places.get(name)?;
        let literal = self.literals.get(place)?;
        if literal.name.name.letters() == name {
            Some(place)
        } else {
            None
        }
    }

    /// The place of the literal that the name of this number stands for, if that is known.
    pub(crate) fn numbered(&self, number: usize) -> Option<usize>
        ensures stands { IfSome result (λ i. StandsAt (names_in self.now.names) (blocks_in self.now).literals number i) }
        ensures inside { IfSome result (λ i. i < length self.now.literals.items) }
    {
        let place = *self.latest.get(number)?;
        let literal = self.literals.get(place)?;
        if literal.is_first && is_number(literal.number, number) {
            Some(place)
        } else {
            None
        }
    }

    pub(crate) fn open(&mut self) -> Result<(), Fault>
        ensures ok { OnOk result (blocks_in self.new ≡ opened (blocks_in self.old)) }
        ensures literals { self.new.literals ≡ self.old.literals }
        ensures assumed { self.new.assumed.items ≡ self.old.assumed.items }
        ensures base { self.new.base ≡ self.old.base }
        ensures names { self.new.names ≡ self.old.names }
        ensures err { IfErr result (λ f. f ≡ Memory) }
    {
        self.starts.push(self.literals.len())?;
        Ok(())
    }

    /// Whether literals go where the innermost block is closed.
    pub(crate) fn ends_literals(&self) -> bool
        ensures { result ≡ false → closed (blocks_in self.now).literals (blocks_in self.now).starts ≡ record { literals = (blocks_in self.now).literals; starts = drop 1 (blocks_in self.now).starts } }
    {
        match self.starts.last() {
            None => false,
            Some(start) => *start < self.literals.len(),
        }
    }

    /// Closes the innermost block.
    pub(crate) fn close(&mut self)
        ensures closed { blocks_in self.new ≡ closed (blocks_in self.old).literals (blocks_in self.old).starts }
        ensures assumed { self.new.assumed.items ≡ self.old.assumed.items }
        ensures base { self.new.base ≡ self.old.base }
        ensures names { self.new.names ≡ self.old.names }
    {
        if let Some(start) = self.starts.pop() {
            self.literals.truncate(start);
        }
    }

    /// Makes the place of a literal known that is to be declared next, unless another has its name.
    fn enter(&mut self, name: &'t [u8]) -> Result<(), Fault>
        ensures entered { OnOk result (WillBePlaced name.now self.new.literals.items (place_in self.new.places)) }
        ensures literals { self.new.literals.items ≡ self.old.literals.items }
        ensures others { self.new.starts ≡ self.old.starts }
        ensures assumed { self.new.assumed.items ≡ self.old.assumed.items }
        ensures base { self.new.base ≡ self.old.base }
        ensures names { self.new.names ≡ self.old.names }
        ensures err { IfErr result (λ f. f ≡ Memory) }
    {
        match self.named(name) {
            None => {
                self.places.insert(name, self.literals.len())?;
                Ok(())
            }
            Some(_) => Ok(()),
        }
    }

    /// The number of the name at a token of a literal's text, if it is one.
    pub(crate) fn number_at(&self, literal: usize, at: usize) -> Option<usize>
        ensures number { IfSome result (IsNumberAt (names_in self.now.names) (blocks_in self.now).literals literal at) }
        ensures fits { IfSome result (λ n. at + 1 < 2 ^ 64) }
    {
        let number = *self.literals.get(literal)?.numbers.get(at)?;
        number
    }

    /// How many tokens a literal's text has.
    pub(crate) fn size(&self, literal: usize) -> Option<usize>
        ensures size { IfSome result (λ n. length (text_at (blocks_in self.now).literals literal) ≡ n) }
        ensures there { IfSome result (λ n. IsThere (blocks_in self.now).literals literal) }
    {
        Some(self.literals.get(literal)?.numbers.len())
    }

    /// How many places there are for what is known of the texts of all literals.
    pub(crate) fn places(&self) -> usize {
        match self.literals.last() {
            None => 0,
            Some(last) => {
                let more = last.numbers.len() / GRAIN;
                last.place.saturating_add(1).saturating_add(more)
            }
        }
    }

    /// The place for what is known of a literal's text from a token on.
    pub(crate) fn place(&self, literal: usize, from: usize) -> usize {
        self.places_before(literal).saturating_add(from / GRAIN)
    }

    /// How many of these the literals before one have.
    fn places_before(&self, literal: usize) -> usize {
        match self.literals.get(literal) {
            None => self.places(),
            Some(literal) => literal.place,
        }
    }

    /// The bit of a name that is assumed.
    pub(crate) fn bit_of(&self, number: usize) -> Option<usize>
        ensures bit { IfSome result (λ b. slice_get self.now.assumed.items b ≡ Some number) }
        ensures inside { IfSome result (λ b. b < 63) }
    {
        let bit = *self.bit_of.get(number)?;
        let named = *self.assumed.get(bit)?;
        if named == number && bit < ASSUMPTIONS {
            Some(bit)
        } else {
            None
        }
    }

    /// The number of a literal's name, if no literal before it has that name.
    fn first_number(&self, literal: usize) -> Option<usize> {
        let literal = self.literals.get(literal)?;
        if literal.is_first {
            literal.number
        } else {
            None
        }
    }

    /// Makes the name of a literal one that is assumed, as long as there are bits.
    pub(crate) fn assume(&mut self, literal: usize) -> Result<(), Fault>
        ensures assumed { take (length self.old.assumed.items) self.new.assumed.items ≡ self.old.assumed.items }
        ensures blocks { blocks_in self.new ≡ blocks_in self.old }
        ensures names { self.new.names ≡ self.old.names }
        ensures base { self.new.base ≡ self.old.base }
        ensures err { IfErr result (λ f. f ≡ Memory) }
    {
        let Some(number) = self.first_number(literal) else {
            return Ok(());
        };
        if self.bit_of(number).is_some() {
            return Ok(());
        }
        let bit = self.assumed.len();
        if bit >= ASSUMPTIONS {
            self.is_full = true;
            return Ok(());
        }
        remember(&mut self.bit_of, Some(number), bit)?;
        self.assumed.push(number)?;
        Ok(())
    }

    /// Whether what is known outlives the end of the innermost block: the oldest literals stay, there were bits enough, and the names that are assumed
    /// are those of few literals, as each block reads the texts of these again.
    pub(crate) fn keeps_base(&self) -> bool
        ensures { result ≡ true → self.now.base ≤ length (closed (blocks_in self.now).literals (blocks_in self.now).starts).literals }
    {
        match self.starts.last() {
            None => false,
            Some(start) => {
                let base = self.places_before(self.base);
                let behind = self.places_before(*start).saturating_sub(base);
                self.base <= *start
                    && self.base <= self.literals.len()
                    && !self.is_full
                    && behind <= BEHIND
            }
        }
    }

    /// How many literals there were where the lowest block began that has few literals behind it.
    fn lowest_start(&self) -> usize {
        let mut lowest = self.literals.len();
        for start in self.starts.iter().rev() {
            let behind = self.places().saturating_sub(self.places_before(*start));
            if behind > BEHIND {
                return lowest;
            }
            lowest = *start;
        }
        lowest
    }

    /// Chooses anew which names are assumed: those of the last few literals.
    pub(crate) fn rebase(&mut self) -> Result<(), Fault>
        ensures blocks { blocks_in self.new ≡ blocks_in self.old }
        ensures names { self.new.names ≡ self.old.names }
        ensures err { IfErr result (λ f. f ≡ Memory) }
    {
        self.base = self.lowest_start();
        self.assumed.clear();
        self.is_full = false;
        for literal in self.base..self.literals.len() {
            self.assume(literal)?;
        }
        Ok(())
    }

    /// Declares a literal in the innermost block.
    pub(crate) fn declare(
        &mut self,
        name: &'t NamedToken<'a>,
        text: &'t LiteralTokens<'a>,
    ) -> Result<(), Fault>
        ensures ok { OnOk result (blocks_in self.new ≡ with_literal (record { name = name.now.token.text.now; text = map named_symbol text.now.tokens.items }) (blocks_in self.old)) }
        ensures literals { take (length self.old.literals.items) self.new.literals.items ≡ self.old.literals.items }
        ensures assumed { self.new.assumed.items ≡ self.old.assumed.items }
        ensures base { self.new.base ≡ self.old.base }
        ensures names { take (length (names_in self.old.names)) (names_in self.new.names) ≡ names_in self.old.names }
        ensures err { IfErr result (λ f. f ≡ Memory) }
    {
        let number = self.names.number(name)?;
        let is_first = self.named(name.name.letters()).is_none();
        remember(&mut self.latest, number, self.literals.len())?;
        self.enter(name.name.letters())?;
        let place = self.places();
        let numbers = numbers_of(self.alloc, &mut self.names, text.tokens.as_slice())?;
        self.literals.push(Literal {
            name,
            text,
            number,
            is_first,
            numbers,
            place,
        })?;
        Ok(())
    }
}
