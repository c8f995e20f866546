//! What is known of the texts of literals that put nothing out, and what it rests on.

ghost use Rattle.std.specs.Prelude.{◌≡◌, ◌+◌, ◌-◌, ◌^◌, ◌<◌, ◌≤◌, ℕ, List, ◌++◌, Bool, true, take, length, max, get_or, IfSome, IfErr};
ghost use Rattle.std.specs.List.{All};
ghost use Rattle.std.specs.Int.{bit_at};
ghost use Rattle.word86.specs.declared.fault.Fault.TheVariants.{Memory};
ghost use Rattle.plm_token.specs.Literals.{Symbol};
ghost use Rattle.plm_syntax.specs.Literals.{LiteralText};
ghost use Rattle.plm_syntax.specs.Inner.Known.{Pass, HasLiteral, AreKnown, AreTrue, IsKnown, IsQuietName, IsQuietRun, IsRun, is_assumed};

use crate::scope::{GRAIN, Scope};
use std::alloc::Global;
use word86::Fault;

/// For how many numbers of replacements assumptions are told apart.
const DEPTHS: usize = 8;

/// How many tokens of a text are looked into at a time.
const PIECE: usize = 256;

/// Says that a replacement may be made, and no more: the bit of no name.
const ONE_MORE: u64 = 1 << 63;

/// What nothing but the number of replacements tells: that one may be made.
const NO_NAME: [u64; DEPTHS] = [
    0, ONE_MORE, ONE_MORE, ONE_MORE, ONE_MORE, ONE_MORE, ONE_MORE, ONE_MORE,
];

/// What a fact rests on, whatever number of replacements may be made: the oldest literals, `level` of them, and names that are assumed to put nothing out,
/// each by its bit. Those of the word at k are assumed to do so where k replacements fewer may be made.
#[derive(Clone, Copy)]
pub struct Grounds {
    pub level: usize,
    pub assumed: [u64; DEPTHS],
}

/// Tokens of a literal's text, from one up to another, that put nothing out, and what that rests on.
#[derive(Clone, Copy)]
pub struct Run {
    pub literal: usize,
    pub from: usize,
    pub to: usize,
    pub grounds: Grounds,
}

/// A run, and after how many forgettings it was known.
#[derive(Clone, Copy)]
pub struct QuietRun {
    pub run: Run,
    pub since: usize,
}

/// What is known to put nothing out: runs of texts. Each says itself what it is of, so that it may stand anywhere.
///
/// A run that rests on no more than the literals whose names are not assumed is a rule, and stays as long as these do; what else a block's end leaves is
/// forgotten. What is known since before `oldest` is void.
///
/// `holds` has the assumptions that hold now, in the word at e where e replacements may be made.
#[derive(Drop)]
pub struct Known {
    pub runs: Vec<QuietRun>,
    pub holds: [u64; DEPTHS],
    pub oldest: usize,
    pub forgotten: usize,
}

/// What is known of no run.
const NO_RUN: QuietRun = QuietRun {
    run: Run {
        literal: 0,
        from: 0,
        to: 0,
        grounds: Grounds {
            level: 0,
            assumed: [0; DEPTHS],
        },
    },
    since: 0,
};

/// Makes room for so many runs.
fn more_runs(table: &mut Vec<QuietRun>, count: usize) -> Result<(), Fault>
    ensures known { (names : List Symbol) (literals : List LiteralText) (assumed : List ℕ) (base oldest forgotten : ℕ) → 0 < oldest → oldest ≤ forgotten → All (IsKnown names literals assumed base oldest forgotten) table.old.items → All (IsKnown names literals assumed base oldest forgotten) table.new.items }
    ensures err { IfErr result (λ f. f ≡ Memory) }
{
    if table.len() < count {
        table.resize(count, NO_RUN)?;
    }
    Ok(())
}

/// A word of one bit.
fn one_bit(at: usize) -> u64
    requires { at < 64 }
    ensures { result ≡ 2 ^ at }
{
    1 << at
}

/// Whether tokens of a text, from one up to another, are to be known as a run: where they begin the text, or are many.
fn is_worth_keeping(from: usize, to: usize) -> bool {
    from == 0 || to.saturating_sub(from) >= GRAIN
}

/// The greater of two numbers of literals.
fn greater(a: usize, b: usize) -> usize
    ensures { result ≡ max a b }
{
    if a < b { b } else { a }
}

impl Grounds {
    /// Takes on the assumptions of another, as they are where so many replacements fewer may be made.
    fn add(&mut self, other: &Grounds, fewer: usize)
        ensures level { self.new.level ≡ self.old.level }
        ensures pass { (test : ℕ → ℕ → Bool) → Pass test self.new.assumed → Pass test self.old.assumed × ((k bit : ℕ) → k + fewer < 8 → bit_at (get_or other.now.assumed k 0) bit ≡ 1 → test (k + fewer) bit ≡ true) }
    {
        for k in fewer..DEPTHS {
            self.assumed[k] |= other.assumed[k - fewer];
        }
    }

    /// What a name rests on whose text rests on this.
    fn deeper(&self) -> Option<Grounds>
        ensures level { IfSome result (λ g. g.level ≡ self.now.level) }
        ensures pass { IfSome result (λ g. (test : ℕ → ℕ → Bool) → Pass test g.assumed → Pass (λ k bit. test (k + 1) bit) self.now.assumed × (test 0 63 ≡ true)) }
    {
        if self.assumed[DEPTHS - 1] != 0 {
            return None;
        }
        let mut grounds = Grounds {
            level: self.level,
            assumed: [ONE_MORE, 0, 0, 0, 0, 0, 0, 0],
        };
        grounds.add(self, 1);
        Some(grounds)
    }

    /// What a name rests on that is assumed.
    fn of_bit(bit: usize) -> Grounds
        requires { bit < 63 }
        ensures level { result.level ≡ 0 }
        ensures pass { (test : ℕ → ℕ → Bool) → Pass test result.assumed → test 0 bit ≡ true }
    {
        Grounds {
            level: 0,
            assumed: [one_bit(bit), 0, 0, 0, 0, 0, 0, 0],
        }
    }
}

impl Run {
    /// No tokens of a literal's text.
    fn empty(literal: usize, at: usize) -> Run
        requires { literal + 1 < 2 ^ 64 }
        ensures literal { result.literal ≡ literal }
        ensures from { result.from ≡ at }
        ensures to { result.to ≡ at }
        ensures level { result.grounds.level ≡ literal + 1 }
    {
        Run {
            literal,
            from: at,
            to: at,
            grounds: Grounds {
                level: literal + 1,
                assumed: [0; DEPTHS],
            },
        }
    }

    /// Goes on up to a token, and rests on this too.
    fn extend(&mut self, to: usize, grounds: &Grounds)
        ensures literal { self.new.literal ≡ self.old.literal }
        ensures from { self.new.from ≡ self.old.from }
        ensures to { self.new.to ≡ to }
        ensures level { self.new.grounds.level ≡ max self.old.grounds.level grounds.now.level }
        ensures pass { (test : ℕ → ℕ → Bool) → Pass test self.new.grounds.assumed → Pass test self.old.grounds.assumed × Pass test grounds.now.assumed }
    {
        self.to = to;
        self.grounds.level = greater(self.grounds.level, grounds.level);
        self.grounds.add(grounds, 0);
    }
}

impl Known {
    /// Nothing.
    pub(crate) fn new(alloc: Global) -> Self
        ensures { (names : List Symbol) (literals : List LiteralText) (assumed : List ℕ) (base : ℕ) → AreTrue names literals assumed base result }
    {
        Known {
            runs: Vec::new(alloc),
            holds: NO_NAME,
            oldest: 1,
            forgotten: 1,
        }
    }

    /// Forgets what rests on more than the oldest literals, as literals go.
    pub(crate) fn end_block(&mut self)
        ensures { (names : List Symbol) (fewer more : List LiteralText) (assumed : List ℕ) (base : ℕ) → base ≤ length fewer → AreTrue names (fewer ++ more) assumed base self.old → AreTrue names fewer assumed base self.new }
    {
        self.holds = NO_NAME;
        match self.forgotten.checked_add(1) {
            Some(next) => self.forgotten = next,
            None => self.runs.clear(),
        }
    }

    /// Forgets all.
    pub(crate) fn forget(&mut self)
        requires some { 0 < self.old.oldest }
        requires order { self.old.oldest ≤ self.old.forgotten }
        requires runs { All (λ k. k.since ≤ self.old.forgotten) self.old.runs.items }
        ensures { (names : List Symbol) (literals : List LiteralText) (assumed : List ℕ) (base : ℕ) → AreTrue names literals assumed base self.new }
    {
        self.holds = NO_NAME;
        match self.forgotten.checked_add(1) {
            Some(next) => {
                self.forgotten = next;
                self.oldest = next;
            }
            None => self.runs.clear(),
        }
    }

    /// Makes room for what is known at so many places, as another name may be assumed.
    pub(crate) fn make_room(&mut self, places: usize) -> Result<(), Fault>
        ensures known { (names : List Symbol) (literals : List LiteralText) (assumed more : List ℕ) (base : ℕ) → take (length assumed) more ≡ assumed → AreTrue names literals assumed base self.old → AreTrue names literals more base self.new }
        ensures err { IfErr result (λ f. f ≡ Memory) }
    {
        self.holds = NO_NAME;
        more_runs(&mut self.runs, places)
    }

    /// Which assumptions hold where so many replacements may be made.
    fn holding(&self, depth: usize) -> u64
        ensures { (test : ℕ → ℕ → Bool) → Pass test self.now.holds → (bit : ℕ) → bit_at result bit ≡ 1 → test depth bit ≡ true }
    {
        if depth < DEPTHS { self.holds[depth] } else { 0 }
    }

    /// Whether what a fact rests on is assumed and holds, where so many replacements may be made.
    fn all_hold(&self, grounds: &Grounds, depth: usize) -> bool
        ensures { result ≡ true → (test : ℕ → ℕ → Bool) → Pass test self.now.holds → Pass (λ k bit. test (depth - k) bit) grounds.now.assumed }
    {
        for k in 0..DEPTHS {
            let word = grounds.assumed[k];
            if self.holding(depth.saturating_sub(k)) & word != word {
                return false;
            }
        }
        true
    }

    /// Says that an assumption holds where so many replacements may be made.
    fn hold(&mut self, bit: usize, depth: usize)
        requires { bit < 63 }
        ensures { (names : List Symbol) (literals : List LiteralText) (assumed : List ℕ) (base : ℕ) → AreTrue names literals assumed base self.old → is_assumed names literals assumed depth bit ≡ true → AreTrue names literals assumed base self.new }
    {
        if depth < DEPTHS {
            self.holds[depth] |= one_bit(bit);
        }
    }

    fn learn(&mut self, place: usize, run: Run)
        ensures { (names : List Symbol) (literals : List LiteralText) (assumed : List ℕ) (base : ℕ) → AreTrue names literals assumed base self.old → IsRun names literals assumed run.literal run.from run → AreTrue names literals assumed base self.new }
    {
        if let Some(known) = self.runs.get_mut(place) {
            *known = QuietRun {
                run,
                since: self.forgotten,
            };
        }
    }

    /// The run at a token of a literal's text that is known by a place.
    fn run_at(&self, base: usize, place: usize, literal: usize, from: usize) -> Option<&Run>
        ensures { (names : List Symbol) (literals : List LiteralText) (assumed : List ℕ) → AreTrue names literals assumed base self.now → IfSome result (λ r. IsRun names literals assumed literal from r.now) }
    {
        let known = self.runs.get(place)?;
        let run = &known.run;
        if run.literal != literal || run.from != from {
            return None;
        }
        let is_rule = self.oldest <= known.since && run.grounds.level <= base;
        if is_rule || known.since == self.forgotten {
            Some(run)
        } else {
            None
        }
    }

    /// What a name rests on, if it is assumed or its literal's text is known, and that holds where so many replacements may be made.
    fn known_name(&self, scope: &Scope<'_, '_>, number: usize, depth: usize) -> Option<Grounds>
        requires { AreKnown scope.now self.now }
        ensures { IfSome result (IsQuietName scope.now depth number) }
    {
        let Some(bit) = scope.bit_of(number) else {
            return self.known_text(scope, number, depth);
        };
        if (self.holding(depth) >> bit) & 1 == 1 {
            Some(Grounds::of_bit(bit))
        } else {
            None
        }
    }

    /// What a name rests on, if its literal's text is known, and that holds where so many replacements may be made.
    fn known_text(&self, scope: &Scope<'_, '_>, number: usize, depth: usize) -> Option<Grounds>
        requires { AreKnown scope.now self.now }
        ensures { IfSome result (IsQuietName scope.now depth number) }
    {
        let fewer = depth.checked_sub(1)?;
        let literal = scope.numbered(number)?;
        let size = scope.size(literal)?;
        let run = self.run_at(scope.base, scope.place(literal, 0), literal, 0)?;
        if run.to < size {
            return None;
        }
        if self.all_hold(&run.grounds, fewer) {
            run.grounds.deeper()
        } else {
            None
        }
    }

    /// What a name rests on that puts nothing out where so many replacements may be made.
    #[cycle(quiet)]
    fn quiet_name(&mut self, scope: &Scope<'_, '_>, number: usize, depth: usize) -> Option<Grounds>
        requires { AreKnown scope.now self.old }
        ensures known { AreKnown scope.now self.new }
        ensures name { IfSome result (IsQuietName scope.now depth number) }
    {
        if let Some(grounds) = self.known_name(scope, number, depth) {
            return Some(grounds);
        }
        let fewer = depth.checked_sub(1)?;
        let literal = scope.numbered(number)?;
        let run = self.quiet_from(scope, literal, 0, fewer)?;
        let (to, grounds) = (run.to, run.grounds);
        if to < scope.size(literal)? {
            return None;
        }
        match scope.bit_of(number) {
            None => grounds.deeper(),
            Some(bit) => {
                self.hold(bit, depth);
                Some(Grounds::of_bit(bit))
            }
        }
    }

    /// Looks into those names of a word of assumptions of which it is not known that they hold, up to one that does not.
    #[cycle(quiet)]
    fn look_into(&mut self, scope: &Scope<'_, '_>, word: u64, depth: usize) -> Option<()>
        requires { AreKnown scope.now self.old }
        ensures { AreKnown scope.now self.new }
    {
        let mut unknown = word & !self.holding(depth);
        for _ in 0..u64::BITS {
            if unknown == 0 {
                return Some(());
            }
            let bit = unknown.trailing_zeros() as usize;
            let number = *scope.assumed.get(bit)?;
            self.quiet_name(scope, number, depth)?;
            unknown &= unknown.wrapping_sub(1);
        }
        Some(())
    }

    /// The same for all that a fact rests on.
    #[cycle(quiet)]
    fn look_into_all(
        &mut self,
        scope: &Scope<'_, '_>,
        grounds: &Grounds,
        depth: usize,
    ) -> Option<()>
        requires { AreKnown scope.now self.old }
        ensures { AreKnown scope.now self.new }
    {
        for k in 0..DEPTHS {
            let word = grounds.assumed[k];
            self.look_into(scope, word, depth.saturating_sub(k))?;
        }
        Some(())
    }

    /// The run at a token of a literal's text that is known by a place, if it puts nothing out where so many replacements may be made, or else none of its
    /// tokens.
    #[cycle(quiet)]
    fn known_run(
        &mut self,
        scope: &Scope<'_, '_>,
        place: usize,
        literal: usize,
        from: usize,
        depth: usize,
    ) -> Run
        requires known { AreKnown scope.now self.old }
        requires there { HasLiteral scope.now literal }
        ensures known { AreKnown scope.now self.new }
        ensures run { IsQuietRun scope.now depth literal from result }
    {
        let Some(found) = self.run_at(scope.base, place, literal, from) else {
            return Run::empty(literal, from);
        };
        let run = *found;
        let grounds = run.grounds;
        if self.all_hold(&grounds, depth) {
            return run;
        }
        if self.look_into_all(scope, &grounds, depth).is_none() {
            return Run::empty(literal, from);
        }
        if self.all_hold(&grounds, depth) {
            run
        } else {
            Run::empty(literal, from)
        }
    }

    /// The tokens of a literal's text from one on, up to another at most, that put nothing out where so many replacements may be made.
    #[cycle(quiet)]
    fn walk(
        &mut self,
        scope: &Scope<'_, '_>,
        literal: usize,
        from: usize,
        end: usize,
        depth: usize,
    ) -> Run
        requires known { AreKnown scope.now self.old }
        requires there { HasLiteral scope.now literal }
        ensures known { AreKnown scope.now self.new }
        ensures run { IsQuietRun scope.now depth literal from result }
    {
        let mut run = Run::empty(literal, from);
        for _ in from..end {
            let at = run.to;
            let Some(number) = scope.number_at(literal, at) else {
                return run;
            };
            let Some(grounds) = self.quiet_name(scope, number, depth) else {
                return run;
            };
            run.extend(at + 1, &grounds);
        }
        run
    }

    /// The tokens of a piece of a literal's text from one on that put nothing out where so many replacements may be made.
    #[cycle(quiet)]
    fn next(&mut self, scope: &Scope<'_, '_>, literal: usize, from: usize, depth: usize) -> Run
        requires known { AreKnown scope.now self.old }
        requires there { HasLiteral scope.now literal }
        ensures known { AreKnown scope.now self.new }
        ensures run { IsQuietRun scope.now depth literal from result }
    {
        let place = scope.place(literal, from);
        let run = self.known_run(scope, place, literal, from, depth);
        let to = run.to;
        if from < to {
            return run;
        }
        let end = (from / PIECE).saturating_add(1).saturating_mul(PIECE);
        let run = self.walk(scope, literal, from, end, depth);
        let to = run.to;
        if is_worth_keeping(from, to) {
            self.learn(place, run);
        }
        run
    }

    /// A run of a literal's text, and the tokens behind it, up to another at most, that put nothing out where so many replacements may be made.
    #[cycle(quiet)]
    fn rest(&mut self, scope: &Scope<'_, '_>, first: Run, end: usize, depth: usize) -> Run
        requires known { AreKnown scope.now self.old }
        requires there { HasLiteral scope.now first.literal }
        requires run { IsQuietRun scope.now depth first.literal first.from first }
        ensures known { AreKnown scope.now self.new }
        ensures run { IsQuietRun scope.now depth first.literal first.from result }
    {
        let literal = first.literal;
        let mut run = first;
        for _ in first.to..end {
            let at = run.to;
            let next = self.next(scope, literal, at, depth);
            let (to, grounds) = (next.to, next.grounds);
            if to <= at {
                return run;
            }
            run.extend(to, &grounds);
        }
        run
    }

    /// The tokens of a literal's text from one on that put nothing out where so many replacements may be made.
    #[cycle(quiet)]
    pub(crate) fn quiet_from(
        &mut self,
        scope: &Scope<'_, '_>,
        literal: usize,
        from: usize,
        depth: usize,
    ) -> Option<Run>
        requires { AreKnown scope.now self.old }
        ensures known { AreKnown scope.now self.new }
        ensures run { IfSome result (IsQuietRun scope.now depth literal from) }
    {
        let size = scope.size(literal)?;
        let place = scope.place(literal, from);
        let first = self.known_run(scope, place, literal, from, depth);
        let run = self.rest(scope, first, size, depth);
        let to = run.to;
        if is_worth_keeping(from, to) {
            self.learn(place, run);
        }
        Some(run)
    }
}
