//! Laws of the definitions.

ghost use Rattle.plm_syntax.specs.InForce.{LiteralsInForce};
ghost use Rattle.plm_syntax.specs.Inner.Runs.{RefusesFirst, StopsDeep, TakesModules};
ghost use Rattle.plm_syntax.specs.Sentence.{SpellOnce};

/// No two well-formed modules are spelled by one list of tokens.
pub fn spell_once()
    ensures { SpellOnce }
{}

/// The literals in force at a token are those that are declared before it, in the blocks around it.
pub fn literals_in_force()
    ensures { LiteralsInForce }
{}

/// What a run takes within a limit is what a well-formed module within the limit spells, and it makes that module.
pub(crate) fn takes_modules()
    ensures { TakesModules }
{}

/// The token that a run refuses is the first with which no module begins.
pub(crate) fn refuses_first()
    ensures { RefusesFirst }
{}

/// The token at which a run is too deep opens the first level too deep.
pub(crate) fn stops_deep()
    ensures { StopsDeep }
{}
