//! The laws of configuration lines.

ghost use Rattle.dn_laws.specs.LineLaws.{DefaultsAreKnown, OthersAreRefused, PipesAreSet, QueuesAreSet};
ghost use Rattle.dn_laws.specs.LineRefusals.{DeletesAreKnown, HeadsAreKnown, KindsAreKnown, LeftOutIsTold, OtherWordsAreRefused, PipesAreNeeded, PrefixSaysNothing, WordsAreKnown};

/// A line says what its options say, each in its units, and the default of each option that it lacks.
///
/// A value out of its range is refused, and so is each other line: one with a word that has no place, or that lacks a word.
pub fn laws_of_lines()
    ensures defaults { DefaultsAreKnown }
    ensures pipes { PipesAreSet }
    ensures queues { QueuesAreSet }
    ensures ranges { OthersAreRefused }
    ensures words { WordsAreKnown }
    ensures deletes { DeletesAreKnown }
    ensures prefix { PrefixSaysNothing }
    ensures heads { HeadsAreKnown }
    ensures behind { KindsAreKnown }
    ensures others { OtherWordsAreRefused }
    ensures left_out { LeftOutIsTold }
    ensures needs_pipe { PipesAreNeeded }
{}
