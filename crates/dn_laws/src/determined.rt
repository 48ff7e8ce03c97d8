//! The law of laws: what obeys them all is the emulator.

ghost use Rattle.dn_laws.specs.Determined.Laws.{LawsDetermine};
ghost use Rattle.dn_laws.specs.Emulated.{FalseByTheLaws, HistoriesByTheLaws, LawsGiveTheReplies, LawsHold};

/// The laws determine the emulator.
///
/// Any two that obey them answer each call the same.
pub fn laws_determine()
    ensures { LawsDetermine }
{}

/// The definitions obey the laws.
pub fn laws_hold()
    ensures { LawsHold }
{}

/// So whatever obeys the laws answers as the definitions do.
///
/// A history is lawful exactly if its replies are those of whatever obeys the laws, and its first false reply is the first that
/// isn't one of those.
pub fn laws_give_the_replies()
    ensures replies { LawsGiveTheReplies }
    ensures histories { HistoriesByTheLaws }
    ensures first_false { FalseByTheLaws }
{}
