//! The laws of closed services.

ghost use Rattle.dn_laws.specs.CallerLaws.{AbsentCallersAreMissing, CallersBegin, RefusalsAreNoted, SegmentsAreTheHistory, TokensAreTold};
ghost use Rattle.dn_laws.specs.ServiceLaws.{AnswersSuffice, CallersAreLeft, CallsByTheLaws, HistoriesSuffice, NoneIsForeign, NoneIsOvertaken, ServicesByTheLaws};

/// The history that a service leaves is of its callers alone, and has what each of them was told.
///
/// It is one of `Rule::Ordered`: of two packets of a flow, the one that starts later is not due sooner. And any lawful history that
/// accounts for its callers may be left. Callers begin with nothing, and what is taken out and then the rest is the history.
pub fn laws_of_services()
    ensures callers { CallersAreLeft }
    ensures entries { NoneIsForeign }
    ensures deliveries { NoneIsOvertaken }
    ensures answers { AnswersSuffice }
    ensures histories { HistoriesSuffice }
    ensures begin { CallersBegin }
    ensures refused { RefusalsAreNoted }
    ensures tokens { TokensAreTold }
    ensures segments { SegmentsAreTheHistory }
    ensures absent { AbsentCallersAreMissing }
{}

/// The replies of a service are those of whatever obeys the laws that determine the emulator.
///
/// So no definition of a reply has to be believed for its headline: its history has these replies, and its callers' calls alone.
pub fn laws_give_the_headline()
    ensures closes { ServicesByTheLaws }
    ensures calls { CallsByTheLaws }
{}
