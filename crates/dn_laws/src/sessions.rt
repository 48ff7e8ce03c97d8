//! The laws of live sessions.

ghost use Rattle.dn_laws.specs.SessionLaws.{CallsAreRead, LinesAreAnswered, LinesAreAsked, OnlyCallsAreMade, SessionsAreHistories, TranscriptsAreWritten, WakesAreFirst};

/// A line of a session asks for the call of its record, for the command that it says, for the next moment, or for nothing.
///
/// The answers are the entries of a lawful history of these calls, in order, and a remark for each bad line and each `next`. The next moment
/// is the first at which a packet under way is due, or a link is free for which packets wait.
pub fn laws_of_sessions()
    ensures lines { LinesAreAsked }
    ensures calls { CallsAreRead }
    ensures only_calls { OnlyCallsAreMade }
    ensures answered { LinesAreAnswered }
    ensures histories { SessionsAreHistories }
    ensures written { TranscriptsAreWritten }
    ensures wakes { WakesAreFirst }
{}
