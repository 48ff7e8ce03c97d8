//! Laws of the definitions.
//!
//! A function here does nothing: its contract is the law, which the check proves.

ghost use Rattle.dn_types.specs.Bounds.{IsInRange};
ghost use Rattle.dn_laws.specs.FairShare.{SharesByWeight, SharesFairly};
ghost use Rattle.dn_laws.specs.ConfiguredLaws.{CommandsCount, DelaysAreExplained};
ghost use Rattle.dn_laws.specs.ConfiguredLaws.{DropsAreExplained, IsNeverIdle, KeepsTheRate};
ghost use Rattle.dn_laws.specs.ConfiguredLaws.{NoneUnconfigured, OnlyCommandsCount};
ghost use Rattle.dn_laws.specs.ConfiguredLaws.{QueuesHavePipes, StartsApart, StartsAsConfigured};
ghost use Rattle.dn_laws.specs.ConfiguredLaws.{StartsAtOnce, StartsTheNext};
ghost use Rattle.dn_laws.specs.Divided.{PartsAreAlone, PartsHappenAlone};
ghost use Rattle.dn_laws.specs.FlowLaws.{FlowsAreByMask, FlowsHaveTheirKeys, FlowsStay};
ghost use Rattle.dn_laws.specs.KeptLaws.{BusyPeriodsBegin, ClockSparesTags, LinksAreKept};
ghost use Rattle.dn_laws.specs.KeptLaws.{PacketsSpareTags, TagsAreKept, VirtualTimeIsKept};
ghost use Rattle.dn_laws.specs.Laws.{BytesAreBounded, CallsAreInRange, CountsAreBounded, CountsUpToTheLimit};
ghost use Rattle.dn_laws.specs.Laws.{DueIsLast, DueMomentsAreBounded, DueMomentsNeverFall};
ghost use Rattle.dn_laws.specs.Laws.{ExhaustedChangesNothing, GivesOnce, GivesStarted};
ghost use Rattle.dn_laws.specs.Laws.{GivesWhatIsDue, LawfulHistoriesGrow, LawfulReplies};
ghost use Rattle.dn_laws.specs.Laws.{LeavesWhatIsNotDue, OwnEntriesBegin};
ghost use Rattle.dn_laws.specs.Laws.{MomentsAreBounded, OwnEntriesGrow, PickIsFirst, PickIsThere};
ghost use Rattle.dn_laws.specs.Laws.{RepliesByStanding, SendsOneAtATime, SettlingEnds};
ghost use Rattle.dn_laws.specs.Laws.{StartsInOrder, StartsOnce, TransmissionIsLeast};
ghost use Rattle.dn_laws.specs.KeptLaws.{OtherPipesChangeNothing};
ghost use Rattle.dn_laws.specs.PacketLaws.{ArrivalsAreTold, CommandsSpare, DiscardsAreDeletes};
ghost use Rattle.dn_laws.specs.PacketLaws.{PacketsAddUp, QueuedPacketsArrive, QueuesShareTheRate};
ghost use Rattle.dn_laws.specs.PartLaws.{AdvancesAreNoMore, AgreeingCallsAgree, CommandsActByForce};
ghost use Rattle.dn_laws.specs.PartLaws.{OtherLinksChangeNoReply, OtherLinksChangeNothing};
ghost use Rattle.dn_laws.specs.PartLaws.{PartsAreWhole, PartsRestOnTheirPipe, ReplaysFallApart};
ghost use Rattle.dn_laws.specs.ConfiguredLaws.{KeepsTheConfiguredRate};
ghost use Rattle.dn_laws.specs.ReadingLaws.{CommandsAreAnswered, LinksAreToldApart};
ghost use Rattle.dn_laws.specs.ReadingLaws.{MomentsAreNamed, PacketsAreCounted, QueuesAreRead};
ghost use Rattle.dn_laws.specs.ReadingLaws.{StartsAreDue, SubjectsAreNamed, TargetsAreTreated};
ghost use Rattle.dn_laws.specs.ReplyLaws.{ClockIsTheGreatest, CollectsAreTold, CommandsAreTold};
ghost use Rattle.dn_laws.specs.ReplyLaws.{FlowsWereTold, LimitIsCounted, PacketsAreNumbered};
ghost use Rattle.dn_laws.specs.ReplyLaws.{QueuedPacketsAreDelivered, QueuedPacketsStay};
ghost use Rattle.dn_laws.specs.ReplyLaws.{RepliesTellTheClock, ShowsAreTold, ToldOnce};
ghost use Rattle.dn_laws.specs.ReplyLaws.{ToldWhenDue};
ghost use Rattle.dn_laws.specs.SharingLaws.{DroppedChangesNothing, PipeDeleteResets};
ghost use Rattle.dn_laws.specs.SharingLaws.{QueueDeleteResets, TagsBeginAfresh};
ghost use Rattle.dn_laws.specs.SharingLaws.{CommandsMoveNothing, GrowsByWork, HeadsAreFirst};
ghost use Rattle.dn_laws.specs.SharingLaws.{PacketsKeepApart, PickIsFair, PickIsLeast};
ghost use Rattle.dn_laws.specs.SharingLaws.{PipeDeleteEmpties, PipeDeleteSpares};
ghost use Rattle.dn_laws.specs.SharingLaws.{QueueDeleteEmpties, QueueDeleteSpares};
ghost use Rattle.dn_laws.specs.SharingLaws.{RaisesToTheLeast, StartsThePick, TagsByWeight};
ghost use Rattle.dn_laws.specs.TimeLaws.{DelaysAddUp, DeliveredDelaysAddUp, EventsStay};
ghost use Rattle.dn_laws.specs.TimeLaws.{GivesInOrder, NoneStartsEarly};
ghost use Rattle.dn_laws.specs.TimeLaws.{StartsBehind, StartsInTime, UnlimitedTakesNoTime, WaitsForItsLink};
ghost use Rattle.dn_laws.specs.WaitLaws.{KbytesBoundTheDelay, KbytesBoundTheWait};
ghost use Rattle.dn_laws.specs.WaitLaws.{LinksMakeNoPause, SlotsBoundTheDelay};
ghost use Rattle.dn_laws.specs.WaitLaws.{SlotsBoundTheWait, WaitIsKnown, WaitsForThoseAhead};
ghost use Rattle.dn_laws.specs.ReadingLaws.{ClockFollows, ObeysAsTold, StartsAreCounted};

use dn_types::Call;

/// A settling starts every packet that can start: after it no start is due on any link.
///
/// A link sends one packet at a time. The packets of a flow start in the order of their arrival, and none starts twice.
pub fn laws_of_starts()
    ensures settles { SettlingEnds }
    ensures on_time { StartsAreDue }
    ensures apart { LinksAreToldApart }
    ensures queues { QueuesAreRead }
    ensures one_at_a_time { SendsOneAtATime }
    ensures in_order { StartsInOrder }
    ensures once { StartsOnce }
{}

/// The heads of a link are the first packets of the flows that wait for it.
///
/// On a shared link WF2Q+ picks one wherever there is one: of the eligible heads the one with the least finish tag, and of
/// those with equal tags that of the least flow number. What starts on it is that pick.
pub fn laws_of_the_pick()
    ensures heads { HeadsAreFirst }
    ensures there { PickIsThere }
    ensures first { PickIsFirst }
    ensures started { StartsThePick }
{}

/// The transmission time is the least that carries the packet's bits.
///
/// Under `Rule::Ordered` the due moments of a link never fall.
pub fn laws_of_due_moments()
    ensures transmission { TransmissionIsLeast }
    ensures due_is_last { DueIsLast }
    ensures never_fall { DueMomentsNeverFall }
{}

/// Each packet that starts is given by one Collect at most, and by the first whose effective moment reaches its due moment.
pub fn laws_of_collecting()
    ensures as_started { GivesStarted }
    ensures once { GivesOnce }
    ensures due { GivesWhatIsDue }
    ensures none_left { LeavesWhatIsNotDue }
    ensures counted { PacketsAreCounted }
{}

/// A history is lawful exactly if its replies are those to its calls.
///
/// The first 2^62 calls count, and the others change nothing. Each entry is one caller's own. A reply rests on where the
/// calls before it left the emulator, and on nothing else of their past.
pub fn laws_of_histories()
    ensures replies { LawfulReplies }
    ensures grow { LawfulHistoriesGrow }
    ensures counts { CountsUpToTheLimit }
    ensures exhausted { ExhaustedChangesNothing }
    ensures own { OwnEntriesGrow }
    ensures none { OwnEntriesBegin }
    ensures standing { RepliesByStanding }
{}

/// After calls in range, moments and queues are bounded.
///
/// The moments of a reply are at most 2^62 ns, the due moments of what is still to be given are below 2^63 ns, and no queue
/// holds 2^32 bytes. After any calls, the counts of a reply and its packet numbers are below 2^62.
pub fn laws_of_bounds()
    ensures moments { MomentsAreBounded }
    ensures dues { DueMomentsAreBounded }
    ensures bytes { BytesAreBounded }
    ensures counts { CountsAreBounded }
    ensures calls { CallsAreInRange }
{}

/// Each call is in range, as the laws of bounds ask, since its types hold no other values.
pub fn each_call_is_in_range(call: Call)
    ensures { IsInRange call }
{}

/// A packet is lost by the loss rate in force, refused by the limit in force, and by nothing else.
pub fn laws_of_drops()
    ensures explained { DropsAreExplained }
    ensures unconfigured { NoneUnconfigured }
{}

/// A packet starts as soon as its link is free, with the bandwidth and the delay in force.
///
/// Only a start moves the moment at which a link is free, its last due moment and, in a busy period, its virtual time.
pub fn laws_of_links()
    ensures at_once { StartsAtOnce }
    ensures never_idle { IsNeverIdle }
    ensures next { StartsTheNext }
    ensures configured { StartsAsConfigured }
    ensures apart { StartsApart }
    ensures rate { KeepsTheRate }
    ensures configured_rate { KeepsTheConfiguredRate }
    ensures delay { DelaysAreExplained }
    ensures kept { LinksAreKept }
    ensures virtual_time { VirtualTimeIsKept }
{}

/// What has happened stays: each call adds to it and changes nothing of it.
///
/// A packet starts while a call is answered, at a moment between the clocks before and after it, and never before it was
/// accepted. It starts at its acceptance, or when its link has sent the packet before it if that is later. From its
/// acceptance to its due moment it takes this wait, its transmission, its delay and what the packet before it lacks, and
/// nothing else. A Collect gives its packets by due moment, and where two are equal by packet number.
pub fn laws_of_time()
    ensures stay { EventsStay }
    ensures in_time { StartsInTime }
    ensures not_early { NoneStartsEarly }
    ensures exactly { WaitsForItsLink }
    ensures behind { StartsBehind }
    ensures unlimited { UnlimitedTakesNoTime }
    ensures sum { DelaysAddUp }
    ensures delivered { DeliveredDelaysAddUp }
    ensures in_order { GivesInOrder }
{}

/// A packet that is sent to a pipe waits for those ahead of it in its flow's queue, and for no others.
///
/// It starts at its acceptance, or when its link has sent what it is sending if that is later, and the transmission times of
/// those ahead. So on a pipe with a queue of so many slots it waits for so many transmissions of a longest packet at most, and
/// is due after one more and the delay. Nor does a link make a pause while a packet waits that was sent to a queue.
pub fn laws_of_waiting()
    ensures those_ahead { WaitsForThoseAhead }
    ensures no_pause { LinksMakeNoPause }
    ensures known { WaitIsKnown }
    ensures slots { SlotsBoundTheWait }
    ensures kbytes { KbytesBoundTheWait }
    ensures delay { SlotsBoundTheDelay }
    ensures kbytes_delay { KbytesBoundTheDelay }
{}

/// A busy period begins with tags of 0, where the link is free and no packet waits for it.
///
/// A delete forgets the tags of its flows. A packet that is lost, refused or without a target changes no queue. Else a flow
/// keeps the finish tag of its last packet.
pub fn laws_of_resets()
    ensures afresh { TagsBeginAfresh }
    ensures queue_delete { QueueDeleteResets }
    ensures pipe_delete { PipeDeleteResets }
    ensures dropped { DroppedChangesNothing }
    ensures begins { BusyPeriodsBegin }
    ensures kept { TagsAreKept }
{}

/// A mask says which packets to a target are of one flow: those that agree in every bit of it.
pub fn laws_of_flows()
    ensures keys { FlowsHaveTheirKeys }
    ensures stay { FlowsStay }
    ensures masks { FlowsAreByMask }
    ensures treated { TargetsAreTreated }
{}

/// The flows of a shared link share it by their weights.
pub fn laws_of_shares()
    ensures tags { TagsByWeight }
    ensures least { PickIsLeast }
    ensures fair { PickIsFair }
    ensures raised { RaisesToTheLeast }
    ensures grows { GrowsByWork }
    ensures stretch { SharesFairly }
    ensures bytes { SharesByWeight }
{}

/// A delete empties the queues that it reaches and moves nothing that has started.
///
/// Nothing is in force at first, and nothing but a command changes what is. A packet changes nothing on the links of other
/// pipes: whatever happens there, the links of a pipe are as the clock alone leaves them.
pub fn laws_of_isolation()
    ensures pipe_delete { PipeDeleteEmpties }
    ensures queue_delete { QueueDeleteEmpties }
    ensures queue_spares { QueueDeleteSpares }
    ensures pipe_spares { PipeDeleteSpares }
    ensures commands { CommandsMoveNothing }
    ensures commands_count { CommandsCount }
    ensures subjects { SubjectsAreNamed }
    ensures only_commands { OnlyCommandsCount }
    ensures queues { QueuesHavePipes }
    ensures packets { PacketsKeepApart }
    ensures other_pipes { OtherPipesChangeNothing }
    ensures packet_tags { PacketsSpareTags }
    ensures clock_tags { ClockSparesTags }
{}

/// What other links carry changes nothing on a link, and so what other pipes carry nothing on a pipe.
///
/// With their packets taken away, each packet is queued, lost or refused as before and starts and is due at the same
/// moments. So a replay can be cut by links: each part gets its part of the replies. A pipe's part rests on what is in
/// force for the pipe and for its packets' targets alone.
/// If parts have pipes and queues of their own, a part's calls alone make the part of all happen and get the part of their
/// replies. Each is made before the clock passes its effective moment, and a Collect is of all parts.
pub fn laws_of_parts()
    ensures trace { OtherLinksChangeNothing }
    ensures replies { OtherLinksChangeNoReply }
    ensures agree { AgreeingCallsAgree }
    ensures advances { AdvancesAreNoMore }
    ensures replays { ReplaysFallApart }
    ensures whole { PartsAreWhole }
    ensures settings { PartsRestOnTheirPipe }
    ensures force { CommandsActByForce }
    ensures happens { PartsHappenAlone }
    ensures alone { PartsAreAlone }
{}

/// A call is told what happens, and nothing else.
///
/// The first 2^62 are answered. A packet, an Advance and a Collect are told the clock, and move it to the moment that they
/// name if that is later. A command is told what is in force, and one that is told Configured or Deleted is obeyed. A
/// packet that is told to be queued waits, is discarded or starts, and is then delivered once: by the first Collect whose
/// effective moment reaches its due moment. A Show tells how many packets of each flow were told to be lost, refused and
/// queued, and of the queued ones how many started, wait and were discarded.
pub fn laws_of_replies()
    ensures limit { LimitIsCounted }
    ensures clock { RepliesTellTheClock }
    ensures greatest { ClockIsTheGreatest }
    ensures named { MomentsAreNamed }
    ensures follows { ClockFollows }
    ensures obeyed { ObeysAsTold }
    ensures answered { CommandsAreAnswered }
    ensures commands { CommandsAreTold }
    ensures numbers { PacketsAreNumbered }
    ensures collects { CollectsAreTold }
    ensures once { ToldOnce }
    ensures due { ToldWhenDue }
    ensures stay { QueuedPacketsStay }
    ensures delivered { QueuedPacketsAreDelivered }
    ensures shows { ShowsAreTold }
    ensures starts { StartsAreCounted }
    ensures flows { FlowsWereTold }
{}

/// What arrives is what was told to be queued.
///
/// It has its own length. It is on its flow's own link if it was sent to a pipe, and on the one link of the pipe if it was
/// sent to a queue. So all queues of a pipe together keep the configured rate.
pub fn laws_of_acceptance()
    ensures arrivals { ArrivalsAreTold }
    ensures queued { QueuedPacketsArrive }
    ensures rate { QueuesShareTheRate }
{}

/// A queue is emptied by a delete alone, which reaches the flow's key and is told Deleted.
///
/// Any other command makes nothing happen. So of the accepted packets of a flow each has started, waits or was discarded.
pub fn laws_of_discards()
    ensures deletes { DiscardsAreDeletes }
    ensures spared { CommandsSpare }
    ensures add_up { PacketsAddUp }
{}
