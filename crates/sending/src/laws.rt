//! The laws of every life of a sender: made once, then any calls in any order, refused or not, whatever waits at the inlets.

ghost use Rattle.sending.specs.Life.{CallsLengthen};
ghost use Rattle.sending.specs.LineLaws.{CycleBlocks, CyclesWhole, GapsNeverEnd, GapsNeverStart, ItemsInPlace, RunsLined, SendsItsItems};
ghost use Rattle.sending.specs.ClientLaws.{SlotsFilled, LaidWhole, FramesCarry, StretchesCarry, TakesWaiting, GivenLeaves, OthersKeep};
ghost use Rattle.sending.specs.MessageLaws.{AcceptedLeft, RefusedKeeps, RefusedNotLeft, MessagesSent, MessagesOnTime, OnlyLeftMessages, MessagesEnd, FirstStarts};

/// Each call makes a life longer by one.
pub fn the_calls()
    ensures { CallsLengthen }
{}

/// What stands on the line.
pub fn the_line()
    ensures blocks { SendsItsItems }
    ensures runs { RunsLined }
    ensures places { ItemsInPlace }
    ensures gaps { GapsNeverStart }
    ensures gaps_end { GapsNeverEnd }
    ensures cycles { CyclesWhole }
    ensures cycle_blocks { CycleBlocks }
{}

/// What becomes of the clients' blocks.
pub fn the_clients()
    ensures slots { SlotsFilled }
    ensures whole { LaidWhole }
    ensures carries { FramesCarry }
    ensures stretches { StretchesCarry }
    ensures waiting { TakesWaiting }
    ensures given { GivenLeaves }
    ensures others { OthersKeep }
{}

/// What becomes of the messages that are left.
pub fn the_messages()
    ensures refused { RefusedKeeps }
    ensures accepted { AcceptedLeft }
    ensures not_left { RefusedNotLeft }
    ensures sent { MessagesSent }
    ensures on_time { MessagesOnTime }
    ensures only { OnlyLeftMessages }
    ensures first { FirstStarts }
    ensures end { MessagesEnd }
{}
