//! Where an end stands, and what may move it.

// The sender's place.
#[derive(Clone, Copy, Debug, PartialEq, Eq)]
pub(crate) enum SenderPlace {
    // SF: it may send.
    ToSend,
    // WA: it awaits a reply.
    AwaitsReply,
    // SC: it has to confirm.
    ToConfirm,
    // ET2: it has to part.
    ToPart,
    // WT2: it has to meet.
    ToMeet,
}

// What moves a sender if it is due.
#[derive(Clone, Copy)]
pub(crate) enum SenderEvent {
    Send,
    Retry,
    Abandon,
    Confirm,
    Part,
}

// The hut's place.
#[derive(Clone, Copy, Debug, PartialEq, Eq)]
pub(crate) enum HutPlace {
    // WF: it awaits a frame.
    AwaitsFrame,
    // SI: it has to tell.
    ToTell,
    // SA: it has to reply.
    ToReply,
    // RTS: it has to reply to a repeat.
    ToReplyAgain,
    // NOK: it has to tell a break.
    ToTellBreak,
}

// What moves a hut's end if it is due.
#[derive(Clone, Copy)]
pub(crate) enum HutEvent {
    // a frame arrives
    Arrive,
    Tell,
    Reply,
    Break,
    Meet,
}
