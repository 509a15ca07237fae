//! The hut's end: it holds a frame, tells its load, and replies.
ghost use Rattle.std.specs.Prelude.{◌≡◌};
ghost use Rattle.loads.specs.declared.frames.Frame.{Frame};
ghost use Rattle.channel.specs.Rows.{RowLeads};
ghost use Rattle.link.specs.Changes.{answer_of, after_of, offers};
ghost use Rattle.link.specs.States.{HutState, hut_start};
ghost use Rattle.link.specs.Huts as hut;

use crate::places::{HutEvent, HutPlace};
use crate::refusals::LinkRefusal;
use crate::words::Position;
use channel::Channel;
use loads::{EmptyLoad, Frame};
use std::marker::Model;

/// The hut's end.
#[derive(Drop)]
pub struct Hut<T> {
    place: HutPlace,
    // nothing was told yet, or the load told last was the last of its message, or a break was told since
    fresh: bool,
    // toggles are compared
    strict: bool,
    // on from a first reply or a break until a new frame arrives, or a break becomes due
    timer: bool,
    // the sender has parted, and they have not met since
    quiet: bool,
    // the toggle of the next new frame
    expected: bool,
    held: Option<Frame<T>>,
}

impl<T> Model for Hut<T> {
    ghost Value = { HutState T };

    ghost view = { λ h. record {
      place = h.place;
      fresh = h.fresh;
      strict = h.strict;
      timer = h.timer;
      quiet = h.quiet;
      expected = h.expected;
      held = h.held;
    } };
}

// The position of a frame's load in its message.
fn position_of<T>(frame: &Frame<T>) -> Position
    ensures answer { result ≡ hut.position_of frame.now }
{
    if frame.last {
        Position::Ok
    } else if frame.first {
        Position::First
    } else {
        Position::Incomplete
    }
}

// The reply to a frame.
fn reply_to<T>(frame: &Frame<T>) -> Frame<EmptyLoad>
    ensures answer { result ≡ hut.reply_to frame.now }
{
    Frame {
        first: frame.first,
        last: frame.last,
        toggle: frame.toggle,
        load: EmptyLoad,
    }
}

impl<T: Copy> Hut<T> {
    /// An end that awaits the first frame.
    pub fn new() -> Hut<T>
        ensures answer { result ≡ hut_start }
    {
        Hut {
            place: HutPlace::AwaitsFrame,
            fresh: true,
            strict: false,
            timer: false,
            quiet: false,
            expected: false,
            held: None,
        }
    }

    // Where an event leads, if it is due.
    fn next_place(&self, event: HutEvent) -> Result<HutPlace, LinkRefusal>
        ensures answer { result ≡ hut.next_place self.now.place event self.now }
    {
        match (self.place, event) {
            (HutPlace::AwaitsFrame, HutEvent::Arrive) => Ok(HutPlace::ToTell),
            (HutPlace::ToTell, HutEvent::Tell) => Ok(HutPlace::ToReply),
            (HutPlace::ToReply, HutEvent::Reply) => Ok(HutPlace::AwaitsFrame),
            (HutPlace::ToReplyAgain, HutEvent::Reply) => Ok(HutPlace::AwaitsFrame),
            (HutPlace::ToTellBreak, HutEvent::Break) => Ok(HutPlace::AwaitsFrame),
            (HutPlace::AwaitsFrame, HutEvent::Meet) if self.quiet => Ok(HutPlace::AwaitsFrame),
            _ => Err(LinkRefusal::NotDue),
        }
    }

    /// A frame arrives. An end that awaits none lets it go.
    pub fn carry(&mut self, frame: &Frame<T>)
        ensures after { self.new ≡ hut.arrived self.old frame.now }
    {
        let Ok(place) = self.next_place(HutEvent::Arrive) else {
            return;
        };
        if self.strict && frame.toggle != self.expected {
            self.place = HutPlace::ToReplyAgain;
        } else {
            self.place = place;
            self.timer = false;
        }
        self.held = Some(*frame);
    }

    /// Tells the load that is held, with its position.
    pub fn tell(&mut self) -> Result<(Position, T), LinkRefusal>
        ensures answer { result ≡ answer_of (hut.tell self.old) }
        ensures after { self.new ≡ after_of self.old (hut.tell self.old) }
    {
        let place = self.next_place(HutEvent::Tell)?;
        let frame = self.held.ok_or(LinkRefusal::NotDue)?;
        self.place = place;
        self.fresh = frame.last;
        self.strict = true;
        self.expected = !frame.toggle;
        Ok((position_of(&frame), frame.load))
    }

    /// Puts a reply to the frame that is held into the channel.
    pub fn reply<L: Channel<EmptyLoad>>(&mut self, channel: &mut L) -> Result<(), LinkRefusal>
        ensures answer { result
            ≡ (offers self.old (L.waiting channel.old) (hut.reply self.old)).answer }
        ensures after { self.new
            ≡ (offers self.old (L.waiting channel.old) (hut.reply self.old)).after }
        ensures waiting { L.waiting channel.new
            ≡ (offers self.old (L.waiting channel.old) (hut.reply self.old)).waiting }
        ensures puts { RowLeads L.Channel channel.old
            (offers self.old (L.waiting channel.old) (hut.reply self.old)).puts channel.new }
    {
        let place = self.next_place(HutEvent::Reply)?;
        let frame = self.held.ok_or(LinkRefusal::NotDue)?;
        channel.put(&reply_to(&frame))?;
        if self.place == HutPlace::ToReply {
            self.timer = true;
        }
        self.place = place;
        Ok(())
    }

    /// The sender parted.
    pub fn part(&mut self)
        ensures after { self.new ≡ hut.parted self.old }
    {
        self.quiet = true;
        if !self.timer {
            return;
        }
        self.strict = false;
        if !self.fresh {
            self.place = HutPlace::ToTellBreak;
            self.timer = false;
        }
    }

    /// Tells that the message was broken off.
    pub fn tell_break(&mut self) -> Result<(), LinkRefusal>
        ensures answer { result ≡ answer_of (hut.tell_break self.old) }
        ensures after { self.new ≡ after_of self.old (hut.tell_break self.old) }
    {
        self.place = self.next_place(HutEvent::Break)?;
        self.fresh = true;
        self.timer = true;
        Ok(())
    }

    /// Is ready for the next message.
    pub fn meet(&mut self) -> Result<(), LinkRefusal>
        ensures answer { result ≡ answer_of (hut.meet self.old) }
        ensures after { self.new ≡ after_of self.old (hut.meet self.old) }
    {
        self.place = self.next_place(HutEvent::Meet)?;
        self.quiet = false;
        Ok(())
    }
}
