//! The sender: it sends the loads of a message one by one, each again after a loss, up to the repeats.
ghost use Rattle.std.specs.Prelude.{◌≡◌, ◌-◌, drop, option_map};
ghost use Rattle.std.specs.List.{range_with_len};
ghost use Rattle.channel.specs.Rows.{RowLeads};
ghost use Rattle.link.specs.Changes.{answer_of, after_of, offers};
ghost use Rattle.link.specs.States.{SenderState, sender_start};
ghost use Rattle.link.specs.Senders as sender;

use crate::places::{SenderEvent, SenderPlace};
use crate::refusals::LinkRefusal;
use crate::words::Word;
use channel::Channel;
use loads::{Book, Frame, Load};
use std::marker::Model;
use std::ops::Range;

// The most loads that a message has.
const MOST_LOADS: u16 = 4096;

/// The mast's end.
#[derive(Drop)]
pub struct Sender {
    place: SenderPlace,
    // a message is open
    open: bool,
    // the next frame is to be marked as the first of its message
    first: bool,
    // a reply is awaited
    armed: bool,
    // a frame or a reply was lost
    lost: bool,
    // the bit that tells the next load from a repeat
    toggle: bool,
    // the book's places that are not yet replied to
    rest: Range<usize>,
    // how often the load at the first of them was sent; kept past the last reply, until the message is confirmed
    tries: u32,
}

impl Model for Sender {
    ghost Value = { SenderState };

    ghost view = { λ s. record {
      place = s.place;
      «open» = s.open;
      first = s.first;
      armed = s.armed;
      lost = s.lost;
      toggle = s.toggle;
      rest = range_with_len s.rest.start (s.rest.end - s.rest.start);
      tries = s.tries;
    } };
}

impl Sender {
    /// A sender with no message.
    pub fn new() -> Sender
        ensures answer { result ≡ sender_start }
    {
        Sender {
            place: SenderPlace::ToSend,
            open: false,
            first: true,
            armed: false,
            lost: false,
            toggle: false,
            rest: 0..0,
            tries: 0,
        }
    }

    /// Whether a message is open.
    pub fn is_open(&self) -> bool
        ensures answer { result ≡ self.now.«open» }
    {
        self.open
    }

    // Whether exactly one load is not replied to.
    #[tactic(auto, using(crate::proofs::RestLaws::lone_range))]
    fn is_lone(&self) -> bool
        ensures answer { result ≡ sender.is_lone self.now.rest }
    {
        self.rest.len() == 1
    }

    // Whether no load is left to reply to.
    #[tactic(auto, using(crate::proofs::RestLaws::done_range))]
    fn is_done(&self) -> bool
        ensures answer { result ≡ sender.is_done self.now.rest }
    {
        self.rest.is_empty()
    }

    // Where an event leads, if it is due.
    fn next_place(&self, event: SenderEvent) -> Result<SenderPlace, LinkRefusal>
        ensures answer { result ≡ sender.next_place self.now.place event self.now }
    {
        match (self.place, event) {
            (SenderPlace::ToSend, SenderEvent::Send) if self.open => Ok(SenderPlace::AwaitsReply),
            (SenderPlace::ToSend, SenderEvent::Abandon) if self.open => Ok(SenderPlace::ToConfirm),
            (_, SenderEvent::Retry) if self.armed && self.lost => Ok(SenderPlace::ToSend),
            (SenderPlace::ToConfirm, SenderEvent::Confirm) => Ok(if self.is_done() {
                SenderPlace::ToSend
            } else {
                SenderPlace::ToPart
            }),
            (SenderPlace::ToPart, SenderEvent::Part) => Ok(SenderPlace::ToMeet),
            _ => Err(LinkRefusal::NotDue),
        }
    }

    /// Opens a message of `count` places from `start` on, in a book of so many loads.
    pub fn request(&mut self, loads: usize, start: u16, count: u16) -> Result<(), LinkRefusal>
        ensures answer { result ≡ answer_of (sender.request loads start count self.old) }
        ensures after { self.new ≡ after_of self.old (sender.request loads start count self.old) }
    {
        if self.open {
            return Err(LinkRefusal::MessageOpen);
        }
        if count == 0 || count > MOST_LOADS {
            return Err(LinkRefusal::BadCount);
        }
        let end = usize::from(start) + usize::from(count);
        if end > loads {
            return Err(LinkRefusal::BeyondBook);
        }
        self.open = true;
        self.rest = usize::from(start)..end;
        Ok(())
    }

    /// Gives up the message.
    pub fn abandon(&mut self) -> Result<(), LinkRefusal>
        ensures answer { result ≡ answer_of (sender.abandon self.old) }
        ensures after { self.new ≡ after_of self.old (sender.abandon self.old) }
    {
        self.place = self.next_place(SenderEvent::Abandon)?;
        Ok(())
    }

    /// After a loss: may send once more, or has to confirm where the repeats are used up.
    pub fn retry(&mut self, repeats: u8) -> Result<(), LinkRefusal>
        ensures answer { result ≡ answer_of (sender.retry repeats self.old) }
        ensures after { self.new ≡ after_of self.old (sender.retry repeats self.old) }
    {
        let place = self.next_place(SenderEvent::Retry)?;
        self.place = if self.tries <= u32::from(repeats) {
            place
        } else {
            SenderPlace::ToConfirm
        };
        self.armed = false;
        self.lost = false;
        Ok(())
    }

    /// A frame or a reply was lost.
    pub fn miss(&mut self)
        ensures after { self.new ≡ sender.missed self.old }
    {
        self.lost = true;
    }

    /// After another word than OK: the next message begins anew.
    pub fn part(&mut self) -> Result<(), LinkRefusal>
        ensures answer { result ≡ answer_of (sender.part self.old) }
        ensures after { self.new ≡ after_of self.old (sender.part self.old) }
    {
        self.place = self.next_place(SenderEvent::Part)?;
        self.first = true;
        self.toggle = !self.toggle;
        Ok(())
    }

    /// The hut is ready for the next message.
    pub fn meet(&mut self)
        ensures after { self.new ≡ sender.met self.old }
    {
        self.place = SenderPlace::ToSend;
    }

    // The next load of the book, in the frame that a send puts.
    fn frame<T: Load>(&self, book: &Book<T>) -> Option<Frame<T>>
        ensures answer { result
            ≡ option_map (sender.frame_of self.now) (sender.first_load book.now self.now.rest) }
    {
        if self.is_done() {
            return None;
        }
        let load = book.load(self.rest.start)?;
        Some(Frame {
            first: self.first,
            last: self.is_lone(),
            toggle: self.toggle,
            load,
        })
    }

    /// Puts the next load of the book into the channel.
    pub fn send<T: Load, K: Channel<T>>(
        &mut self,
        book: &Book<T>,
        channel: &mut K,
    ) -> Result<(), LinkRefusal>
        ensures answer { result
            ≡ (offers self.old (K.waiting channel.old) (sender.send book.now self.old)).answer }
        ensures after { self.new
            ≡ (offers self.old (K.waiting channel.old) (sender.send book.now self.old)).after }
        ensures waiting { K.waiting channel.new
            ≡ (offers self.old (K.waiting channel.old) (sender.send book.now self.old)).waiting }
        ensures puts { RowLeads K.Channel channel.old
            (offers self.old (K.waiting channel.old) (sender.send book.now self.old)).puts
            channel.new }
    {
        let place = self.next_place(SenderEvent::Send)?;
        let frame = self.frame(book).ok_or(LinkRefusal::NoLoad)?;
        channel.put(&frame)?;
        self.place = place;
        self.armed = true;
        self.tries = self.tries.wrapping_add(1);
        Ok(())
    }

    // The first of the places is done with, if there is one.
    fn drop_first(&mut self)
        ensures after { self.new ≡ record self.old { rest = drop 1 self.old.rest } }
    {
        self.rest.next();
    }

    /// A reply arrived: the load is done with.
    pub fn take_reply(&mut self)
        ensures after { self.new ≡ sender.replied self.old }
    {
        if self.is_lone() {
            self.place = SenderPlace::ToConfirm;
            self.first = true;
        } else {
            self.place = SenderPlace::ToSend;
            self.first = false;
            self.tries = 0;
        }
        self.toggle = !self.toggle;
        self.armed = false;
        self.drop_first();
    }

    // How the message ended.
    fn word(&self) -> Word
        ensures answer { result ≡ sender.word_of self.now }
    {
        if self.is_done() {
            Word::Ok
        } else if self.is_lone() && self.tries != 0 {
            Word::DontKnow
        } else {
            Word::NotOk
        }
    }

    /// Ends the message, and says how.
    pub fn confirm(&mut self) -> Result<Word, LinkRefusal>
        ensures answer { result ≡ answer_of (sender.confirm self.old) }
        ensures after { self.new ≡ after_of self.old (sender.confirm self.old) }
    {
        let place = self.next_place(SenderEvent::Confirm)?;
        let word = self.word();
        self.place = place;
        self.open = false;
        self.rest = 0..0;
        self.tries = 0;
        Ok(word)
    }
}
