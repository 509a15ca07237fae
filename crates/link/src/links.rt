//! The link between a sender and a hut's end, with its twelve calls. Each call is a step of a history by its clauses.
ghost use Rattle.std.specs.Prelude.{◌≡◌, ℕ, List, [], None, Ok, IsOk};
ghost use Rattle.std.specs.Option.{ok_or};
ghost use Rattle.link.specs.declared.refusals.LinkRefusal.TheVariants.{NotJoined};
ghost use Rattle.loads.specs.declared.empties.EmptyLoad.{EmptyLoad};
ghost use Rattle.link.specs.States.{LinkParts, plain, new_link};
ghost use Rattle.std.specs.Result.{result_unwrap_or};
ghost use Rattle.link.specs.Calls as rule;
ghost use Rattle.link.specs.Calls.{event_of};
ghost use Rattle.link.specs.declared.events.Event.{Event};
ghost use Rattle.link.specs.declared.words.Heard.TheVariants.{Still};
ghost use Rattle.link.specs.Histories.{HistoryLeads};
ghost use Rattle.link.specs.Runs.{Steps};
ghost use Rattle.link.specs.declared.calls.Call.TheVariants as call;
ghost use Rattle.link.specs.declared.events.Answer.TheVariants.{Done, Polled, Told, Confirmed};
ghost use Rattle.link.specs.Laws.{outcome_of};

use crate::huts::Hut;
use crate::refusals::LinkRefusal;
use crate::senders::Sender;
use crate::timers::MOST_REPEATS;
use crate::words::{Heard, Position, Word};
use channel::{Channel, Poll};
use loads::{Book, EmptyLoad, Load};
use std::marker::Model;

/// A link over channel K to the hut, and channel L back. Every call of it but join is refused as `NotJoined` before it joined,
/// and a refused call changes nothing.
#[derive(Drop)]
pub struct Link<T, K, L> {
    sender: Sender,
    hut: Hut<T>,
    // how many loads of the last message the hut was told
    told: u32,
    // how the last message that was confirmed ended
    word: Option<Word>,
    // how often a load may be sent again; none where it is not joined
    repeats: Option<u8>,
    to_hut: K,
    back: L,
}

impl<T, K, L> Model for Link<T, K, L> {
    ghost Value = { LinkParts T K L };

    ghost view = { λ link. record {
      sender = link.sender;
      hut = link.hut;
      told = link.told;
      word = link.word;
      repeats = link.repeats;
      to_hut = link.to_hut;
      back = link.back;
    } };
}

impl<T: Load, K: Channel<T>, L: Channel<EmptyLoad>> Link<T, K, L> {
    /// A link over two channels, not joined.
    pub fn new(to_hut: K, back: L) -> Link<T, K, L>
        ensures answer { result ≡ new_link to_hut back }
    {
        Link {
            sender: Sender::new(),
            hut: Hut::new(),
            told: 0,
            word: None,
            repeats: None,
            to_hut,
            back,
        }
    }

    /// The two channels, with what waits in them.
    pub fn into_parts(self) -> (K, L)
        ensures answer { result ≡ (self.to_hut, self.back) }
    {
        (self.to_hut, self.back)
    }

    /// Starts the two ends, with the repeats, if both channels are empty. Refused as `AlreadyJoined`, `TooManyRepeats` or
    /// `ChannelHolds`.
    pub fn join(&mut self, repeats: u8) -> Result<(), LinkRefusal>
        ensures answer { result ≡ (rule.join repeats (plain K.Channel L.Channel self.old)).answer }
        ensures after { plain K.Channel L.Channel self.new
            ≡ (rule.join repeats (plain K.Channel L.Channel self.old)).after }
        ensures channels { (self.new.to_hut ≡ self.old.to_hut) × (self.new.back ≡ self.old.back) }
        ensures law { IsOk result →
            (book : List T) → HistoryLeads book repeats [] (plain K.Channel L.Channel self.new) }
    {
        if self.repeats.is_some() {
            return Err(LinkRefusal::AlreadyJoined);
        }
        if repeats > MOST_REPEATS {
            return Err(LinkRefusal::TooManyRepeats);
        }
        if self.to_hut.holds() || self.back.holds() {
            return Err(LinkRefusal::ChannelHolds);
        }
        self.sender = Sender::new();
        self.hut = Hut::new();
        self.told = 0;
        self.word = None;
        self.repeats = Some(repeats);
        Ok(())
    }

    // The repeats, if the link is joined.
    fn joined(&self) -> Result<u8, LinkRefusal>
        ensures answer { result ≡ ok_or self.now.repeats NotJoined }
    {
        self.repeats.ok_or(LinkRefusal::NotJoined)
    }

    /// Opens a message of `count` loads of the book from `start` on. Refused as `MessageOpen`, `BadCount` or `BeyondBook`.
    pub fn request(&mut self, book: &Book<T>, start: u16, count: u16) -> Result<(), LinkRefusal>
        ensures answer { result
            ≡ (rule.request book.now start count (plain K.Channel L.Channel self.old)).answer }
        ensures after { plain K.Channel L.Channel self.new
            ≡ (rule.request book.now start count (plain K.Channel L.Channel self.old)).after }
        ensures step { Steps K.Channel L.Channel book.now self.old
            (event_of (call.Request start count) (λ _. Done) result) self.new }
    {
        self.joined()?;
        self.sender.request(book.len(), start, count)?;
        self.told = 0;
        Ok(())
    }

    /// Puts the next load of the book into the channel to the hut. Refused as `NotDue`, `NoLoad` or `ChannelFull`.
    pub fn send(&mut self, book: &Book<T>) -> Result<(), LinkRefusal>
        ensures answer { result ≡ (rule.send book.now (plain K.Channel L.Channel self.old)).answer }
        ensures after { plain K.Channel L.Channel self.new
            ≡ (rule.send book.now (plain K.Channel L.Channel self.old)).after }
        ensures step { Steps K.Channel L.Channel book.now self.old
            (event_of call.Send (λ _. Done) result) self.new }
    {
        self.joined()?;
        self.sender.send(book, &mut self.to_hut)
    }

    /// Polls the channel to the hut. Refused as `NothingWaits`. Open: what becomes of a frame that waits there.
    pub fn carry(&mut self) -> Result<Heard, LinkRefusal>
        ensures open_answer { result
            ≡ (rule.carry (result_unwrap_or result Still)
            (plain K.Channel L.Channel self.old)).answer }
        ensures after { plain K.Channel L.Channel self.new
            ≡ (rule.carry (result_unwrap_or result Still)
            (plain K.Channel L.Channel self.old)).after }
        ensures step { (book : List T) → Steps K.Channel L.Channel book self.old
            (event_of call.Carry Polled result) self.new }
    {
        self.joined()?;
        match self.to_hut.poll() {
            Poll::Empty => Err(LinkRefusal::NothingWaits),
            Poll::Still => Ok(Heard::Still),
            Poll::Arrived(frame) => {
                self.hut.carry(&frame);
                Ok(Heard::Arrived)
            }
            Poll::Lost => {
                self.sender.miss();
                Ok(Heard::Lost)
            }
        }
    }

    /// The hut tells the load that it holds, with its position. Refused as `NotDue`.
    pub fn tell(&mut self) -> Result<(Position, T), LinkRefusal>
        ensures answer { result ≡ (rule.tell (plain K.Channel L.Channel self.old)).answer }
        ensures after { plain K.Channel L.Channel self.new
            ≡ (rule.tell (plain K.Channel L.Channel self.old)).after }
        ensures step { (book : List T) → Steps K.Channel L.Channel book self.old
            (event_of call.Tell (λ told. Told told.0 told.1) result) self.new }
    {
        self.joined()?;
        let told = self.hut.tell()?;
        self.told = self.told.wrapping_add(1);
        Ok(told)
    }

    /// The hut puts a reply into the channel back. Refused as `NotDue` or `ChannelFull`.
    pub fn reply(&mut self) -> Result<(), LinkRefusal>
        ensures answer { result ≡ (rule.reply (plain K.Channel L.Channel self.old)).answer }
        ensures after { plain K.Channel L.Channel self.new
            ≡ (rule.reply (plain K.Channel L.Channel self.old)).after }
        ensures step { (book : List T) → Steps K.Channel L.Channel book self.old
            (event_of call.Reply (λ _. Done) result) self.new }
    {
        self.joined()?;
        self.hut.reply(&mut self.back)
    }

    /// Polls the channel back. Refused as `NothingWaits`. Open: what becomes of a reply that waits there.
    pub fn return_reply(&mut self) -> Result<Heard, LinkRefusal>
        ensures open_answer { result
            ≡ (rule.return (result_unwrap_or result Still)
            (plain K.Channel L.Channel self.old)).answer }
        ensures after { plain K.Channel L.Channel self.new
            ≡ (rule.return (result_unwrap_or result Still)
            (plain K.Channel L.Channel self.old)).after }
        ensures step { (book : List T) → Steps K.Channel L.Channel book self.old
            (event_of call.Return Polled result) self.new }
    {
        self.joined()?;
        match self.back.poll() {
            Poll::Empty => Err(LinkRefusal::NothingWaits),
            Poll::Still => Ok(Heard::Still),
            Poll::Arrived(_) => {
                self.sender.take_reply();
                Ok(Heard::Arrived)
            }
            Poll::Lost => {
                self.sender.miss();
                Ok(Heard::Lost)
            }
        }
    }

    /// After a loss: the sender may send the load once more, or has to confirm. Refused as `NotDue`.
    pub fn retry(&mut self) -> Result<(), LinkRefusal>
        ensures answer { result ≡ (rule.retry (plain K.Channel L.Channel self.old)).answer }
        ensures after { plain K.Channel L.Channel self.new
            ≡ (rule.retry (plain K.Channel L.Channel self.old)).after }
        ensures step { (book : List T) → Steps K.Channel L.Channel book self.old
            (event_of call.Retry (λ _. Done) result) self.new }
    {
        let repeats = self.joined()?;
        self.sender.retry(repeats)
    }

    /// The sender gives up the message. Refused as `NotDue`.
    pub fn abandon(&mut self) -> Result<(), LinkRefusal>
        ensures answer { result ≡ (rule.abandon (plain K.Channel L.Channel self.old)).answer }
        ensures after { plain K.Channel L.Channel self.new
            ≡ (rule.abandon (plain K.Channel L.Channel self.old)).after }
        ensures step { (book : List T) → Steps K.Channel L.Channel book self.old
            (event_of call.Abandon (λ _. Done) result) self.new }
    {
        self.joined()?;
        self.sender.abandon()
    }

    /// The message ends with a word. Refused as `NotDue`.
    pub fn confirm(&mut self) -> Result<Word, LinkRefusal>
        ensures answer { result ≡ (rule.confirm (plain K.Channel L.Channel self.old)).answer }
        ensures after { plain K.Channel L.Channel self.new
            ≡ (rule.confirm (plain K.Channel L.Channel self.old)).after }
        ensures step { (book : List T) → Steps K.Channel L.Channel book self.old
            (event_of call.Confirm Confirmed result) self.new }
    {
        self.joined()?;
        let word = self.sender.confirm()?;
        self.word = Some(word);
        Ok(word)
    }

    /// After another word than OK: the next message begins anew, and a message that was told in part is to be broken.
    /// Refused as `NotDue`.
    pub fn part(&mut self) -> Result<(), LinkRefusal>
        ensures answer { result ≡ (rule.part (plain K.Channel L.Channel self.old)).answer }
        ensures after { plain K.Channel L.Channel self.new
            ≡ (rule.part (plain K.Channel L.Channel self.old)).after }
        ensures step { (book : List T) → Steps K.Channel L.Channel book self.old
            (event_of call.Part (λ _. Done) result) self.new }
    {
        self.joined()?;
        self.sender.part()?;
        self.hut.part();
        Ok(())
    }

    /// The hut tells that a message was broken off. Refused as `NotDue`.
    pub fn tell_break(&mut self) -> Result<(), LinkRefusal>
        ensures answer { result ≡ (rule.break (plain K.Channel L.Channel self.old)).answer }
        ensures after { plain K.Channel L.Channel self.new
            ≡ (rule.break (plain K.Channel L.Channel self.old)).after }
        ensures step { (book : List T) → Steps K.Channel L.Channel book self.old
            (event_of call.Break (λ _. Done) result) self.new }
    {
        self.joined()?;
        self.hut.tell_break()
    }

    /// After a part: the hut is ready, and the sender may send. Refused as `NotDue`.
    pub fn meet(&mut self) -> Result<(), LinkRefusal>
        ensures answer { result ≡ (rule.meet (plain K.Channel L.Channel self.old)).answer }
        ensures after { plain K.Channel L.Channel self.new
            ≡ (rule.meet (plain K.Channel L.Channel self.old)).after }
        ensures step { (book : List T) → Steps K.Channel L.Channel book self.old
            (event_of call.Meet (λ _. Done) result) self.new }
    {
        self.joined()?;
        self.hut.meet()?;
        self.sender.meet();
        Ok(())
    }

    /// The word of the last message that was confirmed, and how many of its loads the hut was told. Refused as `StillOpen` or
    /// `NoneConfirmed`.
    pub fn outcome(&self) -> Result<(Word, u32), LinkRefusal>
        ensures answer { result ≡ rule.outcome (plain K.Channel L.Channel self.now) }
        ensures law { (book : List T) (repeats : ℕ) (history : List (Event T)) →
            HistoryLeads book repeats history (plain K.Channel L.Channel self.now) →
            result ≡ outcome_of history }
    {
        self.joined()?;
        if self.sender.is_open() {
            return Err(LinkRefusal::StillOpen);
        }
        let word = self.word.ok_or(LinkRefusal::NoneConfirmed)?;
        Ok((word, self.told))
    }
}
