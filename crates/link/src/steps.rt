//! One call of any kind, and its answer as a log has it.
ghost use Rattle.std.specs.Prelude.{◌≡◌, [], ◌∷◌, OnErr};
ghost use Rattle.link.specs.States.{plain};
ghost use Rattle.link.specs.Runs.{StaysLawful, Steps};

use crate::calls::Call;
use crate::events::{Answer, Event};
use crate::links::Link;
use crate::refusals::LinkRefusal;
use channel::Channel;
use loads::{Book, EmptyLoad, Load};

impl<T: Load, K: Channel<T>, L: Channel<EmptyLoad>> Link<T, K, L> {
    // Makes a call of any kind. Open: what becomes of a frame that is polled for.
    fn make(&mut self, book: &Book<T>, call: Call) -> Result<Answer<T>, LinkRefusal>
        ensures open_answer { Steps K.Channel L.Channel book.now self.old
            (record { call = call; answer = result }) self.new }
    {
        match call {
            Call::Request { start, count } => self.request(book, start, count)?,
            Call::Send => self.send(book)?,
            Call::Carry => return Ok(Answer::Polled(self.carry()?)),
            Call::Tell => {
                let (position, load) = self.tell()?;
                return Ok(Answer::Told(position, load));
            }
            Call::Reply => self.reply()?,
            Call::Return => return Ok(Answer::Polled(self.return_reply()?)),
            Call::Retry => self.retry()?,
            Call::Abandon => self.abandon()?,
            Call::Confirm => return Ok(Answer::Confirmed(self.confirm()?)),
            Call::Part => self.part()?,
            Call::Break => self.tell_break()?,
            Call::Meet => self.meet()?,
        }
        Ok(Answer::Done)
    }

    /// Makes a call of any kind, and gives it with its answer. Open: what becomes of a frame that is polled for.
    pub fn step(&mut self, book: &Book<T>, call: Call) -> Event<T>
        ensures called { result.call ≡ call }
        ensures open_answer { Steps K.Channel L.Channel book.now self.old result self.new }
        ensures refused { OnErr result.answer
            (plain K.Channel L.Channel self.new ≡ plain K.Channel L.Channel self.old) }
        ensures law { StaysLawful book.now (plain K.Channel L.Channel self.old) (result ∷ [])
            (plain K.Channel L.Channel self.new) }
    {
        let answer = self.make(book, call);
        Event { call, answer }
    }
}
