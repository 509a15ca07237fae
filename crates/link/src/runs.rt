//! A list of calls on a link, and its log.
ghost use Rattle.std.specs.Prelude.{◌≡◌, length, map, take};
ghost use Rattle.link.specs.declared.events.Event.{Event};
ghost use Rattle.link.specs.States.{plain};
ghost use Rattle.link.specs.Runs.{StaysLawful, Runs, run_answer, run_count, written, behind, call_of};

use crate::calls::Call;
use crate::events::Event;
use crate::links::Link;
use crate::refusals::LinkRefusal;
use channel::Channel;
use loads::{Book, EmptyLoad, Load};

impl<T: Load, K: Channel<T>, L: Channel<EmptyLoad>> Link<T, K, L> {
    /// Makes calls in order, and writes each with its answer to the front of the log. A log that is shorter than the calls is
    /// turned down, and none is made. Open: what becomes of the frames that are polled for.
    pub fn run(
        &mut self,
        book: &Book<T>,
        calls: &[Call],
        log: &mut [Event<T>],
    ) -> Result<(), LinkRefusal>
        ensures answer { result ≡ run_answer (length calls.now) (length log.old) }
        ensures called { map call_of (written calls.now log.old log.new)
            ≡ take (run_count (length calls.now) (length log.old)) calls.now }
        ensures later { behind calls.now log.old log.new ≡ behind calls.now log.old log.old }
        ensures open_answers { Runs K.Channel L.Channel book.now self.old
            (written calls.now log.old log.new) self.new }
        ensures law { StaysLawful book.now (plain K.Channel L.Channel self.old)
            (written calls.now log.old log.new) (plain K.Channel L.Channel self.new) }
    {
        if log.len() < calls.len() {
            return Err(LinkRefusal::ShortLog);
        }
        for (i, call) in calls.iter().enumerate() {
            log[i] = self.step(book, *call);
        }
        Ok(())
    }
}
