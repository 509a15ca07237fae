//! A new link that joins over two channels and makes a list of calls, with the whole law of what it logs.
ghost use Rattle.std.specs.Prelude.{◌≡◌, IfOk, IfErr, MatchResult, Ok, Err, length, map, take, drop};
ghost use Rattle.link.specs.declared.events.Event.{Event};
ghost use Rattle.link.specs.Calls.{outcome};
ghost use Rattle.link.specs.Histories.{HistoryLeads};
ghost use Rattle.link.specs.JoinedRuns.{joined_run_answer, left_by};
ghost use Rattle.link.specs.Laws.{IsLawful, outcome_of};
ghost use Rattle.link.specs.Runs.{Runs, call_of};
ghost use Rattle.link.specs.States.{plain, new_link, joined_link, started};

use crate::calls::Call;
use crate::events::Event;
use crate::links::Link;
use crate::refusals::LinkRefusal;
use channel::Channel;
use loads::{Book, EmptyLoad, Load};

/// Why no link came of a join and a run, and the two channels, which are as they were given.
#[derive(Drop)]
pub struct NotRun<K, L> {
    /// Why.
    pub refusal: LinkRefusal,
    /// The channel that was to lead to the hut.
    pub to_hut: K,
    /// The channel that was to lead back.
    pub back: L,
}

impl<T: Load, K: Channel<T>, L: Channel<EmptyLoad>> Link<T, K, L> {
    // Takes a link apart that is turned down.
    fn not_run(self, refusal: LinkRefusal) -> NotRun<K, L>
        ensures answer { result
            ≡ record { refusal = refusal; to_hut = self.to_hut; back = self.back } }
    {
        let (to_hut, back) = self.into_parts();
        NotRun {
            refusal,
            to_hut,
            back,
        }
    }

    /// Makes a link over two channels, joins it with the repeats, and makes calls over one book in order, each of which is
    /// written with its answer to the front of the log. Refused as `join` and then as `run`; then no call is made, and the
    /// channels come back. Open: what becomes of the frames that are polled for.
    pub fn joined_run(
        to_hut: K,
        back: L,
        repeats: u8,
        book: &Book<T>,
        calls: &[Call],
        log: &mut [Event<T>],
    ) -> Result<Link<T, K, L>, NotRun<K, L>>
        ensures answer { let answer = joined_run_answer repeats
            (plain K.Channel L.Channel (new_link {T = T} to_hut back))
            (length calls.now) (length log.old) in
            MatchResult result (λ _. answer ≡ Ok tt) (λ not. answer ≡ Err not.refusal) }
        ensures refused { IfErr result (λ not.
            (not.to_hut ≡ to_hut) × (not.back ≡ back) × (log.new ≡ log.old)) }
        ensures called { IfOk result (λ _.
            map call_of (take (length calls.now) log.new) ≡ calls.now) }
        ensures later { IfOk result (λ _.
            drop (length calls.now) log.new ≡ drop (length calls.now) log.old) }
        ensures open_answers { IfOk result (λ link. Runs K.Channel L.Channel book.now
            (joined_link repeats to_hut back) (take (length calls.now) log.new) link) }
        ensures after { IfOk result (λ link. plain K.Channel L.Channel link
            ≡ left_by book.now (started repeats) (take (length calls.now) log.new)) }
        ensures law { IfOk result (λ link.
            HistoryLeads book.now repeats (take (length calls.now) log.new)
            (plain K.Channel L.Channel link)
            × IsLawful book.now repeats (take (length calls.now) log.new)) }
        ensures outcome { IfOk result (λ link. outcome (plain K.Channel L.Channel link)
            ≡ outcome_of (take (length calls.now) log.new)) }
    {
        let mut link = Link::new(to_hut, back);
        if let Err(refusal) = link.join(repeats) {
            return Err(link.not_run(refusal));
        }
        if let Err(refusal) = link.run(book, calls, log) {
            return Err(link.not_run(refusal));
        }
        Ok(link)
    }
}
