//! Sends a message of three readings over a link that loses a frame and a reply.

#![tactic(auto)]

ghost use Rattle.std.specs.Prelude.{◌≡◌, ℕ, List, map, Ok, Err, IfOk, IfErr, OnOk, MatchResult};
ghost use Rattle.std.specs.Io.KnownBytes.{Appends};
ghost use Rattle.link.specs.States.{plain, new_link, joined_link, started};
ghost use Rattle.link.specs.Calls.{join, outcome};
ghost use Rattle.link.specs.Histories.{HistoryLeads};
ghost use Rattle.link.specs.Laws.{IsLawful, outcome_of};
ghost use Rattle.link.specs.Runs.{Runs, call_of};
ghost use Rattle.link.specs.JoinedRuns.{left_by};
ghost use Rattle.showlink.specs.Sendings.{sendings};
ghost use Rattle.showlink.specs.Prints.{three, sent, three_lines};

use channel::Channel;
use channels::{Rain, Store, Wire};
use link::{Answer, Call, Event, Link, NotRun, Word};
use linktext::{event_lines, outcome_line};
use loads::{Book, EmptyLoad, Reading};
use std::alloc::Global;
use std::io::Write;

// Readings 7, 8 and 9.
const OCTETS: [u8; 12] = [0, 0, 0, 7, 0, 0, 0, 8, 0, 0, 0, 9];

// The first frame is lost, and so is the reply to the second load; each of the two loads is sent once more. Two calls are
// not due: the tell of that second load's repeat, and the send after the last reply.
const CALLS: [Call; 27] = [
    Call::Request { start: 0, count: 3 },
    Call::Send,
    Call::Carry,
    Call::Retry,
    Call::Send,
    Call::Carry,
    Call::Tell,
    Call::Reply,
    Call::Return,
    Call::Send,
    Call::Carry,
    Call::Tell,
    Call::Reply,
    Call::Return,
    Call::Retry,
    Call::Send,
    Call::Carry,
    Call::Tell,
    Call::Reply,
    Call::Return,
    Call::Send,
    Call::Carry,
    Call::Tell,
    Call::Reply,
    Call::Return,
    Call::Send,
    Call::Confirm,
];

// Joins a new link over two channels with 2 repeats and makes the calls on it. Gives the link, and an event for each call.
// Open: what becomes of the frames that are polled for.
fn send_three<K: Channel<Reading>, L: Channel<EmptyLoad>>(
    to_hut: K,
    back: L,
    book: &Book<Reading>,
) -> Result<(Link<Reading, K, L>, [Event<Reading>; 27]), NotRun<K, L>>
    ensures answer { let answer = (join 2 (plain K.Channel L.Channel
        (new_link {T = Reading} to_hut back))).answer in
        MatchResult result (λ _. answer ≡ Ok tt) (λ not. answer ≡ Err not.refusal) }
    ensures refused { IfErr result (λ not. (not.to_hut ≡ to_hut) × (not.back ≡ back)) }
    ensures calls { IfOk result (λ (link, log). map call_of log ≡ sendings) }
    ensures open_answers { IfOk result (λ (link, log).
        Runs K.Channel L.Channel book.now (joined_link 2 to_hut back) log link) }
    ensures after { IfOk result (λ (link, log).
        plain K.Channel L.Channel link ≡ left_by book.now (started 2) log) }
    ensures law { IfOk result (λ (link, log).
        HistoryLeads book.now 2 log (plain K.Channel L.Channel link)
        × IsLawful book.now 2 log) }
    ensures outcome { IfOk result (λ (link, log).
        outcome (plain K.Channel L.Channel link) ≡ outcome_of log) }
{
    // no call answers this, so an entry that no call wrote would show
    let mut log = [Event {
        call: Call::Meet,
        answer: Ok(Answer::Confirmed(Word::Ok)),
    }; 27];
    let link = Link::joined_run(to_hut, back, 2, book, &CALLS, &mut log)?;
    Ok((link, log))
}

// Sends the three readings, and writes the lines of the calls and of the outcome. Open: whether it ends without an error, and
// what the output holds after one.
fn show_three<W: Write>(heap: Global, output: &mut W) -> anyhow::Result<()>
    ensures printed { OnOk result
        (Appends (W.contents output.old) (W.contents output.new) three_lines) }
    ensures law { OnOk result (IsLawful three 2 sent.0) }
{
    let book = Book::<Reading>::read(heap, 3, &OCTETS)?;
    let to_hut = Rain::new(Wire::new(), &[1]).unwrap();
    let back = Rain::new(Store::new(), &[0, 1]).unwrap();
    let (link, log) = match send_three(to_hut, back, &book) {
        Ok(sent) => sent,
        Err(not) => return Err(not.refusal.into()),
    };
    let (word, told) = link.outcome()?;
    let lines = event_lines(heap, &log)?;
    let last = outcome_line(heap, word, told)?;
    output.write_all(format!(in heap; "{lines}{last}\n")?.as_bytes())?;
    Ok(())
}

fn main(rt: HostRuntime) -> anyhow::Result<()> {
    show_three(rt.alloc(), &mut rt.stdout())
}
