//! Runs on a link over two rains, whose marks decide what is answered.
ghost use Rattle.std.specs.Prelude.{◌≡◌, ◌<◌, List, [], length, take, IfOk, IfErr, vec_items};
ghost use Rattle.link.specs.Histories.{HistoryLeads};
ghost use Rattle.link.specs.Runs.{StaysLawful, run_answer, run_count, written, behind};
ghost use Rattle.sheetrun.specs.Prints.{events_of, IsLawfulRun};
ghost use Rattle.sheetrun.specs.CallsByMarks.{marked_link, link_over, calls_by_marks};

use channels::{Rain, Store, Wire};
use link::{Answer, Call, Event, Link, LinkRefusal};
use loads::{Book, EmptyLoad, Load};
use sheet::Sheet;
use std::alloc::{AllocError, Global};

/// A link over a wire to the hut and a store back, each under a rain.
pub type RainedLink<'m, T> = Link<T, Rain<'m, Wire<T>>, Rain<'m, Store<EmptyLoad>>>;

/// Makes calls in order, and writes each with its answer to the front of the log, as `Link::run`. The marks decide what
/// becomes of each frame, so nothing of it is open.
pub fn run_by_marks<'m, T: Load>(
    link: &mut RainedLink<'m, T>,
    book: &Book<T>,
    calls: &[Call],
    log: &mut [Event<T>],
) -> Result<(), LinkRefusal>
    ensures answer { result ≡ run_answer (length calls.now) (length log.old) }
    ensures after { (written calls.now log.old log.new, marked_link T.Load link.new)
        ≡ calls_by_marks book.now
        (take (run_count (length calls.now) (length log.old)) calls.now)
        (marked_link T.Load link.old) }
    ensures later { behind calls.now log.old log.new ≡ behind calls.now log.old log.old }
    ensures law { StaysLawful book.now (marked_link T.Load link.old).link
        (written calls.now log.old log.new) (marked_link T.Load link.new).link }
{
    link.run(book, calls, log)
}

// The same with a log that is as long as the calls.
fn run_whole<'m, T: Load>(
    link: &mut RainedLink<'m, T>,
    book: &Book<T>,
    calls: &[Call],
    log: &mut [Event<T>],
)
    requires { length calls.now ≡ length log.old }
    ensures after { (log.new, marked_link T.Load link.new)
        ≡ calls_by_marks book.now calls.now (marked_link T.Load link.old) }
    ensures law { StaysLawful book.now (marked_link T.Load link.old).link log.new
        (marked_link T.Load link.new).link }
{
    run_by_marks(link, book, calls, log).unwrap();
}

// A link over the marks of a sheet, joined with its repeats.
fn joined_link<'m, 's, T: Load>(sheet: &'m Sheet<'s, T>) -> RainedLink<'m, T>
    ensures answer { marked_link T.Load result
        ≡ link_over sheet.now.repeats sheet.now.to_hut sheet.now.back }
    ensures law { (book : List T) →
        HistoryLeads book sheet.now.repeats [] (marked_link T.Load result).link }
{
    let to_hut = Rain::of_marks(Wire::new(), sheet.to_hut()).unwrap();
    let back = Rain::of_marks(Store::new(), sheet.back()).unwrap();
    let mut link = Link::new(to_hut, back);
    link.join(sheet.repeats()).unwrap();
    link
}

/// The calls of a sheet, each with its answer. Open: whether there is memory for them, where there are any.
pub fn sheet_events<'s, T: Load>(
    heap: Global,
    sheet: &Sheet<'s, T>,
) -> Result<Vec<Event<T>>, AllocError>
    ensures made { IfOk result (λ events. vec_items events ≡ events_of sheet.now) }
    ensures memory { IfErr result (λ _. 0 < length sheet.now.calls) }
    ensures law { IfOk result (λ _. IsLawfulRun sheet.now) }
{
    let mut link = joined_link(sheet);
    let calls = sheet.calls();
    // fills the log; the run writes over all of it
    let unwritten = Event {
        call: Call::Meet,
        answer: Ok(Answer::Done),
    };
    let mut log = Vec::new(heap);
    log.resize(calls.len(), unwritten)?;
    run_whole(&mut link, sheet.book(), calls, &mut log);
    Ok(log)
}
