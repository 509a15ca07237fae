//! A link over empty rains that sends from a book, and the tally of its calls.
ghost use Rattle.std.specs.Prelude.{◌≡◌, [], IfOk};
ghost use Rattle.loads.specs.Readings.{readings as reading_kind};
ghost use Rattle.link.specs.declared.calls.Call.TheVariants as call;
ghost use Rattle.link.specs.Calls as rule;
ghost use Rattle.sheetrun.specs.CallsByMarks.{marked_link, link_over};
ghost use Rattle.pace.specs.Links.{CountedState, readings_of, at_start, counts, counts_all, delivery};
ghost use Rattle.pace.specs.Tallies.{word_number};

use crate::tallies::Tally;
use channels::{Rain, Store, Wire};
use link::{Link, LinkRefusal, Word};
use loads::{Book, Reading};
use sheetrun::RainedLink;
use std::alloc::{AllocError, Global};
use std::marker::Model;

/// The most loads of a book here.
pub const MOST_LOADS: u16 = 4096;

/// A link that has joined with 2 repeats, and loses and delays nothing.
pub fn joined_link() -> RainedLink<'static, Reading>
    ensures answer { marked_link reading_kind result ≡ link_over 2 [] [] }
{
    let to_hut = Rain::new(Wire::new(), &[]).unwrap();
    let back = Rain::new(Store::new(), &[]).unwrap();
    let mut link = Link::new(to_hut, back);
    link.join(2).unwrap();
    link
}

/// A book of so many readings. The factor spreads their values over all 32 bits. Open: whether there is memory for them.
#[tactic(auto, unfolding(crate::specs::Links::readings_of))]
pub fn readings(heap: Global, loads: u16) -> Result<Book<Reading>, AllocError>
    ensures made { IfOk result (λ book. book ≡ readings_of loads) }
{
    let mut readings = Vec::new(heap);
    for place in 0..u32::from(loads) {
        let value = place.wrapping_mul(2_654_435_761);
        readings.push(Reading { value })?;
    }
    Ok(Book::new(readings))
}

// A word as a number.
fn number(word: Word) -> u32
    ensures answer { result ≡ word_number word }
{
    match word {
        Word::Ok => 0,
        Word::NotOk => 1,
        Word::DontKnow => 2,
    }
}

/// A link that sends from a book, and the tally of the calls that were made on it.
#[derive(Drop)]
pub struct CountedLink<'b> {
    book: &'b Book<Reading>,
    link: RainedLink<'static, Reading>,
    tally: Tally,
}

// Clauses see a link with its marks.
impl<'b> Model for CountedLink<'b> {
    ghost Value = { CountedState };

    ghost view = { λ counted. record {
      book = counted.book.now;
      link = marked_link reading_kind counted.link;
      tally = counted.tally;
    } };
}

impl<'b> CountedLink<'b> {
    /// A link that has joined, before the first call.
    pub fn new(book: &'b Book<Reading>) -> CountedLink<'b>
        ensures answer { result ≡ at_start book.now }
    {
        CountedLink {
            book,
            link: joined_link(),
            tally: Tally::new(),
        }
    }

    /// Asks for `count` loads from `start` on.
    pub fn request(&mut self, start: u16, count: u16)
        ensures after { self.new ≡ counts self.old (call.Request start count) }
    {
        self.tally.take(self.link.request(self.book, start, count));
    }

    // The call of this name, as the next four.
    fn send(&mut self)
        ensures after { self.new ≡ counts self.old call.Send }
    {
        self.tally.take(self.link.send(self.book));
    }

    fn carry(&mut self)
        ensures after { self.new ≡ counts self.old call.Carry }
    {
        self.tally.take(self.link.carry());
    }

    fn tell(&mut self)
        ensures after { self.new ≡ counts self.old call.Tell }
    {
        if let Some((_, load)) = self.tally.take(self.link.tell()) {
            self.tally.add(load.value);
        }
    }

    fn reply(&mut self)
        ensures after { self.new ≡ counts self.old call.Reply }
    {
        self.tally.take(self.link.reply());
    }

    fn return_reply(&mut self)
        ensures after { self.new ≡ counts self.old call.Return }
    {
        self.tally.take(self.link.return_reply());
    }

    /// Makes the five calls by which the next load is delivered.
    pub fn deliver(&mut self)
        ensures after { self.new ≡ counts_all delivery self.old }
    {
        self.send();
        self.carry();
        self.tell();
        self.reply();
        self.return_reply();
    }

    /// Gives the message up.
    pub fn abandon(&mut self)
        ensures after { self.new ≡ counts self.old call.Abandon }
    {
        self.tally.take(self.link.abandon());
    }

    /// Ends the message with its word.
    pub fn confirm(&mut self)
        ensures after { self.new ≡ counts self.old call.Confirm }
    {
        if let Some(word) = self.tally.take(self.link.confirm()) {
            self.tally.add(number(word));
        }
    }

    /// Parts, after another word than OK.
    pub fn part(&mut self)
        ensures after { self.new ≡ counts self.old call.Part }
    {
        self.tally.take(self.link.part());
    }

    /// Meets, after a part.
    pub fn meet(&mut self)
        ensures after { self.new ≡ counts self.old call.Meet }
    {
        self.tally.take(self.link.meet());
    }

    /// How many calls were made.
    pub fn calls(&self) -> u64
        ensures answer { result ≡ self.now.tally.calls }
    {
        self.tally.calls
    }

    /// The sum of what they answered.
    pub fn sum(&self) -> u32
        ensures answer { result ≡ self.now.tally.sum }
    {
        self.tally.sum
    }

    /// How the last message ended, and how many of its loads the hut was told.
    pub fn outcome(&self) -> Result<(Word, u32), LinkRefusal>
        ensures answer { result ≡ rule.outcome self.now.link.link }
    {
        self.link.outcome()
    }
}
