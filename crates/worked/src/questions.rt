//! Questions that need no run, each kept with its answer: of a piece, of a request, of timers.
ghost use Rattle.std.specs.Prelude.{◌≡◌, Result, length};
ghost use Rattle.worked.specs.Answers.{numbered, piece_answer, request_answer, timer_answer};

use channels::{Store, Wire};
use link::{Link, timers_fit};
use loads::{Book, Piece, Reading, Refusal};

/// The fields of a piece, and whether there is such a piece.
#[derive(Clone, Copy)]
pub struct PieceExample {
    /// The tile's zoom.
    pub zoom: u8,
    /// The tile's column.
    pub column: u32,
    /// The tile's row.
    pub row: u32,
    /// Which part of the tile it is.
    pub number: u16,
    /// The 64 bits of the part.
    pub body: u64,
    /// The piece, or the number of the refusal.
    pub answer: Result<Piece, u8>,
}

/// A request on a link that has just joined, and whether it is accepted.
#[derive(Clone, Copy)]
pub struct RequestExample {
    /// How many loads the book has.
    pub loads: usize,
    /// The place of the first load that is asked for.
    pub start: u16,
    /// How many loads are asked for.
    pub count: u16,
    /// Accepted, or the number of the refusal.
    pub answer: Result<(), u8>,
}

/// Timers, and whether they fit.
#[derive(Clone, Copy)]
pub struct TimerExample {
    /// The repeats of the link.
    pub repeats: u8,
    /// The most ticks that a channel keeps a frame.
    pub bound: u16,
    /// The ticks of the sender's timer.
    pub t1: u16,
    /// The ticks of the hut's timer.
    pub t2: u16,
    /// Accepted, or the number of the refusal.
    pub answer: Result<(), u8>,
}

// An answer, with its refusal as a number.
fn numbered<X, E: Refusal + Drop>(answer: Result<X, E>) -> Result<X, u8>
    ensures answer { result ≡ numbered E.number answer }
{
    answer.map_err(|refusal| refusal.number())
}

impl PieceExample {
    // Asks for the piece of these fields.
    pub(crate) fn ask(zoom: u8, column: u32, row: u32, number: u16, body: u64) -> PieceExample
        ensures answer { result ≡ record {
          zoom = zoom;
          column = column;
          row = row;
          number = number;
          body = body;
          answer = piece_answer zoom column row number body;
        } }
    {
        PieceExample {
            zoom,
            column,
            row,
            number,
            body,
            answer: numbered(Piece::new(zoom, column, row, number, body)),
        }
    }
}

impl RequestExample {
    // Asks a link that has just joined for loads of the book.
    pub(crate) fn ask(book: &Book<Reading>, start: u16, count: u16) -> RequestExample
        ensures answer { result ≡ record {
          loads = length book.now;
          start = start;
          count = count;
          answer = request_answer book.now start count;
        } }
    {
        let mut link = Link::new(Wire::new(), Store::new());
        link.join(0).unwrap();
        RequestExample {
            loads: book.len(),
            start,
            count,
            answer: numbered(link.request(book, start, count)),
        }
    }
}

impl TimerExample {
    // Asks whether the timers fit.
    pub(crate) fn ask(repeats: u8, bound: u16, t1: u16, t2: u16) -> TimerExample
        ensures answer { result ≡ record {
          repeats = repeats;
          bound = bound;
          t1 = t1;
          t2 = t2;
          answer = timer_answer repeats bound t1 t2;
        } }
    {
        TimerExample {
            repeats,
            bound,
            t1,
            t2,
            answer: numbered(timers_fit(repeats, bound, t1, t2)),
        }
    }
}
