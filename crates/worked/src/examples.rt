//! The worked examples: frames, pieces, requests, three messages, and timers.
ghost use Rattle.std.specs.Prelude.{◌≡◌, List, Ok, IfOk, replicate};
ghost use Rattle.worked.specs.Definitions.{by_definition};
ghost use Rattle.worked.specs.Examples.{examples, AreExamples};

use crate::messages::MessageExample;
use crate::questions::{PieceExample, RequestExample, TimerExample};
use channels::Mark;
use link::Call;
use loads::{Book, EmptyLoad, Frame, Reading};
use std::alloc::{AllocError, Global};

/// The examples, each a question with its answer. Those that need a book or a log are none where
/// there is no memory for it.
#[derive(Drop)]
pub struct Examples {
    /// A frame of a reading, and its octets.
    pub frame: (Frame<Reading>, [u8; 5]),
    /// A reply, and its octets.
    pub reply: (Frame<EmptyLoad>, [u8; 1]),
    /// The last column at zoom 20, the column behind it, and a zoom that no map has.
    pub pieces: [PieceExample; 3],
    /// More loads than a message may have, more than the book has from there, and all of the book.
    pub requests: Result<[RequestExample; 3], AllocError>,
    /// One load, whose frame is lost.
    pub lost_frame: Result<MessageExample, AllocError>,
    /// Two loads, one of them replied to, abandoned; after the part a break is due.
    pub abandoned: Result<MessageExample, AllocError>,
    /// One load, told, whose reply is lost; after the part a meet is due.
    pub lost_reply: Result<MessageExample, AllocError>,
    /// Timers whose t1 is too short, whose t2 is, and that fit.
    pub timers: [TimerExample; 3],
}

const LOST_FRAME: [Call; 5] = [
    Call::Request { start: 0, count: 1 },
    Call::Send,
    Call::Carry,
    Call::Retry,
    Call::Confirm,
];

const ABANDONED: [Call; 10] = [
    Call::Request { start: 0, count: 2 },
    Call::Send,
    Call::Carry,
    Call::Tell,
    Call::Reply,
    Call::Return,
    Call::Abandon,
    Call::Confirm,
    Call::Part,
    Call::Break,
];

const LOST_REPLY: [Call; 10] = [
    Call::Request { start: 0, count: 1 },
    Call::Send,
    Call::Carry,
    Call::Tell,
    Call::Reply,
    Call::Return,
    Call::Retry,
    Call::Confirm,
    Call::Part,
    Call::Meet,
];

// The frame.
fn frame() -> (Frame<Reading>, [u8; 5])
    ensures answer { result ≡ examples.frame }
{
    let frame = Frame {
        first: true,
        last: false,
        toggle: false,
        load: Reading { value: 7 },
    };
    let mut octets = [0; 5];
    frame.write(&mut octets).unwrap();
    (frame, octets)
}

// The reply.
fn reply() -> (Frame<EmptyLoad>, [u8; 1])
    ensures answer { result ≡ examples.reply }
{
    let frame = Frame {
        first: false,
        last: true,
        toggle: true,
        load: EmptyLoad,
    };
    let mut octets = [0; 1];
    frame.write(&mut octets).unwrap();
    (frame, octets)
}

// The pieces.
fn pieces() -> [PieceExample; 3]
    ensures answer { result ≡ examples.pieces }
{
    [
        PieceExample::ask(20, 1_048_575, 0, 0, 0),
        PieceExample::ask(20, 1_048_576, 0, 0, 0),
        PieceExample::ask(21, 0, 0, 0, 0),
    ]
}

// A book of as many loads as a message may have.
fn longest_book(heap: Global) -> Result<Book<Reading>, AllocError>
    ensures answer { IfOk result (λ book. book ≡ replicate 4096 (record { value = 0 })) }
{
    Ok(Book::new(vec![in heap; Reading { value: 0 }; 4096]?))
}

// The requests.
fn requests(heap: Global) -> Result<[RequestExample; 3], AllocError>
    ensures answer { IfOk result (λ given. Ok given ≡ examples.requests) }
{
    let book = longest_book(heap)?;
    Ok([
        RequestExample::ask(&book, 0, 4097),
        RequestExample::ask(&book, 1, 4096),
        RequestExample::ask(&book, 0, 4096),
    ])
}

// The message whose frame is lost.
fn lost_frame(heap: Global) -> Result<MessageExample, AllocError>
    ensures answer { IfOk result (λ given. Ok given ≡ examples.lost_frame) }
{
    let loads = [Reading { value: 7 }];
    MessageExample::run(heap, 0, &loads, &[Mark::Lose], &[], &LOST_FRAME)
}

// The message that is abandoned.
fn abandoned(heap: Global) -> Result<MessageExample, AllocError>
    ensures answer { IfOk result (λ given. Ok given ≡ examples.abandoned) }
{
    let loads = [Reading { value: 7 }, Reading { value: 8 }];
    MessageExample::run(heap, 0, &loads, &[], &[], &ABANDONED)
}

// The message whose reply is lost.
fn lost_reply(heap: Global) -> Result<MessageExample, AllocError>
    ensures answer { IfOk result (λ given. Ok given ≡ examples.lost_reply) }
{
    let loads = [Reading { value: 7 }];
    MessageExample::run(heap, 0, &loads, &[], &[Mark::Lose], &LOST_REPLY)
}

// The timers.
fn timers() -> [TimerExample; 3]
    ensures answer { result ≡ examples.timers }
{
    [
        TimerExample::ask(2, 2, 4, 10),
        TimerExample::ask(2, 2, 5, 10),
        TimerExample::ask(2, 2, 5, 11),
    ]
}

/// All of the examples, through the calls of the library. Open: whether there is memory for the
/// books and the logs.
pub fn worked_examples(heap: Global) -> Examples
    ensures answers { AreExamples result }
    ensures definitions { by_definition examples ≡ examples }
{
    Examples {
        frame: frame(),
        reply: reply(),
        pieces: pieces(),
        requests: requests(heap),
        lost_frame: lost_frame(heap),
        abandoned: abandoned(heap),
        lost_reply: lost_reply(heap),
        timers: timers(),
    }
}
