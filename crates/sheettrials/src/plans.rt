//! What the cases share: sheets built from their lists, and a table of sheets that are read or turned down.
use loads::{Piece, Reading, Refusal};
use sheet::{AnySheet, ReadError, Sheet};
use std::alloc::{AllocError, Global};
use std::process::Abort;

/// The octet kind of a sheet of readings.
pub const READINGS: u8 = 1;

/// The octet kind of a sheet of pieces.
pub const PIECES: u8 = 2;

/// A sheet by its lists and settings.
#[derive(Clone, Copy, Debug)]
pub struct Plan<'s> {
    pub book: &'s [u8],
    pub to_hut: &'s [u8],
    pub back: &'s [u8],
    pub calls: &'s [u8],
    pub kind: u8,
    pub repeats: u8,
}

/// A sheet of readings with nothing in it.
pub const NOTHING: Plan<'static> = Plan {
    book: &[],
    to_hut: &[],
    back: &[],
    calls: &[],
    kind: READINGS,
    repeats: 0,
};

/// Octets, and how often they stand one after another.
pub type Run = (&'static [u8], usize);

/// What the octets of a case are made from.
#[derive(Clone, Copy)]
pub enum Source<'s> {
    /// The lists of a sheet (book, marks of K, marks of L, calls), and its kind and repeats.
    Lists(&'s [u8], &'s [u8], &'s [u8], &'s [u8], [u8; 2]),
    /// Octets, and then distances and settings, whatever they say.
    Trailer(&'s [u8], [usize; 4], [u8; 2]),
    /// The same of octets that stand there more than once.
    Runs(&'s [Run], [usize; 4], [u8; 2]),
    /// Octets without a trailer of their own.
    Octets(&'s [Run]),
}

/// A name, octets, and the number and the place for which they are turned down; none where they are a sheet.
pub type Case<'s> = (&'s str, Source<'s>, Option<(u8, usize)>);

// A number as the low four of its octets, highest first.
fn four_octets(number: usize) -> [u8; 4] {
    let [.., highest, high, low, lowest] = number.to_be_bytes();
    [highest, high, low, lowest]
}

/// Octets and a trailer behind them, whatever it says.
pub fn with_trailer(
    heap: Global,
    front: &[u8],
    distances: [usize; 4],
    settings: [u8; 2],
) -> Result<Vec<u8>, AllocError> {
    let [book, to_hut, back, calls] = distances;
    [
        front,
        &four_octets(book),
        &four_octets(to_hut),
        &four_octets(back),
        &four_octets(calls),
        &settings,
    ]
    .concat(heap)
}

impl<'s> Plan<'s> {
    /// The octets of the sheet, with the distances that its lists have.
    pub fn octets(&self, heap: Global) -> Result<Vec<u8>, AllocError> {
        let front = [self.book, self.to_hut, self.back, self.calls].concat(heap)?;
        let to_calls = self.calls.len();
        let to_back = to_calls.saturating_add(self.back.len());
        let to_marks = to_back.saturating_add(self.to_hut.len());
        let distances = [front.len(), to_marks, to_back, to_calls];
        with_trailer(heap, &front, distances, [self.kind, self.repeats])
    }
}

// The octets of runs, one after another.
fn octets_of(heap: Global, runs: &[Run]) -> Result<Vec<u8>, AllocError> {
    let mut octets = Vec::new(heap);
    for (run, times) in runs {
        octets.extend_from_slice(&run.repeat(heap, *times)?)?;
    }
    Ok(octets)
}

impl<'s> Source<'s> {
    /// The octets that are made from it.
    pub fn octets(&self, heap: Global) -> Result<Vec<u8>, AllocError> {
        match self {
            Source::Lists(book, to_hut, back, calls, [kind, repeats]) => {
                let plan = Plan {
                    book,
                    to_hut,
                    back,
                    calls,
                    kind: *kind,
                    repeats: *repeats,
                };
                plan.octets(heap)
            }
            Source::Trailer(front, distances, settings) => with_trailer(
                heap, front, *distances, *settings,
            ),
            Source::Runs(runs, distances, settings) => {
                let front = octets_of(heap, runs)?;
                with_trailer(heap, &front, *distances, *settings)
            }
            Source::Octets(runs) => octets_of(heap, runs),
        }
    }
}

/// The number and the place for which octets are turned down; none where they are a sheet.
pub fn turned_down(heap: Global, octets: &[u8]) -> Result<Option<(u8, usize)>, AllocError> {
    match AnySheet::read(heap, octets) {
        Ok(_) => Ok(None),
        Err(ReadError::Refused(fault)) => Ok(Some((fault.refusal.number(), fault.place))),
        Err(ReadError::NoMemory) => Err(AllocError),
    }
}

/// The same of a plan.
pub fn plan_turned_down(heap: Global, plan: &Plan<'_>) -> Result<Option<(u8, usize)>, AllocError> {
    turned_down(heap, &plan.octets(heap)?)
}

/// Each case must have its answer.
pub fn assert_answers(rt: &impl Abort, heap: Global, cases: &[Case<'_>]) -> Result<(), AllocError> {
    for (name, source, answer) in cases {
        let octets = source.octets(heap)?;
        assert_eq!(rt; turned_down(heap, &octets)?, *answer, "{name}");
    }
    Ok(())
}

/// The sheet that octets are, if it is one of readings.
pub fn readings_of<'s>(heap: Global, octets: &'s [u8]) -> Option<Sheet<'s, Reading>> {
    match AnySheet::read(heap, octets) {
        Ok(AnySheet::Readings(sheet)) => Some(sheet),
        _ => None,
    }
}

/// The same, if it is one of pieces.
pub fn pieces_of<'s>(heap: Global, octets: &'s [u8]) -> Option<Sheet<'s, Piece>> {
    match AnySheet::read(heap, octets) {
        Ok(AnySheet::Pieces(sheet)) => Some(sheet),
        _ => None,
    }
}
