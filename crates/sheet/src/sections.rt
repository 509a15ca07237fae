//! The sections of a sheet, which are its four lists, each read record by record.
ghost use Rattle.std.specs.Prelude.{◌≡◌, ◌+◌, ◌<◌, ◌^◌, length, Ok, Err, IfOk, IfSome, MatchResult};

use crate::faults::{SheetFault, SheetRefusal};
use crate::parts::{Part, Way};
use crate::records::{book_record, call_record, mark_record};
use channels::MOST_MARKS;
use loads::Load;

// The most calls of a sheet.
const MOST_CALLS: usize = 1024;

// A kind of section: the book, the marks of one way, or the calls.
#[derive(Clone, Copy)]
pub(crate) enum SectionKind {
    Book,
    Marks(Way),
    Calls,
}

impl SectionKind {
    ghost use Rattle.sheet.specs.Parts.{part_state};
    ghost use Rattle.sheet.specs.Records.{refusal_of, record_of};
    ghost use Rattle.sheet.specs.Sections.{room_of};

    // The most records of such a section. Each load of a sheet's book has octets, so there are no more loads than
    // octets.
    fn room(self, octets: &[u8]) -> usize
        ensures answer { result ≡ room_of self octets.now }
    {
        match self {
            SectionKind::Book => octets.len(),
            SectionKind::Marks(_) => MOST_MARKS,
            SectionKind::Calls => MOST_CALLS,
        }
    }

    // What one record too many is turned down for.
    fn refusal(self) -> SheetRefusal
        ensures answer { result ≡ refusal_of self }
    {
        match self {
            SectionKind::Book => SheetRefusal::NoLoad,
            SectionKind::Marks(_) => SheetRefusal::BadMark,
            SectionKind::Calls => SheetRefusal::BadCall,
        }
    }

    // The record at the front, and the octets behind it.
    fn record<'s, T: Load>(
        self,
        place: usize,
        octets: &'s [u8],
    ) -> Result<(Part<'s, T>, &'s [u8]), SheetFault>
        ensures cases { MatchResult result
            (λ front. record_of T.Load self place octets.now ≡ Ok (part_state front.0, front.1.now))
            (λ fault. record_of T.Load self place octets.now ≡ Err fault) }
    {
        match self {
            SectionKind::Book => book_record(place, octets),
            SectionKind::Marks(way) => mark_record(way, place, octets),
            SectionKind::Calls => call_record(place, octets),
        }
    }
}

// What is left of a section: how many records it may still have, the place of the next one, and the octets.
#[derive(Clone, Copy)]
pub(crate) struct Section<'s> {
    kind: SectionKind,
    room: usize,
    place: usize,
    octets: &'s [u8],
    ghost fits: { place + length octets.now < 2 ^ 64 },
}

impl<'s> Section<'s> {
    ghost use Rattle.sheet.specs.Sections.{section_of, section_state, section_reads, after_next};

    // A whole section.
    pub(crate) fn new(kind: SectionKind, place: usize, octets: &'s [u8]) -> Section<'s>
        requires { place + length octets.now < 2 ^ 64 }
        ensures answer { section_state result ≡ section_of kind place octets.now }
    {
        Section {
            kind,
            room: kind.room(octets),
            place,
            octets,
        }
    }

    // The next record, if there is one, which is then left behind; or why the sheet is turned down there.
    pub(crate) fn next<T: Load>(&mut self) -> Result<Option<Part<'s, T>>, SheetFault>
        ensures cases { section_reads T.Load (section_state self.old)
            ≡ after_next T.Load result (section_state self.new) }
        ensures fewer { IfOk result (λ next. IfSome next (λ _. self.new.room < self.old.room)) }
        ensures some { IfOk result (λ next. IfSome next (λ _. 0 < length self.old.octets.now)) }
    {
        if self.octets.is_empty() {
            return Ok(None);
        }
        let place = self.place;
        if self.room == 0 {
            return Err(SheetFault {
                refusal: self.kind.refusal(),
                place,
            });
        }
        let (part, behind) = self.kind.record(place, self.octets)?;
        *self = Section {
            kind: self.kind,
            room: self.room - 1,
            place: place + part.octets().len(),
            octets: behind,
        };
        Ok(Some(part))
    }
}
