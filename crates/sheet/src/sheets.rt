//! A sheet: its parts in order, and what they give a run.
ghost use Rattle.std.specs.Prelude.{◌≡◌, ◌<◌, ◌≤◌, Ok, Err, MatchResult, IfOk, IfErr, length, map, vec_items};
ghost use Rattle.std.specs.Result.{IsOk};
ghost use Rattle.channels.specs.Marks.{most_marks};
ghost use Rattle.link.specs.Timers.{most_repeats};
ghost use Rattle.sheet.specs.declared.faults.ReadError.TheVariants.{NoMemory};
ghost use Rattle.sheet.specs.declared.parts.Way.{Way as AnyWay};
ghost use Rattle.sheet.specs.Faults.{Fails};
ghost use Rattle.sheet.specs.Layouts.{octets_of};
ghost use Rattle.sheet.specs.Parts.{part_state, loads_in, marks_in, calls_in};
ghost use Rattle.sheet.specs.Sheets.{sheet_of, sheet_read};

use crate::checks::check_sections;
use crate::faults::ReadError;
use crate::layouts::Layout;
use crate::parts::{Part, Way};
use crate::readers::read_sections;
use channels::Mark;
use link::Call;
use loads::{Book, Load};
use std::alloc::{AllocError, Global};
use std::marker::Model;

/// A sheet of loads of one kind. Its parts borrow its octets.
#[derive(Drop)]
pub struct Sheet<'s, T> {
    repeats: u8,
    parts: Vec<Part<'s, T>>,
    book: Book<T>,
    // K's marks
    to_hut: Vec<Mark>,
    // L's marks
    back: Vec<Mark>,
    calls: Vec<Call>,
}

// Clauses see a sheet as its repeats, its parts with what their octets are, and what they give a run.
impl<'s, T> Model for Sheet<'s, T> {
    ghost use Rattle.std.specs.Prelude.{◌≤◌, length, map, vec_items};
    ghost use Rattle.channels.specs.Marks.{most_marks};
    ghost use Rattle.link.specs.Timers.{most_repeats};
    ghost use Rattle.sheet.specs.Parts.{part_state};
    ghost use Rattle.sheet.specs.Sheets.{SheetParts};

    ghost Value = { SheetParts T };

    ghost view = { λ sheet. record {
      repeats = sheet.repeats;
      parts = map part_state (vec_items sheet.parts);
      book = sheet.book;
      to_hut = vec_items sheet.to_hut;
      back = vec_items sheet.back;
      calls = vec_items sheet.calls;
    } };

    ghost invariant = { λ sheet. (length (vec_items sheet.to_hut) ≤ most_marks)
        × (length (vec_items sheet.back) ≤ most_marks)
        × (sheet.repeats ≤ most_repeats) };
}

impl<'s, T> Sheet<'s, T> {
    /// How often a load may be sent again: at most 10 times.
    pub fn repeats(&self) -> u8
        ensures answer { result ≡ self.now.repeats }
        ensures few { result ≤ most_repeats }
    {
        self.repeats
    }

    /// The records, in the order of the sheet.
    pub fn parts(&self) -> &[Part<'s, T>]
        ensures answer { map part_state result.now ≡ self.now.parts }
    {
        &self.parts
    }

    /// The loads that messages are taken from.
    pub fn book(&self) -> &Book<T>
        ensures answer { result.now ≡ self.now.book }
    {
        &self.book
    }

    /// The marks of K, in order: at most 64.
    pub fn to_hut(&self) -> &[Mark]
        ensures answer { result.now ≡ self.now.to_hut }
        ensures few { length result.now ≤ most_marks }
    {
        &self.to_hut
    }

    /// The marks of L, in order: at most 64.
    pub fn back(&self) -> &[Mark]
        ensures answer { result.now ≡ self.now.back }
        ensures few { length result.now ≤ most_marks }
    {
        &self.back
    }

    /// The calls, in order.
    pub fn calls(&self) -> &[Call]
        ensures answer { result.now ≡ self.now.calls }
    {
        &self.calls
    }
}

impl<'s, T: Load> Sheet<'s, T> {
    // The sheet of these parts. Open: whether there is memory for what they give a run, where there are any.
    fn of_parts(
        heap: Global,
        repeats: u8,
        parts: Vec<Part<'s, T>>,
    ) -> Result<Sheet<'s, T>, AllocError>
        requires repeats { repeats ≤ most_repeats }
        requires marks { (way : AnyWay)
            → length (marks_in way (map part_state (vec_items parts))) ≤ most_marks }
        ensures made { IfOk result
            (λ sheet. sheet ≡ sheet_of repeats (map part_state (vec_items parts.entry))) }
        ensures memory { IfErr result (λ _. 0 < length (map part_state (vec_items parts.entry))) }
    {
        let mut loads = Vec::new(heap);
        let mut to_hut = Vec::new(heap);
        let mut back = Vec::new(heap);
        let mut calls = Vec::new(heap);
        for part in &parts {
            match part {
                Part::BookRecord { load, .. } => loads.push(*load)?,
                Part::Mark {
                    way: Way::ToHut,
                    mark,
                    ..
                } => to_hut.push(*mark)?,
                Part::Mark {
                    way: Way::Back,
                    mark,
                    ..
                } => back.push(*mark)?,
                Part::Call { call, .. } => calls.push(*call)?,
            }
        }
        Ok(Sheet {
            repeats,
            parts,
            book: Book::new(loads),
            to_hut,
            back,
            calls,
        })
    }

    // The sheet of a layout. Open: whether there is memory for it, where it is not turned down and its lists have
    // octets.
    pub(crate) fn read(heap: Global, layout: &Layout<'s>) -> Result<Sheet<'s, T>, ReadError>
        ensures cases { MatchResult result
            (λ sheet. sheet_read T.Load layout.now ≡ Ok sheet)
            (λ error. Fails (sheet_read T.Load layout.now) error) }
        ensures memory { IfErr result
            (λ error. error ≡ NoMemory → 0 < length (octets_of layout.now.sections)) }
        ensures good { IfErr result
            (λ error. error ≡ NoMemory → IsOk (sheet_read T.Load layout.now)) }
    {
        check_sections::<T>(&layout.sections)?;
        let parts = read_sections(heap, &layout.sections)?;
        Ok(Sheet::of_parts(heap, layout.repeats, parts)?)
    }
}
