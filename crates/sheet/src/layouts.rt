//! The trailer of a sheet: which kind of load it has, how many repeats, and its four lists.
ghost use Rattle.std.specs.Prelude.{◌≡◌, ◌<◌, length, map, true};
ghost use Rattle.sheet.specs.Layouts.{load_kind, distance, distances_fit, sections_of, layout_reads};
ghost use Rattle.sheet.specs.Sections.{section_state};

use crate::faults::{SheetFault, SheetRefusal};
use crate::parts::Way;
use crate::sections::{Section, SectionKind};
use link::MOST_REPEATS;
use loads::{Load, Piece, Reading};
use std::marker::Model;

// How many octets a trailer has: four distances of four octets, a kind and the repeats.
const TRAILER_SIZE: usize = 18;

/// The most octets of a sheet.
pub const MOST_OCTETS: usize = 16_384;

// Which kind of load a sheet has.
#[derive(Clone, Copy)]
pub(crate) enum LoadKind {
    Reading,
    Piece,
}

// What a trailer says: the settings, and the four lists before it.
#[derive(Drop)]
pub(crate) struct Layout<'s> {
    pub(crate) kind: LoadKind,
    pub(crate) repeats: u8,
    pub(crate) sections: [Section<'s>; 4],
}

// Clauses see its sections as plain values. It has no more repeats than a link joins with, and room for no more marks
// of one way than a rain takes.
impl<'s> Model for Layout<'s> {
    ghost use Rattle.std.specs.Prelude.{◌≤◌, map};
    ghost use Rattle.channels.specs.Marks.{most_marks};
    ghost use Rattle.link.specs.Timers.{most_repeats};
    ghost use Rattle.sheet.specs.declared.parts.Way.{Way as AnyWay};
    ghost use Rattle.sheet.specs.Layouts.{LayoutState};
    ghost use Rattle.sheet.specs.Sections.{section_state, marks_room};

    ghost Value = { LayoutState };

    ghost view = { λ layout. record {
      kind = layout.kind;
      repeats = layout.repeats;
      sections = map section_state layout.sections;
    } };

    ghost invariant = { λ layout. (layout.repeats ≤ most_repeats)
        × ((way : AnyWay) → marks_room way (map section_state layout.sections) ≤ most_marks) };
}

// The kind of load that an octet names, if a sheet may have it.
fn load_kind(octet: u8) -> Option<LoadKind>
    ensures answer { result ≡ load_kind octet }
{
    match octet {
        Reading::KIND => Some(LoadKind::Reading),
        Piece::KIND => Some(LoadKind::Piece),
        _ => None,
    }
}

// One of the four distances back from the trailer.
fn distance(trailer: &[u8; TRAILER_SIZE], list: usize) -> usize
    requires { list < 4 }
    ensures answer { result ≡ distance list trailer.now }
{
    let start = 4 * list;
    u32::from_be_bytes(trailer[start..start + 4].try_into().unwrap()) as usize
}

// Whether the book starts at the first octet, and no list before the one that it follows.
fn distances_fit(place: usize, trailer: &[u8; TRAILER_SIZE]) -> bool
    ensures answer { result ≡ distances_fit place trailer.now }
{
    distance(trailer, 0) == place
        && distance(trailer, 1) <= distance(trailer, 0)
        && distance(trailer, 2) <= distance(trailer, 1)
        && distance(trailer, 3) <= distance(trailer, 2)
}

// The four lists before a trailer.
fn sections_of<'s>(lists: &'s [u8], trailer: &[u8; TRAILER_SIZE]) -> [Section<'s>; 4]
    requires { distances_fit (length lists.now) trailer.now ≡ true }
    ensures answer { map section_state result ≡ sections_of lists.now trailer.now }
{
    let to_hut = lists.len() - distance(trailer, 1);
    let back = lists.len() - distance(trailer, 2);
    let calls = lists.len() - distance(trailer, 3);
    [
        Section::new(SectionKind::Book, 0, &lists[..to_hut]),
        Section::new(SectionKind::Marks(Way::ToHut), to_hut, &lists[to_hut..back]),
        Section::new(SectionKind::Marks(Way::Back), back, &lists[back..calls]),
        Section::new(SectionKind::Calls, calls, &lists[calls..]),
    ]
}

impl<'s> Layout<'s> {
    // What the trailer of a sheet says, or why the sheet is turned down for it.
    pub(crate) fn read(octets: &'s [u8]) -> Result<Layout<'s>, SheetFault>
        ensures answer { result ≡ layout_reads octets.now }
    {
        let size = octets.len();
        let refused = |refusal, place| Err(SheetFault { refusal, place });
        let Some((lists, trailer)) = octets.split_last_chunk::<TRAILER_SIZE>() else {
            return refused(SheetRefusal::WrongSize, size);
        };
        if size > MOST_OCTETS {
            return refused(SheetRefusal::WrongSize, size);
        }
        let place = lists.len();
        let [.., kind, repeats] = trailer;
        let Some(kind) = load_kind(*kind) else {
            return refused(SheetRefusal::BadSetting, place + 16);
        };
        if *repeats > MOST_REPEATS {
            return refused(SheetRefusal::BadSetting, place + 17);
        }
        if !distances_fit(place, trailer) {
            return refused(SheetRefusal::BadDistances, place);
        }
        Ok(Layout {
            kind,
            repeats: *repeats,
            sections: sections_of(lists, trailer),
        })
    }
}
