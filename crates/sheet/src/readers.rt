//! The parts of the sections of a sheet.
ghost use Rattle.std.specs.Prelude.{◌≡◌, ◌<◌, length, map, Ok, IfErr, MatchResult, vec_items};
ghost use Rattle.sheet.specs.declared.faults.ReadError.TheVariants.{NoMemory};
ghost use Rattle.sheet.specs.Faults.{Fails};
ghost use Rattle.sheet.specs.Layouts.{octets_of};
ghost use Rattle.sheet.specs.Parts.{part_state};
ghost use Rattle.sheet.specs.Sections.{section_state, before, section_reads, sections_read};

use crate::faults::ReadError;
use crate::parts::Part;
use crate::sections::Section;
use loads::Load;
use std::alloc::Global;

// Adds the records of a section to the parts. Open: whether there is memory for them, where there are octets.
fn read_section<'s, T: Load>(
    parts: &mut Vec<Part<'s, T>>,
    section: Section<'s>,
) -> Result<(), ReadError>
    ensures cases { MatchResult result
        (λ _. before (map part_state (vec_items parts.old))
        (section_reads T.Load (section_state section.entry))
        ≡ Ok (map part_state (vec_items parts.new)))
        (λ error. Fails (section_reads T.Load (section_state section.entry)) error) }
    ensures memory { IfErr result
        (λ error. error ≡ NoMemory → 0 < length section.entry.octets.now) }
{
    let mut left = section;
    while let Some(part) = left.next()? {
        parts.push(part)?;
    }
    Ok(())
}

// The parts of a sheet, section by section. Open: whether there is memory for them, where there are octets.
pub(crate) fn read_sections<'s, T: Load>(
    heap: Global,
    sections: &[Section<'s>],
) -> Result<Vec<Part<'s, T>>, ReadError>
    ensures cases { MatchResult result
        (λ parts. sections_read T.Load (map section_state sections.now)
        ≡ Ok (map part_state (vec_items parts)))
        (λ error. Fails (sections_read T.Load (map section_state sections.now)) error) }
    ensures memory { IfErr result
        (λ error. error ≡ NoMemory → 0 < length (octets_of (map section_state sections.now))) }
{
    let mut parts = Vec::new(heap);
    for section in sections {
        read_section(&mut parts, *section)?;
    }
    Ok(parts)
}
