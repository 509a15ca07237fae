//! Whether the sections of a sheet are turned down. It is seen before anything is kept of them, so no want of memory
//! hides it.
ghost use Rattle.std.specs.Prelude.{◌≡◌, map};
ghost use Rattle.sheet.specs.Sections.{section_state, section_reads, sections_read, verdict_of};

use crate::faults::SheetFault;
use crate::sections::Section;
use loads::Load;

// Goes through a section record by record.
fn check_section<T: Load>(section: Section<'_>) -> Result<(), SheetFault>
    ensures answer { result ≡ verdict_of (section_reads T.Load (section_state section.entry)) }
{
    let mut left = section;
    while let Some(_) = left.next::<T>()? {}
    Ok(())
}

// Goes through the sections of a sheet, one after another.
pub(crate) fn check_sections<T: Load>(sections: &[Section<'_>]) -> Result<(), SheetFault>
    ensures answer { result ≡ verdict_of (sections_read T.Load (map section_state sections.now)) }
{
    for section in sections {
        check_section::<T>(*section)?;
    }
    Ok(())
}
