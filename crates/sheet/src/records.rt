//! The record at the front of a list's octets, and the octets behind it.
ghost use Rattle.std.specs.Prelude.{◌≡◌, Ok, Err, MatchResult, slice_index};
ghost use Rattle.sheet.specs.declared.sections.SectionKind.TheVariants.{Book, Marks, Calls};
ghost use Rattle.sheet.specs.Parts.{part_state};
ghost use Rattle.sheet.specs.Records.{plain_call, request_letter, record_of};

use crate::faults::{SheetFault, SheetRefusal};
use crate::parts::{Part, Way};
use channels::Mark;
use link::Call;
use loads::Load;

// A record of the book.
pub(crate) fn book_record<'s, T: Load>(
    place: usize,
    octets: &'s [u8],
) -> Result<(Part<'s, T>, &'s [u8]), SheetFault>
    ensures cases { MatchResult result
        (λ front. record_of T.Load Book place octets.now ≡ Ok (part_state front.0, front.1.now))
        (λ fault. record_of T.Load Book place octets.now ≡ Err fault) }
{
    let fault = SheetFault {
        refusal: SheetRefusal::NoLoad,
        place,
    };
    let Some((octets, rest)) = octets.split_at_checked(T::SIZE) else {
        return Err(fault);
    };
    let Ok(load) = T::read(octets) else {
        return Err(fault);
    };
    Ok((
        Part::BookRecord {
            place,
            octets,
            load,
        },
        rest,
    ))
}

// A mark of a list for one way.
pub(crate) fn mark_record<'s, T: Load>(
    way: Way,
    place: usize,
    octets: &'s [u8],
) -> Result<(Part<'s, T>, &'s [u8]), SheetFault>
    ensures cases { MatchResult result
        (λ front. record_of T.Load (Marks way) place octets.now
        ≡ Ok (part_state front.0, front.1.now))
        (λ fault. record_of T.Load (Marks way) place octets.now ≡ Err fault) }
{
    let fault = SheetFault {
        refusal: SheetRefusal::BadMark,
        place,
    };
    let [octet, rest @ ..] = octets else {
        return Err(fault);
    };
    let Ok(mark) = Mark::try_from(*octet) else {
        return Err(fault);
    };
    let octets = &octets[..1];
    Ok((
        Part::Mark {
            place,
            octets,
            way,
            mark,
        },
        rest,
    ))
}

// A request, by its letter: start and count follow.
fn request_record<'s, T: Load>(
    place: usize,
    octets: &'s [u8],
) -> Result<(Part<'s, T>, &'s [u8]), SheetFault>
    requires { slice_index octets.now 0 ≡ request_letter }
    ensures cases { MatchResult result
        (λ front. record_of T.Load Calls place octets.now ≡ Ok (part_state front.0, front.1.now))
        (λ fault. record_of T.Load Calls place octets.now ≡ Err fault) }
{
    let [
        _letter,
        start_high,
        start_low,
        count_high,
        count_low,
        rest @ ..,
    ] = octets
    else {
        return Err(SheetFault {
            refusal: SheetRefusal::BadCall,
            place,
        });
    };
    let start = u16::from_be_bytes([*start_high, *start_low]);
    let count = u16::from_be_bytes([*count_high, *count_low]);
    let octets = &octets[..5];
    Ok((
        Part::Call {
            place,
            octets,
            call: Call::Request { start, count },
        },
        rest,
    ))
}

// The call of a letter that has no operands.
fn plain_call(letter: char) -> Option<Call>
    ensures answer { result ≡ plain_call letter }
{
    match letter {
        'S' => Some(Call::Send),
        'C' => Some(Call::Carry),
        'T' => Some(Call::Tell),
        'R' => Some(Call::Reply),
        'B' => Some(Call::Return),
        'Y' => Some(Call::Retry),
        'A' => Some(Call::Abandon),
        'F' => Some(Call::Confirm),
        'P' => Some(Call::Part),
        'N' => Some(Call::Break),
        'M' => Some(Call::Meet),
        _ => None,
    }
}

// A call of any kind.
pub(crate) fn call_record<'s, T: Load>(
    place: usize,
    octets: &'s [u8],
) -> Result<(Part<'s, T>, &'s [u8]), SheetFault>
    ensures cases { MatchResult result
        (λ front. record_of T.Load Calls place octets.now ≡ Ok (part_state front.0, front.1.now))
        (λ fault. record_of T.Load Calls place octets.now ≡ Err fault) }
{
    let fault = SheetFault {
        refusal: SheetRefusal::BadCall,
        place,
    };
    let [letter, rest @ ..] = octets else {
        return Err(fault);
    };
    match char::from(*letter) {
        'Q' => request_record(place, octets),
        letter => {
            let Some(call) = plain_call(letter) else {
                return Err(fault);
            };
            let octets = &octets[..1];
            Ok((
                Part::Call {
                    place,
                    octets,
                    call,
                },
                rest,
            ))
        }
    }
}
