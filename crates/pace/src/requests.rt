//! Messages of one load from all places of a book, of which some are abandoned.
ghost use Rattle.std.specs.Prelude.{◌≡◌, ◌<◌, IfOk, string_bytes};
ghost use Rattle.pace.specs.Links.{counts_all};
ghost use Rattle.pace.specs.Repeats.{next, request_calls, requests_made, told_text, requests_text};

use crate::links::{CountedLink, MOST_LOADS, readings};
use link::{LinkRefusal, Word};
use loads::Refusal;
use std::alloc::{AllocError, Global};

// The next number of a row that looks random, so that what becomes of a message is not known beforehand.
fn next(number: u64) -> u64
    ensures answer { result ≡ next number }
{
    number
        .wrapping_mul(6_364_136_223_846_793_005)
        .wrapping_add(1_442_695_040_888_963_407)
}

// Asks for a load, and delivers it or gives it up.
fn send_load(link: &mut CountedLink<'_>, loads: u16, chance: u64)
    requires { 0 < loads }
    ensures after { link.new ≡ counts_all (request_calls loads chance) link.old }
{
    let start = ((chance >> 33) % u64::from(loads)) as u16;
    link.request(start, 1);
    if chance >> 63 == 1 {
        link.abandon();
        link.confirm();
        link.part();
        link.meet();
    } else {
        link.deliver();
        link.confirm();
    }
}

// The same in each of so many rounds.
fn send_loads(link: &mut CountedLink<'_>, loads: u16, rounds: u64)
    requires { 0 < loads }
    ensures after { link.new ≡ counts_all (requests_made loads rounds) link.old }
{
    let mut chance = 1;
    for _ in 0..rounds {
        chance = next(chance);
        send_load(link, loads, chance);
    }
}

// How many loads of the last message were told. Open: whether there is memory for the text.
fn told_text(heap: Global, outcome: Result<(Word, u32), LinkRefusal>) -> Result<String, AllocError>
    ensures made { IfOk result (λ text. string_bytes text ≡ told_text outcome) }
{
    match outcome {
        Ok((_, told)) => format!(in heap; "told {told}"),
        Err(refusal) => {
            let number = refusal.number();
            format!(in heap; "refused {number}")
        }
    }
}

/// Asks for as many messages as there are rounds, on a book of so many loads, at least 1 and at most 4,096. Open: whether there
/// is memory for the book and the text.
#[tactic(auto, unfolding(crate::specs::Repeats::requests_text))]
pub fn repeat(heap: Global, loads: u16, rounds: u64) -> Result<String, AllocError>
    ensures made { IfOk result (λ text. string_bytes text ≡ requests_text loads rounds) }
{
    let loads = loads.clamp(1, MOST_LOADS);
    let book = readings(heap, loads)?;
    let mut link = CountedLink::new(&book);
    send_loads(&mut link, loads, rounds);
    let sum = link.sum();
    let told = told_text(heap, link.outcome())?;
    format!(in heap; "requests {rounds} sum {sum} {told}")
}
