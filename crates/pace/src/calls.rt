//! Messages of three loads, all delivered: 17 calls each.
ghost use Rattle.std.specs.Prelude.{◌≡◌, IfOk, string_bytes};
ghost use Rattle.pace.specs.Links.{counts_all};
ghost use Rattle.pace.specs.Repeats.{message_calls, calls_made, outcome_text, calls_text};

use crate::links::{CountedLink, MOST_LOADS, readings};
use link::{LinkRefusal, Word};
use loads::Refusal;
use std::alloc::{AllocError, Global};

// Sends the message of a round. Three loads are always there from its place on.
fn send_message(link: &mut CountedLink<'_>, round: u64)
    ensures after { link.new ≡ counts_all (message_calls round) link.old }
{
    link.request((round.wrapping_mul(7) % 4093) as u16, 3);
    link.deliver();
    link.deliver();
    link.deliver();
    link.confirm();
}

// Sends the messages of so many rounds.
fn send_messages(link: &mut CountedLink<'_>, rounds: u64)
    ensures after { link.new ≡ counts_all (calls_made rounds) link.old }
{
    for round in 0..rounds {
        send_message(link, round);
    }
}

// How the last message ended. Open: whether there is memory for the text.
fn outcome_text(
    heap: Global,
    outcome: Result<(Word, u32), LinkRefusal>,
) -> Result<String, AllocError>
    ensures made { IfOk result (λ text. string_bytes text ≡ outcome_text outcome) }
{
    match outcome {
        Ok((word, told)) => {
            let word = word.word();
            format!(in heap; "word {word} told {told}")
        }
        Err(refusal) => {
            let number = refusal.number();
            format!(in heap; "refused {number}")
        }
    }
}

/// Sends as many messages as there are rounds. Open: whether there is memory for the book and the text.
#[tactic(auto, unfolding(crate::specs::Repeats::calls_text))]
pub fn repeat(heap: Global, rounds: u64) -> Result<String, AllocError>
    ensures made { IfOk result (λ text. string_bytes text ≡ calls_text rounds) }
{
    let book = readings(heap, MOST_LOADS)?;
    let mut link = CountedLink::new(&book);
    send_messages(&mut link, rounds);
    let (calls, sum) = (link.calls(), link.sum());
    let outcome = outcome_text(heap, link.outcome())?;
    format!(in heap; "calls {calls} sum {sum} {outcome}")
}
