//! The printed lines of a link: of a call with its answer, and of an outcome.
ghost use Rattle.std.specs.Prelude.{◌≡◌, ◌++◌, ◌<◌, IfOk, IfErr, length, codes, string_bytes, decimal};
ghost use Rattle.frametext.specs.Additions.{Adds};
ghost use Rattle.linktext.specs.Lines.{load_text, shown_text, call_text, event_lines as lines_of, outcome_text};

use frametext::push_hexadecimal;
use link::{Answer, Event, LinkRefusal, Word};
use loads::{LONGEST_FRAME, Load, answer_number};
use std::alloc::{AllocError, Global};

// Adds the octets of a load to a text, in hexadecimal.
fn push_load<T: Load>(text: &mut String, load: &T) -> Result<(), AllocError>
    ensures added { Adds text.old text.new (load_text T.Load load.now) result }
{
    let mut octets = [0; LONGEST_FRAME];
    load.write(&mut octets).unwrap();
    push_hexadecimal(text, &octets[..T::SIZE])
}

// Adds a word behind a space.
fn push_word(text: &mut String, word: &str) -> Result<(), AllocError>
    ensures added { Adds text.old text.new (codes " " ++ word.now) result }
{
    text.push(' ')?;
    text.push_str(word)
}

// Adds what an accepted call shows, behind a space; nothing where a call is turned down.
fn push_shown<T: Load>(
    text: &mut String,
    answer: &Result<Answer<T>, LinkRefusal>,
) -> Result<(), AllocError>
    ensures added { Adds text.old text.new (shown_text T.Load answer.now) result }
{
    match answer {
        Ok(Answer::Polled(heard)) => push_word(text, heard.word()),
        Ok(Answer::Told(position, load)) => {
            push_word(text, position.word())?;
            text.push(' ')?;
            push_load(text, load)
        }
        Ok(Answer::Confirmed(word)) => push_word(text, word.word()),
        Ok(Answer::Done) | Err(_) => Ok(()),
    }
}

// Adds a number, digit by digit: of a text that formatting fails to write, nothing is known.
fn push_number(text: &mut String, number: u8) -> Result<(), AllocError>
    ensures added { Adds text.old text.new (decimal number) result }
{
    if number < 10 {
        return text.push(char::from(b'0' + number));
    }
    push_number(text, number / 10)?;
    text.push(char::from(b'0' + number % 10))
}

/// Adds the letter of a call, the number of its answer, and what it shows if it is accepted. Where
/// memory is wanting, the text has a front of them, and not all. Open: whether it is wanting, where
/// the text has no room for them.
pub fn push_call<T: Load>(text: &mut String, event: &Event<T>) -> Result<(), AllocError>
    ensures added { Adds text.old text.new (call_text T.Load event.now) result }
{
    text.push(event.call.letter())?;
    text.push(' ')?;
    push_number(text, answer_number(&event.answer))?;
    push_shown(text, &event.answer)
}

/// The same as a text of its own. Open: whether there is memory for it.
pub fn call_line<T: Load>(heap: Global, event: &Event<T>) -> Result<String, AllocError>
    ensures made { IfOk result (λ text. string_bytes text ≡ call_text T.Load event.now) }
{
    let mut text = String::new(heap);
    push_call(&mut text, event)?;
    Ok(text)
}

/// The same of each call, on a line of its own. Open: whether there is memory for them, where there are any.
pub fn event_lines<T: Load>(heap: Global, events: &[Event<T>]) -> Result<String, AllocError>
    ensures made { IfOk result (λ lines. string_bytes lines ≡ lines_of T.Load events.now) }
    ensures memory { IfErr result (λ _. 0 < length events.now) }
{
    let mut lines = String::new(heap);
    for event in events {
        push_call(&mut lines, event)?;
        lines.push('\n')?;
    }
    Ok(lines)
}

/// How a message ended, and how many of its loads the hut was told. Open: whether there is memory for the text.
pub fn outcome_line(heap: Global, word: Word, told: u32) -> Result<String, AllocError>
    ensures made { IfOk result (λ text. string_bytes text ≡ outcome_text word told) }
{
    let word = word.word();
    format!(in heap; "outcome {word} {told}")
}
