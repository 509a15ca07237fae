//! The tasks of an input, one on each line, and all that they print.
ghost use Rattle.std.specs.Prelude.{◌≡◌, true, IfOk, OnOk, IfSome, string_bytes};
ghost use Rattle.std.specs.Io.KnownBytes.{Appends};
ghost use Rattle.frametext.specs.Lines.{line};
ghost use Rattle.pace.specs.Tasks.{is_task, task_text, HasTasks, tasks_text};

use crate::{calls, frames, requests};
use anyhow::anyhow;
use std::alloc::Global;
use std::io::{Read, Write};

// What a task comes to: what is repeated, on how many loads for requests, and how often. Open: which words are numbers, and
// whether there is memory for it.
fn task_text(heap: Global, task: &str) -> anyhow::Result<String>
    ensures made { IfOk result (λ text. string_bytes text ≡ task_text task.now) }
    ensures named { OnOk result (is_task task.now ≡ true) }
{
    let Some((name, counts)) = task.split_once(' ') else {
        return Err(anyhow!("no task"));
    };
    if name == "calls" {
        return Ok(calls::repeat(heap, counts.parse()?)?);
    }
    if name == "frames" {
        return Ok(frames::repeat(heap, counts.parse()?)?);
    }
    let Some((loads, rounds)) = counts.split_once(' ') else {
        return Err(anyhow!("no task"));
    };
    if name == "requests" {
        return Ok(requests::repeat(heap, loads.parse()?, rounds.parse()?)?);
    }
    Err(anyhow!("no task"))
}

// Prints what a task comes to, on a line.
fn print_task<W: Write>(heap: Global, task: &str, output: &mut W) -> anyhow::Result<()>
    ensures printed { OnOk result (Appends (W.contents output.old) (W.contents output.new)
        (line (task_text task.now))) }
    ensures named { OnOk result (is_task task.now ≡ true) }
{
    let mut text = task_text(heap, task)?;
    text.push('\n')?;
    output.write_all(text.as_bytes())?;
    Ok(())
}

/// Reads the tasks, one on each line, and prints what they come to. Open: whether it ends without an error, and what the output
/// holds after one.
pub fn print_tasks<R: Read, W: Write>(
    heap: Global,
    input: &mut R,
    output: &mut W,
) -> anyhow::Result<()>
    ensures printed { OnOk result (IfSome (R.remaining input.old) (λ octets.
        Appends (W.contents output.old) (W.contents output.new) (tasks_text octets))) }
    ensures named { OnOk result (IfSome (R.remaining input.old) (λ octets. HasTasks octets)) }
{
    let mut text = String::new(heap);
    input.read_to_string(&mut text)?;
    for task in text.lines() {
        print_task(heap, task, output)?;
    }
    Ok(())
}
