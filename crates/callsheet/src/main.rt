//! Runs the call sheet on standard input, and prints a line for each call, or one that says why it is turned down.

#![tactic(auto)]

use sheetrun::run_sheet;

fn main(rt: HostRuntime) -> anyhow::Result<()> {
    Ok(run_sheet(rt.alloc(), rt.stdin(), &mut rt.stdout())?)
}
