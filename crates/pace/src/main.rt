//! Repeats calls of a link, or frames written and read, as often as standard input says, for measuring how long they take.

#![tactic(auto)]

mod calls;
mod frames;
mod links;
mod requests;
mod tallies;
mod tasks;

fn main(rt: HostRuntime) -> anyhow::Result<()> {
    tasks::print_tasks(rt.alloc(), &mut rt.stdin(), &mut rt.stdout())
}
