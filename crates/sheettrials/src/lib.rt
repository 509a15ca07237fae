//! Call sheets at their limits, what is read from them, and what they print.

#![tactic(auto)]

#[cfg(test)]
mod bookcases;
#[cfg(test)]
mod callcases;
#[cfg(test)]
mod firstfaults;
#[cfg(test)]
mod lines;
#[cfg(test)]
mod markcases;
#[cfg(test)]
mod partcases;
#[cfg(test)]
mod plans;
#[cfg(test)]
mod runcases;
#[cfg(test)]
mod sizes;
#[cfg(test)]
mod texts;
#[cfg(test)]
mod trailers;
#[cfg(test)]
mod workedcases;
