//! Worked examples and cases at each limit, held against the libraries.

#![tactic(auto)]

#[cfg(test)]
mod bookcases;
#[cfg(test)]
mod crossings;
#[cfg(test)]
mod framecases;
#[cfg(test)]
mod hopcases;
#[cfg(test)]
mod hutcases;
#[cfg(test)]
mod joinedruncases;
#[cfg(test)]
mod keptcases;
#[cfg(test)]
mod linkends;
#[cfg(test)]
mod linkgoeson;
#[cfg(test)]
mod linkkinds;
#[cfg(test)]
mod linkmethods;
#[cfg(test)]
mod linkparts;
#[cfg(test)]
mod linkrefusals;
#[cfg(test)]
mod linkruns;
#[cfg(test)]
mod linksteps;
#[cfg(test)]
mod linktexts;
#[cfg(test)]
mod loadcases;
#[cfg(test)]
mod pilecases;
#[cfg(test)]
mod raincases;
#[cfg(test)]
mod refusalcases;
#[cfg(test)]
mod rowcases;
#[cfg(test)]
mod singlecases;
#[cfg(test)]
mod textcases;
#[cfg(test)]
mod timercases;
