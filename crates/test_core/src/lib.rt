//! Tests of the core, of the parts below it, of the calls and of the engines.
#![tactic(auto)]

#[cfg(test)]
mod calls;
#[cfg(test)]
mod checks;
#[cfg(test)]
mod cutting;
#[cfg(test)]
mod engines;
#[cfg(test)]
mod full;
#[cfg(test)]
mod journal;
#[cfg(test)]
mod places;
#[cfg(test)]
mod playing;
#[cfg(test)]
mod settings;
#[cfg(test)]
mod statistics;
#[cfg(test)]
mod stepping;
#[cfg(test)]
mod waiters;
