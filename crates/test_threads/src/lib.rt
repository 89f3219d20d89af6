//! Tests with threads: the calls of a shared pool, what runs in parallel, and loads.
#![tactic(auto)]

#[cfg(test)]
mod actions;
#[cfg(test)]
mod beside;
#[cfg(test)]
mod clocks;
#[cfg(test)]
mod cutting;
#[cfg(test)]
mod dropping;
#[cfg(test)]
mod failing;
#[cfg(test)]
mod faults;
#[cfg(test)]
mod full;
#[cfg(test)]
mod gates;
#[cfg(test)]
mod items;
#[cfg(test)]
mod life;
#[cfg(test)]
mod limits;
#[cfg(test)]
mod loads;
#[cfg(test)]
mod low;
#[cfg(test)]
mod openings;
#[cfg(test)]
mod solo;
#[cfg(test)]
mod stock;
#[cfg(test)]
mod turns;
#[cfg(test)]
mod twins;
#[cfg(test)]
mod upkeep;
#[cfg(test)]
mod waiting;
#[cfg(test)]
mod waking;
#[cfg(test)]
mod watching;
