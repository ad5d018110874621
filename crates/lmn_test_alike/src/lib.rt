//! Tests alone: ways that must agree. What is written of texts that run over both stores, and solids that plain search finds one after
//! the other.
#![tactic(auto)]

#[cfg(test)]
mod next_solids;
#[cfg(test)]
mod reading;
#[cfg(test)]
mod stores;
#[cfg(test)]
mod texts;
