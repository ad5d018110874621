//! Tests alone: processes that are made and fired by the calls of a store, with the whole state before and after.
#![tactic(auto)]

#[cfg(test)]
mod fired;
#[cfg(test)]
mod written;
