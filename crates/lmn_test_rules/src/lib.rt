//! Tests alone: plans of rules, words, orders, listings and failing devices: calls that no command line reaches.
#![tactic(auto)]

#[cfg(test)]
mod choosers;
#[cfg(test)]
mod codes_read;
#[cfg(test)]
mod failing;
#[cfg(test)]
mod plans;
#[cfg(test)]
mod words;
