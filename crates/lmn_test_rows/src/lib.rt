//! Tests alone: stores that are made by hand, what is printed of them, and parts of them.
#![tactic(auto)]

#[cfg(test)]
mod by_hand;
#[cfg(test)]
mod making;
#[cfg(test)]
mod parts;
#[cfg(test)]
mod reading;
