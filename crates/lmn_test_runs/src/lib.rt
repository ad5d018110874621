//! Tests alone: texts that an engine runs, turn by turn or by `drive`, and code that is made by hand.
#![tactic(auto)]

#[cfg(test)]
mod code;
#[cfg(test)]
mod reading;
#[cfg(test)]
mod runs;
