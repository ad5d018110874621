//! Tests alone: levels and rules that are made by hand, their numbers and their printed forms.
#![tactic(auto)]

#[cfg(test)]
mod numbered;
#[cfg(test)]
mod rule_forms;
