//! Walks over the items of rules and levels, which items use a name, and the codes by which rules and links are refused.
#![tactic(auto)]

mod uses;
mod walk;

pub use uses::{is_left, is_used, is_used_in_condition, is_used_in_expression};
pub use walk::{
    find, find_in_condition, find_in_expression, find_in_guard, find_in_level_itself, find_in_rule,
    number_of_items,
};
