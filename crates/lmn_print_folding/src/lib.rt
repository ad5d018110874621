//! The folded form, of what a store holds: which atoms are items, which are terms, and how an item is written.
#![tactic(auto)]

mod choosing;
mod examples;
mod family;
mod items_examples;
mod items_family;
mod items_laws;
mod items_walk;
mod laws;
mod numbers;
mod terms;
mod walk;

pub use choosing::choose_items;
pub use examples::{link_is_printed, no_term_is_printed, term_is_printed};
pub use family::{FIRST_ITEM, LATER_ITEM, TERM, arguments, arity, is_item, own_mark, term_at};
pub use items_examples::{
    child_is_no_first_item, item_is_told, later_item_is_marked, one_membrane_is_not_enough,
    term_is_marked, term_is_no_later_item, term_is_not_before_its_item,
};
pub use items_laws::marked_are_told;
pub use laws::items_are_walked;
pub use numbers::number_item;
pub use terms::add_item;
pub use walk::{Stand, behind_term};
