//! Each public name of a crate that only passes on what others have, called through that crate, with its definitions.
#![tactic(auto)]

mod codes;
mod processes;
mod stores;

pub use codes::{coded, first_code, first_instruction, listed, ports, read_codes, read_name};
pub use processes::{commits_from, commits_of, first_solid, has_next, reach_of, search_of};
pub use stores::{new_slab, new_web, root_of};
