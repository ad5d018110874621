//! The printer of what a store holds.
#![tactic(auto)]

mod examples;
mod guard;
mod labels;
mod laws;
mod leaves;
mod line;
mod numbers;
mod order;
mod printing;
mod rules;
mod stored;
mod walk;
mod writer;

pub use examples::{both_ports_tell, one_port_tells_nothing};
pub use labels::{add_label, add_link, name_of};
pub use laws::{heap_solids_are_solids, heaps_have_solids, one_solid};
pub use leaves::add_between;
pub use line::{write_line, write_line_with};
pub use numbers::number_port;
pub use order::{first_printed, next_mem_printed, next_printed};
pub use printing::print;
pub use rules::add_rule;
pub use stored::add_rules;
pub use writer::AtomWriter;
