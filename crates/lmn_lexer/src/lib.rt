//! The tokens of a text.
#![tactic(auto)]

mod fault;
pub mod laws;
mod piece;
mod place;
mod scanner;
mod token;
mod tokens;
mod value;

pub use scanner::lex;
pub use token::{Kind, Token};
pub use tokens::{PackedToken, Tokens};
pub use value::{integer, unquoted};
