//! Parts of a heap that are reached through a port, and copies of them: definitions alone, told in `specs/`.
#![tactic(auto)]
