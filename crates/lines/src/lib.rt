// The lines of the vectors: reading of the words of a line, and Display of bytes and buffers.
#![tactic(auto)]

pub mod fault;
pub mod fields;
pub mod say;
