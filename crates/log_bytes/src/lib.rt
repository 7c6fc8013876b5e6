// The bytes of a command: how many follow the first, whether they can be a command's, and the 16-bit numbers in them.

#![tactic(auto)]

pub mod command_bytes;
pub mod words;
