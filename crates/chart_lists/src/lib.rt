// A chart's lists and its table written, zeros after them.

#![tactic(auto)]

pub mod list_writes;
pub mod table_writes;
