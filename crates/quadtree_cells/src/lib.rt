// A cell: its square, the triangles that meet it, the entries it leaves.

#![tactic(auto)]

pub mod candidates;
pub mod leaves;
pub mod quarters;
