// The numbers that depend on a triangle alone, and the tests of a box by them.

#![tactic(auto)]

pub mod box_tests;
pub mod shapes;
pub mod side_masks;
