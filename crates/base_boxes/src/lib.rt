// The bounding boxes of a table's triangles, and those that overlap a box.

#![tactic(auto)]

pub mod boxes;
pub mod near_boxes;
