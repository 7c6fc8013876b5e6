// D, triangles, bounding boxes.

#![tactic(auto)]

pub mod bounds;
pub mod geometry;
pub mod orientation;
