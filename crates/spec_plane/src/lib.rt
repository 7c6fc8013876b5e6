// Documents 01 and 02 in the plane as definitions: points, D, triangles, positions, boxes, meeting. The types that code shares are a
// grid point and a position; a triangle is an array of three points.

#![tactic(auto)]

// A grid point: x to the right, y downward.
#[derive(Clone, Copy, PartialEq, Eq)]
pub struct Point {
    pub x: u16,
    pub y: u16,
}

// Where a point lies by a triangle: "inside, on side 0, 1 or 2 (ab, bc, ca), at corner 0, 1 or 2, or outside".
#[derive(Clone, Copy, PartialEq, Eq)]
pub enum Position {
    Inside,
    OnAb,
    OnBc,
    OnCa,
    AtA,
    AtB,
    AtC,
    Outside,
}
