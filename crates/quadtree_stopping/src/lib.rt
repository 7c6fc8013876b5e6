// The stopping test: a square is stopped at level 16, or if some point is an end of every side that meets it.

#![tactic(auto)]

ghost use Rattle.std.specs.Prelude.{◌≡◌, ◌+◌, ◌*◌, ◌≤◌, length, MatchOption};
ghost use Rattle.spec_charts.specs.Table.{triangle_at};
ghost use Rattle.spec_charts.specs.Cells.{common_end, stopped};
ghost use Rattle.quadtree_shapes.specs.Shape.{triangle_corners, coordinates, frame_box};
ghost use Rattle.quadtree_shapes.specs.Masks.{unpacked, unpacked_triangle};
ghost use Rattle.quadtree_stopping.specs.Stopping.{corner_table, sides_of, either_end, Scannable, Readable, NoneMet, FirstMet, Stoppable};

use quadtree_shapes::shapes::Frame;
use quadtree_shapes::{shapes, side_masks};
use spec_squares::Square;

// The triangles of a table as building reads them: their packed corners, and by which numbers and offsets boxes are tested.
#[derive(Clone, Copy)]
pub struct Shapes<'a> {
    pub corners: &'a [u32],
    pub shape: &'a [u16],
    pub offsets: &'a [u64],
}

// The corners of a triangle, each as one number.
#[derive(Clone, Copy)]
pub struct Corners {
    pub a: u32,
    pub b: u32,
    pub c: u32,
}

// A candidate: its place among the candidates, and the mask of its sides that meet the frame.
#[derive(Clone, Copy)]
pub struct Met {
    pub at: usize,
    pub mask: u32,
}

impl Shapes<'_> {
    // The corners of triangle i.
    fn corners_at(self, i: usize) -> Corners
        requires { triangle_corners * i + triangle_corners ≤ length self.corners.now }
        ensures { unpacked_triangle result.a result.b result.c ≡ triangle_at (coordinates self.entry.corners.now) i }
    {
        let k = shapes::TRIANGLE_CORNERS * i;
        Corners {
            a: self.corners[k],
            b: self.corners[k + 1],
            c: self.corners[k + 2],
        }
    }

    // The first candidate of which some side meets the frame.
    fn first_met(self, candidates: &[u16], f: Frame) -> Option<Met>
        requires { Scannable self candidates.now (frame_box f) }
        ensures { MatchOption result (NoneMet self.entry candidates.now (frame_box f)) (λ m. FirstMet self.entry candidates.now (frame_box f) m.at m.mask) }
    {
        for (k, i) in candidates.iter().enumerate() {
            let m = side_masks::sides_met(self.shape, self.offsets, usize::from(*i), f);
            if m != 0 {
                return Some(Met { at: k, mask: m });
            }
        }
        None
    }

    // x is 0 and p is an end of every side, of the candidates, that meets the frame; or y is 0 and q is one.
    fn either_end(self, candidates: &[u16], f: Frame, p: u32, q: u32, x: u32, y: u32) -> bool
        requires { Readable self candidates.now (frame_box f) }
        ensures { result ≡ either_end (unpacked p) (unpacked q) x y (sides_of self.entry (frame_box f) candidates.now) }
    {
        let mut first = x;
        let mut second = y;
        for candidate in candidates {
            let i = usize::from(*candidate);
            let m = side_masks::sides_met(self.shape, self.offsets, i, f);
            let t = self.corners_at(i);
            first |= side_masks::missed(m, p, t.a, t.b, t.c);
            second |= side_masks::missed(m, q, t.a, t.b, t.c);
            if (first != 0) & (second != 0) {
                return false;
            }
        }
        (first == 0) | (second == 0)
    }

    // Some point is an end of every side, of the candidates, that meets the frame.
    fn common_end(self, candidates: &[u16], f: Frame) -> bool
        requires { Readable self candidates.now (frame_box f) }
        ensures { result ≡ common_end (sides_of self.entry (frame_box f) candidates.now) }
    {
        match self.first_met(candidates, f) {
            Some(met) => {
                let m = met.mask;
                let t = self.corners_at(usize::from(candidates[met.at]));
                let p = side_masks::start_of(m, t.a, t.b, t.c);
                let q = side_masks::start_of(m, t.b, t.c, t.a);
                let x = side_masks::missed(m, p, t.a, t.b, t.c);
                let y = side_masks::missed(m, q, t.a, t.b, t.c);
                self.either_end(&candidates[met.at + 1..], f, p, q, x, y)
            }
            None => true,
        }
    }

    // Level 16, or some point is an end of every side that meets the square; the candidates are the triangles that meet it.
    pub fn is_stopped(self, candidates: &[u16], s: Square, f: Frame) -> bool
        requires { Stoppable self candidates.now s f }
        ensures { result ≡ stopped (corner_table self.entry.corners.now) s }
    {
        if s.level == 16 {
            return true;
        }
        self.common_end(candidates, f)
    }
}
