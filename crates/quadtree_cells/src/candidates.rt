// The triangles that may meet a square: their numbers stand on a stack, after those of the squares above it, and only those that
// meet the square are kept for its quarters.

ghost use Rattle.std.specs.Prelude.{◌≡◌, ◌≤◌, ◌<◌, length};
ghost use Rattle.std.proofs.lemmas.List.Edits.{sets};
ghost use Rattle.theory_lists.specs.Lists.{up_to};
ghost use Rattle.spec_charts.specs.Table.{max_triangles};
ghost use Rattle.quadtree_shapes.specs.Shape.{frame_box, triangle_meets_at};
ghost use Rattle.quadtree_cells.specs.Stack.{Pushed, Narrowable, Narrowing};

use quadtree_shapes::box_tests;
use quadtree_shapes::shapes::Frame;

// i on top of the stack where the test passed.
fn push_when(b: bool, stack: &mut [u16], top: usize, i: u16) -> usize
    requires { top < length stack.old }
    ensures { Pushed b i stack.old stack.new top result }
{
    if b {
        stack[top] = i;
        return top + 1;
    }
    top
}

// The candidates from `from` up to `to` that meet the frame, stored from `to` on.
pub fn narrow(
    shape: &[u16],
    offsets: &[u64],
    stack: &mut [u16],
    from: usize,
    to: usize,
    f: Frame,
) -> usize
    requires { Narrowable from to shape.now offsets.now stack.old (frame_box f) }
    ensures { Narrowing (λ i. triangle_meets_at shape.now offsets.now i (frame_box f)) stack.old stack.new from to to result }
{
    let mut top = to;
    for k in from..to {
        let i = stack[k];
        let b = box_tests::triangle_meets(shape, offsets, usize::from(i), f);
        top = push_when(b, stack, top, i);
    }
    top
}

// The numbers from 0 up to n.
pub fn put_numbers(stack: &mut [u16], n: usize)
    requires { (n ≤ length stack.old) × (n ≤ max_triangles) }
    ensures { stack.new ≡ sets stack.old 0 (up_to n) }
{
    for i in 0..n {
        stack[i] = i as u16;
    }
}
