// The items of the cell over a point, by keys alone: the last cell at or below the point's key.

#![tactic(auto)]

pub mod morton;
mod search;

ghost use Rattle.spec_squares.specs.Square.{z_order};
ghost use Rattle.read_cells.specs.Keys.{Listable};
ghost use Rattle.read_cells.specs.Place.{CellListed, CellPart};

use base_entries::MARK;
use spec_plane::Point;

// A part of the items: from the first place up to the second.
#[derive(Clone, Copy)]
pub struct Part {
    pub from: usize,
    pub to: usize,
}

// Where in the items those of the last cell at or below Z(p) stand; 0 and 0 for the mark. Levels are not
// needed, as a cell ends where the next key begins: in a chain it is the cell whose key range has Z(p).
// Kept: 0 and 0, not an Option: the part that cell listing hands back is then empty and starts at place 0, as `CellPart.nothing` says.
pub fn listed_part(keys: &[u32], items: &[u16], entries: usize, p: Point) -> Part
    requires { Listable keys.now items.now entries }
    ensures { CellPart keys.now entries (z_order p) items.now result.from result.to }
{
    let cell = search::last_cell(keys, entries, morton::z_order(p));
    if items[cell.from] == MARK {
        return Part { from: 0, to: 0 };
    }
    cell
}

// These items, as a part of the caller's own list.
pub fn listing<'a>(keys: &[u32], items: &'a [u16], entries: usize, p: Point) -> &'a [u16]
    requires { Listable keys.now items.now entries }
    ensures { CellListed keys.now entries (z_order p) items.now result.now }
{
    let part = listed_part(keys, items, entries, p);
    &items[part.from..part.to]
}
