// A layer: the positions of one depth in a table that plies lead to; and the open positions before them, marked.
#![tactic(auto)]

ghost use Rattle.std.specs.Prelude.{◌≡◌, ◌*◌, ◌≤◌, length};
ghost use Rattle.board.specs.Board.{board_of};
ghost use Rattle.sizes.specs.Size.{size};
ghost use Rattle.masks.specs.Inner.Masks.{Masks};
ghost use Rattle.finding.specs.Inner.Finding.{First};
ghost use Rattle.classing.specs.Inner.Classes.{least_of_class};
ghost use Rattle.classing.specs.Inner.Conditions.{Imaging};
ghost use Rattle.masks.specs.Inner.Masks.{Masks};
ghost use Rattle.returning.specs.Inner.Returning.{Returning};
ghost use Rattle.layers.specs.Inner.Layers.{Stored, Preceding, is_source, gone_back, marked_from};

use classing::Maps;
use returning::Back;

// A table that plies lead to: where it starts, and its counts.
#[derive(Clone, Copy)]
pub struct Source {
    pub start: usize,
    pub mover: usize,
    pub opponent: usize,
}

// The positions of one depth in such a table.
#[derive(Clone, Copy)]
pub struct Layer {
    pub source: Source,
    pub depth: u16,
}

// The first rank from r on of a position of a layer, or the size, which ends the loop over them.
fn find_source(tablebase: &[u16], layer: Layer, size: usize, r: usize) -> usize
    requires { (r ≤ size) × Stored layer.source size (length tablebase.now) }
    ensures { First (is_source layer.source layer.depth tablebase.now) r size result }
{
    let source = layer.source;
    let depth = layer.depth;
    if source.mover < 3 {
        if depth == 0 {
            return r;
        }
        return size;
    }
    let start = source.start;
    finding::find(tablebase, start + r, start + size, depth) - start
}

// Marks the open positions before a position in the part of their table, if it is the least of its class.
fn mark_source(
    tablebase: &mut [u16],
    masks: &[u32; 72],
    maps: Maps,
    back: Back,
    position: board::Position,
)
    requires returning { Returning (length tablebase.old) maps.rings back position }
    requires masks { Masks maps.rings masks.now × Imaging maps position }
    ensures { tablebase.new
        ≡ gone_back maps.rings back.part.start back.capture (least_of_class maps.rings maps.count) (board_of (8 * maps.rings) position)
        tablebase.old }
{
    if classing::is_least(maps, position) {
        marking::mark_before(tablebase, masks, maps.rings, back, position);
    }
}

// Marks the open positions of a table that have plies to positions of a depth in one of the tables that plies lead to.
pub fn mark_table(tablebase: &mut [u16], masks: &[u32; 72], maps: Maps, back: Back, layer: Layer)
    requires masks { Masks maps.rings masks.now }
    requires preceding { Preceding (length tablebase.old) maps back layer }
    ensures { tablebase.new
        ≡ marked_from maps.rings back.part.start layer.source back.capture layer.depth (least_of_class maps.rings maps.count)
        tablebase.old (size (8 * maps.rings) layer.source.mover layer.source.opponent) }
{
    let source = layer.source;
    let points = 8 * maps.rings;
    let size = sizes::size(points, source.mover, source.opponent);
    let mut at = seeking::nowhere(size);
    let mut r = find_source(tablebase, layer, size, 0);
    while r < size {
        at = seeking::seek(maps.rings, source.mover, source.opponent, at, r);
        mark_source(tablebase, masks, maps, back, at.position);
        r = find_source(tablebase, layer, size, r + 1);
    }
}
