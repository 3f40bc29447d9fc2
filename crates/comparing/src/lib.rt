// Whether a table has one entry for all images of a position. Only the positions that are no draws are looked at: the image of a draw is one, if no
// image of another position is.
#![tactic(auto)]

ghost use Rattle.std.specs.Prelude.{◌≡◌, ◌+◌, ◌*◌, ◌≤◌, ◌<◌, length};
ghost use Rattle.board.specs.Board.{board_of};
ghost use Rattle.sizes.specs.Size.{size};
ghost use Rattle.symmetry.specs.Symmetries.{symmetries};
ghost use Rattle.invariance.specs.Symmetric.{SymmetricFrom};
ghost use Rattle.finding.specs.Inner.Finding.{First};
ghost use Rattle.comparing.specs.Inner.Compared.{Comparable, Comparing, image_has, same_images, is_decided, Decides};

use layers::Source;
use parts::DRAW;

// A position and its entry, in the table that starts at a place.
#[derive(Clone, Copy)]
pub struct Entered {
    pub start: usize,
    pub position: board::Position,
    pub entry: u16,
}

// Whether the image of a position has its entry.
fn image_has(tablebase: &[u16], rings: usize, at: Entered, g: usize) -> bool
    requires { Comparing (length tablebase.now) rings at × (g < 16) }
    ensures { result ≡ image_has rings at.start tablebase.now (board_of (8 * rings) at.position) at.entry g }
{
    let start = at.start;
    let entry = at.entry;
    let turned = imaging::image_of(rings, g, at.position);
    let r = ranking::rank(8 * rings, turned);
    tablebase[start + r] == entry
}

// Whether the images of a position by a turn, by a mirror and with the rings reversed have its entry.
fn same_images(tablebase: &[u16], rings: usize, at: Entered) -> bool
    requires { Comparing (length tablebase.now) rings at }
    ensures { result ≡ same_images rings at.start tablebase.now (board_of (8 * rings) at.position) at.entry }
{
    let turned = image_has(tablebase, rings, at, 1);
    let mirrored = image_has(tablebase, rings, at, 4);
    let reversed = image_has(tablebase, rings, at, 8);
    turned & mirrored & reversed
}

// The first rank from r on of a position that is no draw, or the size, which ends the loop over them.
fn find_decided(tablebase: &[u16], start: usize, size: usize, r: usize) -> usize
    requires { (r ≤ size) × (start + size ≤ length tablebase.now) }
    ensures { First (is_decided start tablebase.now) r size result }
{
    for i in r..size {
        if tablebase[start + i] != DRAW {
            return i;
        }
    }
    size
}

// Whether a table has one entry for all images of a position.
pub fn is_symmetric(tablebase: &[u16], rings: usize, table: Source) -> bool
    requires { Comparable (length tablebase.now) rings table }
    ensures { Decides (SymmetricFrom symmetries rings table.start table.mover table.opponent tablebase.now) result }
{
    let start = table.start;
    let size = sizes::size(8 * rings, table.mover, table.opponent);
    let mut at = seeking::nowhere(size);
    let mut r = find_decided(tablebase, start, size, 0);
    while r < size {
        at = seeking::seek(rings, table.mover, table.opponent, at, r);
        let position = at.position;
        let entry = tablebase[start + r];
        if same_images(
            tablebase,
            rings,
            Entered {
                start: start,
                position: position,
                entry: entry,
            },
        ) {
            r = find_decided(tablebase, start, size, r + 1);
        } else {
            return false;
        }
    }
    true
}
