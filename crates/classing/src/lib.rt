// The class of a position, image after image: whether it is the least, and an entry written at all of them.
#![tactic(auto)]

ghost use Rattle.std.specs.Prelude.{◌≡◌, ◌*◌, length};
ghost use Rattle.board.specs.Board.{board_of};
ghost use Rattle.classing.specs.Inner.Classes.{least_of_class, images_written};
ghost use Rattle.classing.specs.Inner.Conditions.{Imaging, InTable};

use parts::Part;

// The rings of a board, and how many of its symmetries make a class.
#[derive(Clone, Copy)]
pub struct Maps {
    pub rings: usize,
    pub count: usize,
}

// Whether no image of a position has a lower number. The first symmetry changes nothing.
pub fn is_least(maps: Maps, position: board::Position) -> bool
    requires { Imaging maps position }
    ensures { result ≡ least_of_class maps.rings maps.count (board_of (8 * maps.rings) position) }
{
    let count = maps.count;
    let own = position.mover;
    for g in 1..count {
        if imaging::image_set(maps.rings, g, own) < own {
            return false;
        }
    }
    true
}

// Writes an entry at all images of a position, in its table.
pub fn write_images(
    tablebase: &mut [u16],
    maps: Maps,
    part: Part,
    position: board::Position,
    entry: u16,
)
    requires imaging { Imaging maps position }
    requires in_table { InTable (length tablebase.old) maps.rings part position }
    ensures { tablebase.new
        ≡ images_written maps.rings part.start (board_of (8 * maps.rings) position) entry tablebase.old maps.count }
{
    let count = maps.count;
    let points = 8 * maps.rings;
    for g in 0..count {
        let turned = imaging::image_of(maps.rings, g, position);
        let r = ranking::rank(points, turned);
        parts::write_entry(tablebase, part, r, entry);
    }
}
