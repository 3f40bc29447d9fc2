// The image of a position, ring by ring.
ghost use Rattle.std.specs.Prelude.{◌≡◌, ◌*◌, ◌^◌, ◌≤◌, ◌<◌};
ghost use Rattle.board.specs.Board.{board_of, OnBoard};
ghost use Rattle.symmetry.specs.Symmetries.{image};
ghost use Rattle.imaging.specs.Inner.Images.{ImageSet};

use super::rings::ring_image;

// The image of a set: a byte for each ring, in order or reversed.
pub fn image_set(rings: usize, g: usize, s: u32) -> u32
    requires { (rings ≤ 3) × (g < 16) × (s < 2 ^ (8 * rings)) × (s < 16777216) }
    ensures { ImageSet rings g s result }
{
    let a = ring_image(g, (s % 256) as u8) as u32;
    let b = ring_image(g, (s / 256 % 256) as u8) as u32;
    let c = ring_image(g, (s / 65536) as u8) as u32;
    if g < 8 {
        return a + 256 * b + 65536 * c;
    }
    if rings == 3 {
        return c + 256 * b + 65536 * a;
    }
    if rings == 2 {
        return b + 256 * a;
    }
    a
}

// The image of a position.
pub fn image_of(rings: usize, g: usize, position: board::Position) -> board::Position
    requires { (rings ≤ 3) × (g < 16) × OnBoard (8 * rings) position }
    ensures { (board_of (8 * rings) result ≡ image rings g (board_of (8 * rings) position)) × OnBoard (8 * rings) result }
{
    board::Position {
        mover: image_set(rings, g, position.mover),
        opponent: image_set(rings, g, position.opponent),
    }
}
