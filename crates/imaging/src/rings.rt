// The image of the set of one ring's places.
ghost use Rattle.std.specs.Prelude.{◌<◌};
ghost use Rattle.imaging.specs.Inner.Images.{RingImage};

use super::table::RING_IMAGES;

// The image of a ring's set under a turn or a mirror. To turn the byte by `rotate_right`, reversed before by `reverse_bits`, makes a fill take two parts
// in a hundred longer.
pub fn ring_image(g: usize, s: u8) -> u8
    requires { g < 16 }
    ensures { RingImage g s result }
{
    RING_IMAGES[256 * (g % 8) + s as usize]
}
