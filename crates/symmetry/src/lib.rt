// Symmetries of the board: definitions and laws, and the place that a turn or a mirror takes a stone from. Representatives are found in `representing`.
#![tactic(auto)]

ghost use Rattle.std.specs.Prelude.{◌≡◌, ◌<◌};
ghost use Rattle.symmetry.specs.Symmetries.{place_from};

// The place whose stone symmetry g brings to a place: a turn, or a mirror.
pub fn place_from(g: usize, place: usize) -> usize
    requires { place < 8 }
    ensures { (result ≡ place_from g place) × (result < 8) }
{
    if g / 4 % 2 == 1 {
        return (8 + 2 * (g % 4) - place) % 8;
    }
    (place + 2 * (g % 4)) % 8
}
