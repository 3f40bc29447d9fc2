// Sizes from the constant table of binomials.
#![tactic(auto)]

mod table;

ghost use Rattle.std.specs.Prelude.{◌≡◌, ◌≤◌, ◌<◌};
ghost use Rattle.sizes.specs.Size.{size};
ghost use Rattle.sizes.specs.Inner.Binomial.{binomial};

use table::BINOMIALS;

// The binomial of row n and column k, from 0 to 24.
pub fn binomial(n: usize, k: usize) -> usize
    requires { (n < 25) × (k < 25) }
    ensures { result ≡ binomial n k }
{
    BINOMIALS[25 * n + k] as usize
}

// The size of table (m, o): a multinomial, as a product of two binomials.
pub fn size(points: usize, m: usize, o: usize) -> usize
    requires { (points ≤ 24) × (m ≤ 24) × (o ≤ 24) }
    ensures { result ≡ size points m o }
{
    if points < m {
        return 0;
    }
    binomial(points, m) * binomial(points - m, o)
}
