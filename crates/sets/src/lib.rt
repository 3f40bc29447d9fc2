// Sets of points, as the binary digits of a u32. A board has 24 points at the most.
#![tactic(auto)]

ghost use Rattle.std.specs.Prelude.{◌≡◌, ◌∷◌, [], ◌<◌, eqb};
ghost use Rattle.sets.specs.Sets.{has, with, without, members, shared, lowest, set_from};
ghost use Rattle.sets.specs.Inner.Taken.{Taken};

// Whether a point is a member.
pub fn has(s: u32, p: usize) -> bool
    requires { p < 32 }
    ensures { result ≡ has s p }
{
    (s >> p) % 2 == 1
}

// The set with one member more, or the same set where the point is a member already.
pub fn with(s: u32, p: usize) -> u32
    requires { p < 32 }
    ensures { result ≡ with s p }
{
    s | (1u32 << p)
}

// The set with one member less, or the same set where the point is none.
pub fn without(s: u32, p: usize) -> u32
    requires { p < 32 }
    ensures { result ≡ without s p }
{
    s - (s & (1u32 << p))
}

// How many points are members.
pub fn count(s: u32) -> u32
    ensures { result ≡ members s 32 }
{
    u32::count_ones(s)
}

// The set of three points.
pub fn of_three(a: usize, b: usize, c: usize) -> u32
    requires { (a < 32) × (b < 32) × (c < 32) }
    ensures { result ≡ set_from (a ∷ b ∷ c ∷ []) }
{
    with(with(with(0, a), b), c)
}

// Whether two sets have three points in common.
pub fn share_three(s: u32, t: u32) -> bool
    ensures { result ≡ eqb (shared s t) 3 }
{
    count(s & t) == 3
}

// The least member of a set that has one.
pub fn lowest(s: u32) -> usize
    requires { s ≡ 0 → ⊥ }
    ensures { (result ≡ lowest s) × (result < 32) }
{
    u32::trailing_zeros(s) as usize
}

// A set without its least member.
fn without_lowest(s: u32) -> u32
    requires { s ≡ 0 → ⊥ }
    ensures { result ≡ without s (lowest s) }
{
    s & (s - 1)
}

// A set's least member, and the rest.
#[derive(Clone, Copy)]
pub struct Split {
    pub lowest: usize,
    pub rest: u32,
}

// The least member taken from a set that has one: how every loop over a set goes on.
pub fn take_lowest(s: u32) -> Split
    requires { s ≡ 0 → ⊥ }
    ensures { Taken s result.lowest result.rest }
{
    Split {
        lowest: lowest(s),
        rest: without_lowest(s),
    }
}
