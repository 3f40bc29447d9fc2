// What a ply may do, as sets: where a stone may go, and what may be removed then.
ghost use Rattle.std.specs.Prelude.{◌≡◌, not, true, false, ◌*◌, ◌^◌, ◌<◌};
ghost use Rattle.lists.specs.Lists.{keep};
ghost use Rattle.sets.specs.Sets.{has, with, elements, set_from};
ghost use Rattle.board.specs.Board.{board_of};
ghost use Rattle.rules.specs.Ply.{in_mill, destinations, slide, removable, removals};
ghost use Rattle.masks.specs.Inner.Masks.{Masks};
ghost use Rattle.plies.specs.Inner.Positions.{Playable, Slide};

// The set that stands for no removal: point 31.
pub const NO_REMOVAL: u32 = 2147483648;

// Whether a point stands in a full mill of a set: a count of three decides.
pub fn in_mill(rings: usize, masks: &[u32; 72], s: u32, p: usize) -> bool
    requires masks { Masks rings masks.now }
    requires p_bound { p < 24 }
    ensures { result ≡ in_mill rings (λ q. has s q) p }
{
    sets::share_three(s, masks::mill(masks, rings, p, 0))
        | sets::share_three(s, masks::mill(masks, rings, p, 1))
}

// The set with one stone more, if that stands in no full mill of its side.
fn with_unshielded(rings: usize, masks: &[u32; 72], side: u32, s: u32, p: usize) -> u32
    requires masks { Masks rings masks.now }
    requires p_bound { p < 24 }
    ensures { result ≡ elim (not (in_mill rings (λ q. has side q) p)) [ true ↦ with s p | false ↦ s ] }
{
    if in_mill(rings, masks, side, p) {
        return s;
    }
    sets::with(s, p)
}

// The stones of a side outside any mill.
fn unshielded(rings: usize, masks: &[u32; 72], side: u32) -> u32
    requires masks { Masks rings masks.now }
    requires side_bound { side < 2 ^ 24 }
    ensures { result ≡ set_from (keep (λ p. not (in_mill rings (λ q. has side q) p)) (elements 32 side)) }
{
    let mut s: u32 = 0;
    let mut left = side;
    while left != 0 {
        let p = sets::take_lowest(left);
        s = with_unshielded(rings, masks, side, s, p.lowest);
        left = p.rest;
    }
    s
}

// The opposing stones that a closed mill may remove: those outside any mill; if all stand in mills, all, and under edition 2 none. The edition is
// asked for only there.
fn removable(rings: usize, edition: u8, masks: &[u32; 72], position: board::Position) -> u32
    requires { Playable rings masks.now position }
    ensures { result ≡ set_from (removable edition rings (board_of (8 * rings) position)) }
{
    let opponent = position.opponent;
    let free = unshielded(rings, masks, opponent);
    if free == 0 {
        if edition == 2 {
            return 0;
        }
        return opponent;
    }
    free
}

// What a slide from one point to another may remove under an edition, 31 for nothing.
pub fn removals(
    rings: usize,
    edition: u8,
    masks: &[u32; 72],
    position: board::Position,
    from: usize,
    to: usize,
) -> u32
    requires playable { Playable rings masks.now position }
    requires slide { Slide rings position from to }
    ensures { result ≡ set_from (removals (removable edition) rings (slide (board_of (8 * rings) position) from to) to) }
{
    let mover = position.mover;
    let moved = sets::with(sets::without(mover, from), to);
    if in_mill(rings, masks, moved, to) {
        let taken = removable(rings, edition, masks, position);
        if taken != 0 {
            return taken;
        }
    }
    NO_REMOVAL
}

// Where a stone may go: to a vacant neighbour; with exactly three stones, to any vacant point.
pub fn destinations(rings: usize, masks: &[u32; 72], position: board::Position, from: usize) -> u32
    requires playable { Playable rings masks.now position }
    requires from_bound { from < 24 }
    ensures { result ≡ set_from (destinations rings (board_of (8 * rings) position) from) }
{
    let vacant = board::vacant(8 * rings, position);
    if sets::count(position.mover) == 3 {
        return vacant;
    }
    vacant & masks::neighbours(masks, rings, from)
}
