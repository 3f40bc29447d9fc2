// The moves of a position under an edition: counted, and written as a list, captures first.
#![tactic(auto)]

ghost use Rattle.std.specs.Prelude.{◌≡◌, map, ◌+◌, ◌*◌, ◌≤◌, ◌<◌, length};
ghost use Rattle.std.proofs.lemmas.List.Edits.{sets};
ghost use Rattle.sets.specs.Sets.{without, members, elements};
ghost use Rattle.board.specs.Board.{board_of};
ghost use Rattle.rules.specs.Ply.{removable, stone_moves, moves};
ghost use Rattle.rules.specs.MoveList.{captures, others, listed_moves};
ghost use Rattle.plies.specs.Inner.Positions.{Playable, Slides};
ghost use Rattle.listing.specs.Inner.Places.{dealt, Room};

// The point that stands for no removal; `plies::NO_REMOVAL` is the set of it.
const NO_STONE: usize = 31;

// How many of a position's moves are captures, and how many are not.
#[derive(Clone, Copy)]
pub struct Counts {
    pub captures: usize,
    pub others: usize,
}

// How many stones are among what a slide may remove. Most slides remove nothing, and nothing is counted then.
fn stones_in(removals: u32) -> usize
    ensures { (result ≡ members (without removals 31) 32) × (result ≤ 32) }
{
    let stones = sets::without(removals, NO_STONE);
    if stones == 0 {
        return 0;
    }
    sets::count(stones) as usize
}

// How many moves one stone has to the points of a set.
fn count_stone(
    rings: usize,
    edition: u8,
    masks: &[u32; 72],
    position: board::Position,
    from: usize,
    tos: u32,
) -> Counts
    requires playable { Playable rings masks.now position }
    requires slides { Slides rings position from tos }
    ensures captures { (result.captures
        ≡ length (captures (stone_moves (removable edition) rings (board_of (8 * rings) position) from (elements 32 tos)))) × (result.captures ≤ 1024) }
    ensures others { (result.others
        ≡ length (others (stone_moves (removable edition) rings (board_of (8 * rings) position) from (elements 32 tos)))) × (result.others ≤ 1024) }
{
    let mut captures = 0;
    let mut others = 0;
    let mut left = tos;
    while left != 0 {
        let to = sets::take_lowest(left);
        let removals = plies::removals(rings, edition, masks, position, from, to.lowest);
        captures += stones_in(removals);
        others += sets::has(removals, NO_STONE) as usize;
        left = to.rest;
    }
    Counts { captures, others }
}

// How many moves a position has.
pub fn count_moves(
    rings: usize,
    edition: u8,
    masks: &[u32; 72],
    position: board::Position,
) -> Counts
    requires { Playable rings masks.now position }
    ensures captures { (result.captures ≡ length (captures (moves (removable edition) rings (board_of (8 * rings) position))))
        × (result.captures ≤ 32768) }
    ensures others { (result.others ≡ length (others (moves (removable edition) rings (board_of (8 * rings) position))))
        × (result.others ≤ 32768) }
{
    let mut captures = 0;
    let mut others = 0;
    let mut left = position.mover;
    while left != 0 {
        let from = sets::take_lowest(left);
        let tos = plies::destinations(rings, masks, position, from.lowest);
        let counts = count_stone(rings, edition, masks, position, from.lowest, tos);
        captures += counts.captures;
        others += counts.others;
        left = from.rest;
    }
    Counts { captures, others }
}

// Writes a move for each point of a set that it may remove, and answers the next place.
fn list_removals(base: usize, removals: u32, list: &mut [u16], at: usize) -> usize
    requires { (base + 31 < 65536) × (at + length (elements 32 removals) ≤ length list.old) }
    ensures { (result ≡ at + length (elements 32 removals)) × (list.new ≡ sets list.old at (map (λ p. base + p) (elements 32 removals))) }
{
    let mut k = at;
    let mut left = removals;
    while left != 0 {
        let p = sets::take_lowest(left);
        list[k] = (base + p.lowest) as u16;
        k += 1;
        left = p.rest;
    }
    k
}

// Where the next capture and the next of the other moves are written.
#[derive(Clone, Copy)]
struct Places {
    captures: usize,
    others: usize,
}

// Writes the moves of one stone to the points of a set, and answers the next places.
fn list_stone(
    rings: usize,
    edition: u8,
    masks: &[u32; 72],
    position: board::Position,
    from: usize,
    tos: u32,
    list: &mut [u16],
    at: Places,
) -> Places
    requires playable { Playable rings masks.now position }
    requires slides { Slides rings position from tos }
    requires room { Room (length list.old) at.captures at.others
        (stone_moves (removable edition) rings (board_of (8 * rings) position) from (elements 32 tos)) }
    ensures captures { result.captures
        ≡ at.captures + length (captures (stone_moves (removable edition) rings (board_of (8 * rings) position) from (elements 32 tos))) }
    ensures others { result.others
        ≡ at.others + length (others (stone_moves (removable edition) rings (board_of (8 * rings) position) from (elements 32 tos))) }
    ensures list { list.new ≡ dealt list.old at.captures at.others
        (stone_moves (removable edition) rings (board_of (8 * rings) position) from (elements 32 tos)) }
{
    let mut captures = at.captures;
    let mut others = at.others;
    let mut left = tos;
    while left != 0 {
        let to = sets::take_lowest(left);
        let removals = plies::removals(rings, edition, masks, position, from, to.lowest);
        let stones = sets::without(removals, NO_STONE);
        let none = removals - stones;
        let slide = making::slide_number(from, to.lowest);
        captures = list_removals(slide, stones, list, captures);
        others = list_removals(slide, none, list, others);
        left = to.rest;
    }
    Places { captures, others }
}

// Writes the moves of a position at the start of a list that has room for them: the captures, then the others from the place where those end.
pub fn list_moves(
    rings: usize,
    edition: u8,
    masks: &[u32; 72],
    position: board::Position,
    others: usize,
    list: &mut [u16],
)
    requires playable { Playable rings masks.now position }
    requires others_value { others ≡ length (captures (moves (removable edition) rings (board_of (8 * rings) position))) }
    requires position_in_bounds { length (listed_moves (removable edition) rings (board_of (8 * rings) position)) ≤ length list.old }
    ensures { list.new ≡ sets list.old 0 (listed_moves (removable edition) rings (board_of (8 * rings) position)) }
{
    let mut at = Places {
        captures: 0,
        others,
    };
    let mut left = position.mover;
    while left != 0 {
        let from = sets::take_lowest(left);
        let tos = plies::destinations(rings, masks, position, from.lowest);
        at = list_stone(rings, edition, masks, position, from.lowest, tos, list, at);
        left = from.rest;
    }
}
