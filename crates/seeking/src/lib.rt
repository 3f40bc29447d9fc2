// The positions of a table by rising rank, each found from the one before.
#![tactic(auto)]

ghost use Rattle.std.specs.Prelude.{◌≡◌, ◌+◌, ◌*◌, ◌≤◌, ◌<◌};
ghost use Rattle.board.specs.Board.{position_of};
ghost use Rattle.sizes.specs.Size.{size};
ghost use Rattle.ranking.specs.Unrank.{unrank};
ghost use Rattle.seeking.specs.Inner.Cursors.{Stands};

// A rank and its position. A rank above all that are sought stands for none yet, so that one test tells whether to step on or to unrank.
#[derive(Clone, Copy)]
pub struct Cursor {
    pub rank: usize,
    pub position: board::Position,
}

// No position yet.
pub fn nowhere(size: usize) -> Cursor
    ensures { result.rank ≡ size }
{
    Cursor {
        rank: size,
        position: board::Position {
            mover: 0,
            opponent: 0,
        },
    }
}

// The position of rank r.
pub fn seek(rings: usize, mover: usize, opponent: usize, cursor: Cursor, r: usize) -> Cursor
    requires rings_bound { (rings ≤ 3) × (r < size (8 * rings) mover opponent) }
    requires stands { Stands rings mover opponent (r + 1) cursor }
    ensures { (result.rank ≡ r) × (result.position ≡ position_of (unrank (8 * rings) mover opponent r)) }
{
    let known = cursor.rank;
    if known <= r {
        return Cursor {
            rank: r,
            position: stepping::advance(8 * rings, mover, opponent, cursor.position, known, r),
        };
    }
    Cursor {
        rank: r,
        position: ranking::unrank(8 * rings, mover, opponent, r),
    }
}
