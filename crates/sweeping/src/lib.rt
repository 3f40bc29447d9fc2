// A level above 0 over a table, by classes: of the positions of the depth below one of a class is gone back from, the open positions before it are
// marked, and each marked position is judged.
#![tactic(auto)]

ghost use Rattle.std.specs.Prelude.{◌≡◌, ◌*◌, ◌<◌, length};
ghost use Rattle.sizes.specs.Size.{size};
ghost use Rattle.rules.specs.Ply.{removable};
ghost use Rattle.classing.specs.Inner.Classes.{least_of_class};
ghost use Rattle.masks.specs.Inner.Masks.{Masks};
ghost use Rattle.settling.specs.Inner.Settled.{Sweeping, judged_first};
ghost use Rattle.sweeping.specs.Inner.Levels.{CountsFit, level_by_classes};

use classing::Maps;
use layers::{Layer, Source};
use returning::Back;
use settling::Sweep;

// Judges the marked positions of a table.
fn judge_marked(tablebase: &mut [u16], masks: &[u32; 72], maps: Maps, sweep: Sweep)
    requires masks { Masks maps.rings masks.now }
    requires sweeping { Sweeping (length tablebase.old) maps sweep }
    ensures { tablebase.new
        ≡ judged_first (removable sweep.edition) maps.rings sweep.table sweep.same sweep.level maps.count tablebase.old
        (size (8 * maps.rings) sweep.table.mover sweep.table.opponent) }
{
    let table = sweep.table;
    let own = table.own;
    let size = own.end - own.start;
    let mut at = seeking::nowhere(size);
    let mut r = settling::find_mark(tablebase, table, 0);
    while r < size {
        at = seeking::seek(maps.rings, table.mover, table.opponent, at, r);
        settling::judge_place(tablebase, masks, maps, sweep, at);
        r = settling::find_mark(tablebase, table, r + 1);
    }
}

// A level above 0 over a table.
pub fn level_table(tablebase: &mut [u16], masks: &[u32; 72], maps: Maps, sweep: Sweep)
    requires masks { Masks maps.rings masks.now }
    requires sweeping { Sweeping (length tablebase.old) maps sweep × CountsFit sweep.table × (0 < sweep.level) }
    ensures { tablebase.new
        ≡ level_by_classes (removable sweep.edition) maps.rings sweep.table sweep.same sweep.level maps.count
        (least_of_class maps.rings maps.count) tablebase.old }
{
    let table = sweep.table;
    let own = table.own;
    let lower = table.lower;
    let depth = sweep.level - 1;
    layers::mark_table(
        tablebase,
        masks,
        maps,
        Back {
            part: own,
            capture: false,
        },
        Layer {
            source: Source {
                start: sweep.same,
                mover: table.opponent,
                opponent: table.mover,
            },
            depth: depth,
        },
    );
    let fewer = table.opponent - 1;
    layers::mark_table(
        tablebase,
        masks,
        maps,
        Back {
            part: own,
            capture: true,
        },
        Layer {
            source: Source {
                start: lower.start,
                mover: fewer,
                opponent: table.mover,
            },
            depth: depth,
        },
    );
    judge_marked(tablebase, masks, maps, sweep);
}
