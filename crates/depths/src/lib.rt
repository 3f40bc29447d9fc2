// The depths that stand in the tables of a pair: whether a level beyond the limit wrote any, and the least from a level on.
#![tactic(auto)]

ghost use Rattle.std.specs.Prelude.{◌≡◌, ◌<◌, length};
ghost use Rattle.game.specs.Game.{void_entry};
ghost use Rattle.pairs.specs.Inner.Pairs.{PartIn, InRoom};
ghost use Rattle.depths.specs.Inner.Depths.{Held, WroteBeyond, PairHeld, pair_least};

use pairs::Tables;
use parts::Part;

// Whether an entry stands in a part.
fn holds(tablebase: &[u16], part: Part, entry: u16) -> bool
    requires { PartIn (length tablebase.now) part }
    ensures { Held tablebase.now part entry result }
{
    let end = part.end;
    finding::find(tablebase, part.start, end, entry) < end
}

// Whether a level beyond the limit wrote anything in a pair.
pub fn beyond(tablebase: &[u16], tables: Tables, limit: u16, level: u16) -> bool
    requires { InRoom (length tablebase.now) tables.first tables.second }
    ensures { WroteBeyond tables.first tables.second limit level tablebase.now result }
{
    if level <= limit {
        return false;
    }
    let first = tables.first;
    if holds(tablebase, first.own, level) {
        return true;
    }
    let second = tables.second;
    holds(tablebase, second.own, level)
}

// Whether an entry stands in one of the two tables or their lower tables.
fn pair_holds(tablebase: &[u16], tables: Tables, entry: u16) -> bool
    requires { InRoom (length tablebase.now) tables.first tables.second }
    ensures { PairHeld tables.first tables.second entry tablebase.now result }
{
    let first = tables.first;
    let second = tables.second;
    if holds(tablebase, first.own, entry) {
        return true;
    }
    if holds(tablebase, second.own, entry) {
        return true;
    }
    if holds(tablebase, first.lower, entry) {
        return true;
    }
    holds(tablebase, second.lower, entry)
}

// The least depth from `low` on in both tables and their lower tables, void where there is none: the next level is one more either way. Most often it
// is `low`, which is found sooner.
pub fn pair_least(tablebase: &[u16], tables: Tables, low: u16) -> u16
    requires { InRoom (length tablebase.now) tables.first tables.second × (low < void_entry) }
    ensures { result ≡ pair_least tables.first tables.second low tablebase.now }
{
    if pair_holds(tablebase, tables, low) {
        return low;
    }
    let first = tables.first;
    let second = tables.second;
    let a = finding::least_depth(tablebase, first.own, low);
    let b = finding::least_depth(tablebase, second.own, low);
    let c = finding::least_depth(tablebase, first.lower, low);
    let d = finding::least_depth(tablebase, second.lower, low);
    a.min(b).min(c.min(d))
}
