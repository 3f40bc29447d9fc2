// One table's part of a tablebase: the places from its start on and below its end. The function that writes entries is lent that part alone.
#![tactic(auto)]

ghost use Rattle.std.specs.Prelude.{◌≡◌, true, false, ◌+◌, ◌≤◌, ◌<◌, eqb, length, get_or, set};
ghost use Rattle.game.specs.Game.{draw_entry, void_entry};
ghost use Rattle.parts.specs.Parts.{filled_part};

// The entry of a draw, and of a position that is open while its table is filled.
pub const DRAW: u16 = 65535;

// The entry of a position that is not to be used.
pub const VOID: u16 = 65534;

// Both as numbers that are added to.
pub const DRAW_WIDE: u32 = DRAW as u32;

pub const VOID_WIDE: u32 = VOID as u32;

// The places of a tablebase from start on and below end: one table's.
#[derive(Clone, Copy)]
pub struct Part {
    pub start: usize,
    pub end: usize,
}

// The entry at place r of a part is v.
fn write(part: &mut [u16], r: usize, v: u16)
    requires { r < length part.old }
    ensures { part.new ≡ set part.old r v }
{
    part[r] = v;
}

// The entry at place r of a part is void, if the place was open.
fn mark(part: &mut [u16], r: usize)
    requires { r < length part.old }
    ensures { part.new ≡ elim (eqb (get_or part.old r 0) draw_entry) [
      | true ↦ set part.old r void_entry
      | false ↦ part.old
    ] }
{
    if part[r] == DRAW {
        part[r] = VOID;
    }
}

// Fills a table with one value.
pub fn fill_table(tablebase: &mut [u16], part: Part, v: u16)
    requires { (part.start ≤ part.end) × (part.end ≤ length tablebase.old) }
    ensures { tablebase.new ≡ filled_part part.start part.end v tablebase.old }
{
    let start = part.start;
    let end = part.end;
    tablebase[start..end].fill(v);
}

// Writes the entry of rank r of a table.
pub fn write_entry(tablebase: &mut [u16], part: Part, r: usize, v: u16)
    requires { (part.start + r < part.end) × (part.end ≤ length tablebase.old) }
    ensures { tablebase.new ≡ set tablebase.old (part.start + r) v }
{
    let start = part.start;
    let end = part.end;
    write(&mut tablebase[start..end], r, v);
}

// Marks the entry of rank r of a table by void, if it is open.
pub fn mark_entry(tablebase: &mut [u16], part: Part, r: usize)
    requires { (part.start + r < part.end) × (part.end ≤ length tablebase.old) }
    ensures { tablebase.new ≡ elim (eqb (get_or tablebase.old (part.start + r) 0) draw_entry) [
      | true ↦ set tablebase.old (part.start + r) void_entry
      | false ↦ tablebase.old
    ] }
{
    let start = part.start;
    let end = part.end;
    mark(&mut tablebase[start..end], r);
}
