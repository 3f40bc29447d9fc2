// Tablebases with entries written anew, as another maker might have left them.
use fill_cases::{DRAW_ENTRY, VOID_ENTRY};

// 1 for a win and 2 for a loss; a blocked mover's 0 and a draw stay.
pub fn mark(entry: u16) -> u16 {
    if (2 < entry) & (entry < VOID_ENTRY) {
        return 2 - entry % 2;
    }
    entry
}

// A cap over the depths above it; a draw stays.
pub fn capped(entry: u16, cap: u16) -> u16 {
    if entry < VOID_ENTRY {
        entry.min(cap)
    } else {
        entry
    }
}

// A depth over a draw.
pub fn decided(entry: u16, depth: u16) -> u16 {
    if entry == DRAW_ENTRY { depth } else { entry }
}

// Writes every entry anew.
pub fn write_anew<F: Fn(u16) -> u16>(tablebase: &mut [u16], change: F)
    requires { F.IsAlwaysCallable change }
{
    for entry in tablebase.iter_mut() {
        *entry = change(*entry);
    }
}
