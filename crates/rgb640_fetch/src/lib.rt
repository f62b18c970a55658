// Chip C, the palette port of the RGB640: the fetch of an entry.
//
// Source document 001, sections 9.3 and 9.4.1, and document 01, "Chip C", decide; the rules are in rgb640's
// specs/Rgb640.antt. Not modelled: as there.
#![tactic(auto)]

ghost use Rattle.std.specs.Prelude.{◌≡◌};
ghost use Rattle.rgb640.specs.Rgb640.{fetches_entry, prefetched};

use rgb640::{Colour, State};

// The index's entry is fetched, its numbers taken modulo 1,024.
#[tactic(auto, unfolding(rgb640::specs::Rgb640::entry))]
pub fn fetch(s: State, table: &[u16; 3072]) -> State
    ensures { result ≡ fetches_entry table.now s }
{
    let at = 3 * ((s.index % 1024) as usize);
    let fetched = Colour {
        red: table[at] % 1024,
        green: table[at + 1] % 1024,
        blue: table[at + 2] % 1024,
    };
    State { fetched, ..s }
}

// What setting the index fetches, by its space.
pub fn prefetch(s: State, table: &[u16; 3072]) -> State
    ensures { result ≡ prefetched table.now s }
{
    match s.index {
        0x8000..=0x83FF => fetch(s, table),
        _ => s,
    }
}
