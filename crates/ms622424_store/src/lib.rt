// The MS622424's map, as a transfer writes it: the oldest waiting entries, each at its address.
//
// Source document 004, "Write FIFO", and document 01, "Chip B", decide; ms622424's specs/Ms622424.antt says it
// (`stored`, `all_stored`), and ms622424_places how a place holds an entry. Not modelled: what the output shows then.
#![tactic(auto)]

ghost use Rattle.std.specs.Prelude.{◌≡◌, ◌^◌, ◌≤◌, ◌<◌, true, min};
ghost use Rattle.vocabulary.specs.Every.{every};
ghost use Rattle.ms622424.specs.Ms622424.{is_in_map, stored, all_stored};
ghost use Rattle.ms622424_places.specs.Places.{unpacked, entries_in, ringed};

use ms622424_places::{Map, Queue};

// An entry's three bytes go into the map.
fn store(map: &mut Map, place: u64)
    requires { place < 2 ^ 37 }
    ensures { map.new ≡ stored (unpacked place) map.old }
{
    let at = 3 * ((place / 16777216) as usize);
    map[at] = (place % 256) as u8;
    map[at + 1] = (place / 256 % 256) as u8;
    map[at + 2] = (place / 65536 % 256) as u8;
}

// The entries of a row of places go into the map, in the row's order.
fn store_row(places: &[u64], map: &mut Map)
    requires { every is_in_map (entries_in places.now) ≡ true }
    ensures { map.new ≡ all_stored (entries_in places.now) map.old }
{
    for place in places {
        store(map, *place);
    }
}

// Each slot moves the oldest waiting entry, if one waits, into the map: how many they moved. Those that move lie in one
// row, or round the places' end in two.
pub fn store_oldest(
    first: usize,
    waiting: usize,
    slots: usize,
    queue: &Queue,
    map: &mut Map,
) -> usize
    requires sizes { (first < 64) × (waiting ≤ 64) }
    requires in_map { every is_in_map (entries_in (ringed first waiting queue.now)) ≡ true }
    ensures count { result ≡ min slots waiting }
    ensures map_after { map.new
        ≡ all_stored (entries_in (ringed first result queue.now)) map.old }
{
    let moved = slots.min(waiting);
    let end = first + moved;
    if end <= 64 {
        store_row(&queue[first..end], map);
        return moved;
    }
    store_row(&queue[first..], map);
    store_row(&queue[..end - 64], map);
    moved
}
