// The MS622424 (chip B) for C: its calls under their own names. Each is the call of the crate that proves it, and
// promises what that one does.
//
// The rules are of ms622424's specs/Ms622424.antt, and how 64 lent places keep the waiting colours is of
// ms622424_places' specs/Places.antt. Not modelled: as there.
#![tactic(auto)]

ghost use Rattle.std.specs.Prelude.{◌≡◌, List, ℕ};
ghost use Rattle.vocabulary.specs.Look.{looking};
ghost use Rattle.vocabulary.specs.Pixel.{showing};
ghost use Rattle.ms622424.specs.Ms622424.{writes, reads, resets, blanks, pixels, looks, called};
ghost use Rattle.ms622424.specs.Ms622424.{signals as signals_call};
ghost use Rattle.ms622424_places.specs.Places.{handed, outcome, view, Does};

use ms622424_places::{Answer, State};
use vocabulary::{Looked, Shown};

// A write of a byte to a select.
#[unsafe(no_mangle)]
pub extern "C" fn zk_b_write(
    s: State,
    select: u8,
    byte: u8,
    queue: &mut [u64],
    map: &mut [u8],
) -> Answer
    ensures { Does (handed s queue.old map.old)
        (outcome result queue.new map.new) (called (writes select byte)) }
{
    ms622424_write::zk_b_write(s, select, byte, queue, map)
}

// A read of a select.
#[unsafe(no_mangle)]
pub extern "C" fn zk_b_read(s: State, select: u8, queue: &[u64], map: &[u8]) -> Answer
    ensures { Does (handed s queue.now map.now)
        (outcome result queue.now map.now) (called (reads select)) }
{
    ms622424_read::zk_b_read(s, select, queue, map)
}

// A blanking period of so many slots: each moves the oldest waiting entry, if one waits, into the map, and
// the first position steps past it.
#[unsafe(no_mangle)]
pub extern "C" fn zk_b_blank(s: State, slots: u32, queue: &[u64], map: &mut [u8]) -> Answer
    ensures { Does (handed s queue.now map.old)
        (outcome result queue.now map.new) (called (blanks slots)) }
{
    ms622424_blank::zk_b_blank(s, slots, queue, map)
}

// The colour of a pixel.
#[unsafe(no_mangle)]
pub extern "C" fn zk_b_pixel(s: State, mode: u8, word: u32, queue: &[u64], map: &[u8]) -> Shown
    ensures { showing result (view (handed s queue.now map.now))
        ≡ called (pixels mode word) (view (handed s queue.now map.now)) }
{
    ms622424_pixel::zk_b_pixel(s, mode, word, queue, map)
}

// The four timing signals. It is lent no map, since it reads none.
#[unsafe(no_mangle)]
pub extern "C" fn zk_b_sync(s: State, signals: u8, queue: &[u64]) -> Answer
    ensures { (m : List ℕ) → Does (handed s queue.now m) (outcome result queue.now m)
        (called (signals_call signals)) }
{
    ms622424_signals::zk_b_sync(s, signals, queue)
}

// A reset. It is lent no map, and so keeps it; the queue is empty, whatever its places hold.
#[unsafe(no_mangle)]
pub extern "C" fn zk_b_reset(s: State, queue: &[u64]) -> Answer
    ensures { (m : List ℕ)
        → Does (handed s queue.now m) (outcome result queue.now m) (called resets) }
{
    ms622424_reset::zk_b_reset(s, queue)
}

// A look at a place.
#[unsafe(no_mangle)]
pub extern "C" fn zk_b_look(s: State, place: u32, queue: &[u64], map: &[u8]) -> Looked
    ensures { looking result (view (handed s queue.now map.now))
        ≡ called (looks place) (view (handed s queue.now map.now)) }
{
    ms622424_look::zk_b_look(s, place, queue, map)
}
