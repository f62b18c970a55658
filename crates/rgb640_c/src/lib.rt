// Chip C, the palette port of the RGB640, for C: its calls under their own names. Each is the call of the crate that
// proves it, and promises what that one does.
//
// The rules are of rgb640's specs/Rgb640.antt. Not modelled: as there.
#![tactic(auto)]

ghost use Rattle.std.specs.Prelude.{◌≡◌, List, ℕ};
ghost use Rattle.vocabulary.specs.Look.{looking};
ghost use Rattle.rgb640.specs.Rgb640.{chip, outcome, writes, reads, resets, looks, called};

use rgb640::{Answer, State};
use vocabulary::Looked;

// A byte written to a port.
#[unsafe(no_mangle)]
pub extern "C" fn zk_c_write(s: State, port: u8, byte: u8, table: &mut [u16]) -> Answer
    ensures { outcome result table.new ≡ called (writes port byte) (chip s table.old) }
{
    rgb640_write::zk_c_write(s, port, byte, table)
}

// A byte read from a port.
#[unsafe(no_mangle)]
pub extern "C" fn zk_c_read(s: State, port: u8, table: &[u16]) -> Answer
    ensures { outcome result table.now ≡ called (reads port) (chip s table.now) }
{
    rgb640_read::zk_c_read(s, port, table)
}

// The chip after a reset: whatever the state was, it is zero. No table is lent, so that it stays.
#[unsafe(no_mangle)]
pub extern "C" fn zk_c_reset(s: State) -> Answer
    ensures { (t : List ℕ) → outcome result t ≡ called resets (chip s t) }
{
    rgb640_reset::zk_c_reset(s)
}

// A look at a place.
#[unsafe(no_mangle)]
pub extern "C" fn zk_c_look(s: State, place: u32, table: &[u16]) -> Looked
    ensures { looking result (chip s table.now) ≡ called (looks place) (chip s table.now) }
{
    rgb640_look::zk_c_look(s, place, table)
}
