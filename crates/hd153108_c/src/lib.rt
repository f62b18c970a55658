// The HD153108 (chip A) for C: its calls under their own names. Each is the call of the crate that proves it, and
// promises what that one does.
//
// The rules are of hd153108's specs/Hd153108.antt. Not modelled: as there.
#![tactic(auto)]

ghost use Rattle.std.specs.Prelude.{◌≡◌, List, ℕ};
ghost use Rattle.vocabulary.specs.Look.{looking};
ghost use Rattle.vocabulary.specs.Pixel.{showing};
ghost use Rattle.hd153108.specs.Hd153108.{chip, outcome, writes, reads, resets, pixels, looks, called};
ghost use Rattle.hd153108.specs.Hd153108.{tick, clock_outcome};

use hd153108::{Answer, Clock, State};
use hd153108_tick::ClockAnswer;
use vocabulary::{Looked, Shown};

// A write access.
#[unsafe(no_mangle)]
pub extern "C" fn zk_a_write(
    s: State,
    select: u8,
    byte: u8,
    colours: &mut [u8],
    overlays: &mut [u8],
) -> Answer
    ensures { outcome result colours.new overlays.new
        ≡ called (writes select byte) (chip s colours.old overlays.old) }
{
    hd153108_write::zk_a_write(s, select, byte, colours, overlays)
}

// A read access.
#[unsafe(no_mangle)]
pub extern "C" fn zk_a_read(s: State, select: u8, colours: &[u8], overlays: &[u8]) -> Answer
    ensures { outcome result colours.now overlays.now
        ≡ called (reads select) (chip s colours.now overlays.now) }
{
    hd153108_read::zk_a_read(s, select, colours, overlays)
}

// A reset, from any state at all, whatever the tables are.
#[unsafe(no_mangle)]
pub extern "C" fn zk_a_reset(s: State) -> Answer
    ensures { (cs os : List ℕ) → outcome result cs os ≡ called resets (chip s cs os) }
{
    hd153108_reset::zk_a_reset(s)
}

// One tick more, by value.
#[unsafe(no_mangle)]
pub extern "C" fn zk_a_step(k: Clock) -> ClockAnswer
    ensures { clock_outcome result.refusal result.clock ≡ tick k }
{
    hd153108_tick::zk_a_step(k)
}

// One tick more, on a lent clock; where it is refused the clock stays as it is.
#[unsafe(no_mangle)]
pub extern "C" fn zk_a_tick(k: &mut Clock) -> u8
    ensures { clock_outcome result k.new ≡ tick k.old }
{
    hd153108_tick::zk_a_tick(k)
}

// The refusal of a pixel, 0 if none.
#[unsafe(no_mangle)]
pub extern "C" fn zk_a_pixel_refusal(
    s: State,
    enable: u8,
    number: u8,
    byte: u8,
    colours: &[u8],
    overlays: &[u8],
) -> u8
    ensures { result
        ≡ (called (pixels enable number byte) (chip s colours.now overlays.now)).refusal }
{
    hd153108_pixel_refusal::zk_a_pixel_refusal(s, enable, number, byte, colours, overlays)
}

// The pixel, with the three bytes copied.
#[unsafe(no_mangle)]
pub extern "C" fn zk_a_pixel(
    s: State,
    enable: u8,
    number: u8,
    byte: u8,
    colours: &[u8],
    overlays: &[u8],
) -> Shown
    ensures { showing result (chip s colours.now overlays.now)
        ≡ called (pixels enable number byte) (chip s colours.now overlays.now) }
{
    hd153108_pixel_c::zk_a_pixel(s, enable, number, byte, colours, overlays)
}

// A look at a place.
#[unsafe(no_mangle)]
pub extern "C" fn zk_a_look(s: State, place: u32, colours: &[u8], overlays: &[u8]) -> Looked
    ensures { looking result (chip s colours.now overlays.now)
        ≡ called (looks place) (chip s colours.now overlays.now) }
{
    hd153108_look::zk_a_look(s, place, colours, overlays)
}
