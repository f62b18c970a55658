// The HD153108's read access (chip A): the address, the data of either table (hd153108_data_read), the registers.
//
// Source document 003, Register Mapping, Access to CLT/OLT and Internal Registers, with document 01's rulings,
// decides; the rule is `called` of `reads` in hd153108's specs/Hd153108.antt. Not modelled: as there.
#![tactic(auto)]

ghost use Rattle.std.specs.Prelude.{◌≡◌};
ghost use Rattle.hd153108.specs.Hd153108.{chip, outcome, reads, called};

use hd153108::{Answer, State};
use hd153108_data_read::data_read;
use hd153108_port::{accepted, next_colour, next_overlay, refused_for};
use hd153108_range::standing;
use vocabulary::Refusal;

// A read access. An address read sets the pointer to red, and a data read steps it.
pub fn zk_a_read(s: State, select: u8, colours: &[u8], overlays: &[u8]) -> Answer
    ensures { outcome result colours.now overlays.now
        ≡ called (reads select) (chip s colours.now overlays.now) }
{
    if let Err(r) = standing(s, colours.len(), overlays.len()) {
        return refused_for(r, s);
    }
    let a = s.address;
    let at_red = State { pointer: 0, ..s };
    match select {
        0 => accepted(a, at_red),
        1 => data_read(s, colours, a as usize, next_colour(a)),
        3 => data_read(s, overlays, (a % 4) as usize, next_overlay(a)),
        4 => accepted(s.readmask, s),
        5 => accepted(s.blinkmask, s),
        6 => accepted(s.control, s),
        7 => accepted(s.clock.timing, s),
        _ => refused_for(Refusal::NoAccess, s), // nothing moves
    }
}
