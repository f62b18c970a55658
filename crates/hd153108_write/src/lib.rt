// The HD153108's write access (chip A): the data of either table (hd153108_data_write), the address and the other
// registers (hd153108_set).
//
// Source document 003, Register Mapping, Access to CLT/OLT and Internal Registers, with document 01's rulings,
// decides; the rule is `called` of `writes` in hd153108's specs/Hd153108.antt. Not modelled: as there.
#![tactic(auto)]

ghost use Rattle.std.specs.Prelude.{◌≡◌};
ghost use Rattle.hd153108.specs.Hd153108.{chip, outcome, writes, called};

use hd153108::{Answer, State};
use hd153108_data_write::data_write;
use hd153108_port::{accepted, next_colour, next_overlay, refused_for};
use hd153108_range::standing;
use vocabulary::Refusal;

// A write access. The colours or the overlays change at an accepted blue data write alone.
pub fn zk_a_write(s: State, select: u8, byte: u8, colours: &mut [u8], overlays: &mut [u8]) -> Answer
    ensures { outcome result colours.new overlays.new
        ≡ called (writes select byte) (chip s colours.old overlays.old) }
{
    if let Err(r) = standing(s, colours.len(), overlays.len()) {
        return refused_for(r, s);
    }
    let a = s.address;
    // Stays: a select is its number of Table 1.1, matched here and at a read; an enum would be that table once more.
    match select {
        0 => hd153108_set::set_address(s, byte),
        1 => accepted(0, data_write(s, byte, colours, a as usize, next_colour(a))),
        3 => accepted(
            0,
            data_write(s, byte, overlays, (a % 4) as usize, next_overlay(a)),
        ),
        4 => hd153108_set::set_read_mask(s, byte),
        5 => hd153108_set::set_blink_mask(s, byte),
        6 => hd153108_set::set_control(s, byte),
        7 => hd153108_set::set_timing(s, byte),
        _ => refused_for(Refusal::NoAccess, s),
    }
}
