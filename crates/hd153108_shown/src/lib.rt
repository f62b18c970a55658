// The HD153108's pixel selection (chip A): which entry of which table shows, its lines masked by hd153108_masks.
//
// Source document 003, Table 4 and Internal Registers, with document 01's rulings, decides, and document 02's request
// P3 over them; the rule is `pixel_part` of hd153108's specs/Hd153108.antt, and what a decision means is
// specs/Picked.antt. Not modelled: analogue output, blanking, pipeline delay.
#![tactic(auto)]

ghost use Rattle.std.specs.Prelude.{◌≡◌, ◌/◌, ◌<◌};
ghost use Rattle.vocabulary.specs.Line.{line};
ghost use Rattle.hd153108.specs.Hd153108.{chip, masked, selected};
ghost use Rattle.hd153108_shown.specs.Picked.{is_colour, Picked};

use hd153108::State;
use hd153108_masks::{masked_byte, masked_number};
use hd153108_range::{blink_off, standing};
use vocabulary::Refusal;

// What a pixel shows: an entry of one of the tables.
#[derive(Clone, Copy)]
pub enum Pick {
    Colour(usize),
    Overlay(usize),
}

// Whether the colour table shows: bit 6 of the overlay control tests the number after read mask and blink.
fn shows_colour(off: bool, enable: u8, control: u8, number: u8) -> bool
    requires { number < 4 }
    ensures { result
        ≡ is_colour (selected enable (line control 6) (masked 2 off control (control / 4) number)) }
{
    if enable == 0 {
        return true;
    }
    if control / 64 % 2 == 0 {
        return false;
    }
    let selects = masked_number(off, control, number);
    selects == 0
}

// The one decision: refusals 1 and 9, then the table and its entry.
// Stays: the calls are lent two tables, as C lends them; a struct of both would be made only to be taken apart here.
pub fn picked(
    s: State,
    enable: u8,
    number: u8,
    byte: u8,
    colours: &[u8],
    overlays: &[u8],
) -> Result<Pick, Refusal>
    ensures { Picked enable number byte (chip s colours.now overlays.now) result }
{
    standing(s, colours.len(), overlays.len())?;
    if 2 <= enable {
        return Err(Refusal::OutOfRange);
    }
    if 4 <= number {
        return Err(Refusal::OutOfRange);
    }
    let off = blink_off(s.clock);
    if shows_colour(off, enable, s.control, number) {
        let entry = masked_byte(off, s.readmask, s.blinkmask, byte);
        return Ok(Pick::Colour(usize::from(entry)));
    }
    let entry = masked_number(off, s.control, number);
    Ok(Pick::Overlay(usize::from(entry)))
}
