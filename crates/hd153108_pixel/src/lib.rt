// The HD153108's pixel (chip A): the colour that hd153108_shown picks, handed back.
//
// Source document 003, Table 4, with document 01's rulings and request P3, decides; the rule is `pixel_part` of
// hd153108's specs/Hd153108.antt, which is `called` of `pixels` (`pixel_lent` says that they are one). The shown
// colour is handed back as a part of a lent table, not copied, and which part of which table is promised too
// (specs/Place.antt); hd153108_pixel_c has the copy that hd153108_c
// exports, and hd153108_pixel_refusal the refusal. The call changes
// neither state nor table. Not modelled: analogue output, blanking, pipeline delay.
#![tactic(auto)]

ghost use Rattle.std.specs.Prelude.{◌≡◌, ◌<◌, length};
ghost use Rattle.hd153108.specs.Hd153108.{chip, pixel_part};
ghost use Rattle.hd153108_pixel.specs.Place.{shown_place};

use hd153108::State;
use hd153108_shown::{Pick, picked};

// The shown colour: three bytes of the chosen table, or no byte where the pixel is refused.
pub fn pixel<'a>(
    s: State,
    enable: u8,
    number: u8,
    byte: u8,
    colours: &'a [u8],
    overlays: &'a [u8],
) -> &'a [u8]
    ensures { (result.now
        ≡ (pixel_part enable number byte (chip s colours.now overlays.now)).left)
        × (0 < length result.now
        → result.ref_ptr ≡ shown_place enable number byte s colours.entry.ref_ptr overlays.entry.ref_ptr) }
{
    match picked(s, enable, number, byte, colours, overlays) {
        Ok(Pick::Colour(e)) => {
            let at = 3 * e;
            &colours[at..at + 3]
        }
        Ok(Pick::Overlay(e)) => {
            let at = 3 * e;
            &overlays[at..at + 3]
        }
        Err(_) => &colours[0..0],
    }
}
