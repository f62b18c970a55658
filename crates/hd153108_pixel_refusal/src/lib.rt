// The HD153108's pixel (chip A): the refusal of the pixel that hd153108_shown picks.
//
// Source document 003, Table 4, with document 01's rulings and request P3, decides; the rule is `called` of `pixels`
// in hd153108's specs/Hd153108.antt. The call changes neither state nor table. Not modelled: as in hd153108_pixel.
#![tactic(auto)]

ghost use Rattle.std.specs.Prelude.{◌≡◌};
ghost use Rattle.hd153108.specs.Hd153108.{chip, pixels, called};

use hd153108::State;
use hd153108_shown::picked;

// The refusal of a pixel, 0 if none.
#[tactic(auto, using(hd153108_shown::proofs::Rule::accepts, hd153108_shown::proofs::Rule::refuses))]
pub fn zk_a_pixel_refusal(
    s: State,
    enable: u8,
    number: u8,
    byte: u8,
    colours: &[u8],
    overlays: &[u8],
) -> u8
    ensures { result
        ≡ (called (pixels enable number byte) (chip s colours.now overlays.now)).refusal }
{
    match picked(s, enable, number, byte, colours, overlays) {
        Ok(_) => 0,
        Err(r) => u8::from(r),
    }
}
