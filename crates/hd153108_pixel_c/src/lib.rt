// The HD153108's pixel (chip A): the colour that hd153108_shown picks, its three bytes copied. It is the library's call
// that hd153108_c exports to C.
//
// Source document 003, Table 4, with document 01's rulings and request P3, decides; the rule is `called` of `pixels`
// in hd153108's specs/Hd153108.antt. The call changes neither state nor table. Not modelled: analogue output,
// blanking, pipeline delay.
#![tactic(auto)]

ghost use Rattle.std.specs.Prelude.{◌≡◌, ◌+◌, ◌*◌, ◌≤◌, length};
ghost use Rattle.hd153108.specs.Hd153108.{chip, colour_at, pixels, called};
ghost use Rattle.vocabulary.specs.Pixel.{showing, telling_pixel};
ghost use Rattle.hd153108_pixel_c.specs.Outcome.{lit};

use hd153108::State;
use hd153108_shown::{Pick, picked};
use vocabulary::{Colour, Refusal, Shown};

// An entry's colour.
fn entry(t: &[u8], e: usize) -> Colour
    requires { 3 * e + 3 ≤ length t.now }
    ensures { result ≡ lit (colour_at e t.now) }
{
    let at = 3 * e;
    Colour {
        red: t[at],
        green: t[at + 1],
        blue: t[at + 2],
    }
}

// The colour that a pixel shows, or why there is none.
fn colour(
    s: State,
    enable: u8,
    number: u8,
    byte: u8,
    colours: &[u8],
    overlays: &[u8],
) -> Result<Colour, Refusal>
    ensures { showing (telling_pixel result) (chip s colours.now overlays.now)
        ≡ called (pixels enable number byte) (chip s colours.now overlays.now) }
{
    let pick = picked(s, enable, number, byte, colours, overlays)?;
    match pick {
        Pick::Colour(e) => Ok(entry(colours, e)),
        Pick::Overlay(e) => Ok(entry(overlays, e)),
    }
}

// The pixel's answer, with the three bytes copied.
pub fn zk_a_pixel(
    s: State,
    enable: u8,
    number: u8,
    byte: u8,
    colours: &[u8],
    overlays: &[u8],
) -> Shown
    ensures { showing result (chip s colours.now overlays.now)
        ≡ called (pixels enable number byte) (chip s colours.now overlays.now) }
{
    Shown::told(colour(s, enable, number, byte, colours, overlays))
}
