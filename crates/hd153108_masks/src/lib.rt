// The HD153108's masks (chip A): the lines of a pixel's byte and of an overlay number that its selection sees.
//
// Source document 003, Table 4 and Internal Registers, with document 01's rulings, decides; the rule is `masked` of
// hd153108's specs/Hd153108.antt. Not modelled: analogue output, blanking, pipeline delay.
#![tactic(auto)]

ghost use Rattle.std.specs.Prelude.{◌≡◌, ◌/◌, ◌<◌};
ghost use Rattle.hd153108.specs.Hd153108.{masked};

// The eight lines of a pixel's byte.
pub fn masked_byte(off: bool, read: u8, blink: u8, byte: u8) -> u8
    ensures { result ≡ masked 8 off read blink byte }
{
    let seen = byte & (255 - read);
    if off { seen & blink } else { seen }
}

// The two lines of an overlay number: bits 0, 1 of the overlay control mask them, and bits 2, 3 blink mask them.
pub fn masked_number(off: bool, control: u8, number: u8) -> u8
    requires { number < 4 }
    ensures { result ≡ masked 2 off control (control / 4) number }
{
    masked_byte(off, control, control / 4, number)
}
