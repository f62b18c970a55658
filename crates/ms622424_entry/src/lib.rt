// The MS622424's output: the entry of the map that a gun shows.
//
// Source document 004, "Pin Descriptions", and document 01, "Chip B", decide; ms622424's specs/Ms622424.antt says it
// (`entry_shown`). Not modelled: as in ms622424_pixel.
#![tactic(auto)]

ghost use Rattle.std.specs.Prelude.{◌≡◌, ◌<◌};
ghost use Rattle.vocabulary.specs.Component.{Component};
ghost use Rattle.ms622424.specs.Ms622424.{pixel_byte, entry_shown};

// The entry that a gun shows, of which `byte` is the gun's own byte of the pixel.
// Stays: the mode is the number that C gives, which the pixel has tested.
pub fn entry(mode: u8, word: u32, byte: u32) -> usize
    requires { (mode < 4) × (byte < 256) }
    ensures { (result < 8192) × ((k : Component) → byte ≡ pixel_byte k word → result ≡ entry_shown mode word k) }
{
    match mode {
        0 => (word % 8192) as usize,
        1 => (7424 + byte) as usize,
        2 => (7680 + byte) as usize,
        _ => (7936 + byte) as usize,
    }
}
