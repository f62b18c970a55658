// Hex digits, lower case: one digit written and one read, as the sheet and the replay have them.
//
// Document 01, "The sheet and its calls", decides; specs/Hex.antt says it. The number that several digits spell is
// read in hex_number. Not modelled: upper case, which no text of this project has.
#![tactic(auto)]

ghost use Rattle.std.specs.Prelude.{◌≡◌, ◌%◌, ◌<◌, get_or};
ghost use Rattle.hex_digits.specs.Hex.{hex_digit, hex_value};

// The digit for the low four bits.
pub fn digit(x: u16) -> u8
    ensures { result ≡ hex_digit (x % 16) }
{
    b"0123456789abcdef"[(x % 16) as usize]
}

// The number that a digit stands for, 0 for any other byte.
#[tactic(auto, using(crate::proofs::Digits::values))]
pub fn nibble(b: u8) -> u16
    ensures { (result ≡ hex_value b) × (result < 16) }
{
    match b {
        b'0'..=b'9' => (b - b'0') as u16,
        b'a'..=b'f' => (b - b'a' + 10) as u16,
        _ => 0,
    }
}

// The byte at a place, 0 past the end.
pub fn byte(s: &[u8], i: usize) -> u8
    ensures { result ≡ get_or s.now i 0 }
{
    s.get(i).copied().unwrap_or(0)
}
