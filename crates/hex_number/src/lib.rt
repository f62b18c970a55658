// The number that hex digits spell, from a place of a text on: of 32, 16 or 8 bits.
//
// The replay's description and document 01, "The sheet and its calls", decide what a digit is; the definition is
// `number` of hex_digits's specs/Hex.antt. A byte that is no digit counts as 0, and so does a place past the end. Not
// modelled: numbers of more than eight digits.
#![tactic(auto)]

ghost use Rattle.std.specs.Prelude.{◌≡◌, ◌<◌, ◌≤◌};
ghost use Rattle.hex_digits.specs.Hex.{number};

// Of so many digits.
#[tactic(auto, using(hex_digits::proofs::Number::digit_by_digit))]
pub fn spelt(t: &[u8], i: usize, width: usize) -> u32
    requires { (i < 16) × (width ≤ 8) }
    ensures { result ≡ number width i t.now }
{
    let mut v: u32 = 0;
    for w in 0..width {
        v = v * 16 + hex_digits::nibble(hex_digits::byte(t, i + w)) as u32;
    }
    v
}

// Of at most four.
// Stays: of the three only this cast and the next differ; one generic function would take a trait of three impls.
pub fn spelt_word(t: &[u8], i: usize, width: usize) -> u16
    requires { (i < 16) × (width ≤ 4) }
    ensures { result ≡ number width i t.now }
{
    spelt(t, i, width) as u16
}

// Of one or two.
pub fn spelt_byte(t: &[u8], i: usize, width: usize) -> u8
    requires { (i < 16) × (width ≤ 2) }
    ensures { result ≡ number width i t.now }
{
    spelt(t, i, width) as u8
}
