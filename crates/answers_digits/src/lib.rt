// Digits behind an answer's text: hex digits, a decimal number.
//
// The replay's answer lines decide; `hex` of hex_digits' specs/Hex.antt and `decimal` of answers' specs/Answers.antt
// say what is written, where a text has room. Not modelled: a number over 16 bits.
#![tactic(auto)]

ghost use Rattle.std.specs.Prelude.{◌≡◌, ◌≤◌, ◌++◌, ◌+◌, ◌%◌, length};
ghost use Rattle.hex_digits.specs.Hex.{hex as hex_text};
ghost use Rattle.answers.specs.Answers.{decimal as decimal_text};

use answers::Text;

// The decimal digit of the units.
fn unit(n: u16) -> u8
    ensures { result ≡ 48 + n % 10 }
{
    48 + (n % 10) as u8
}

// So many hex digits behind a text.
#[tactic(auto, using(answers::proofs::Digits::hex_steps))]
pub fn hex(t: &mut Text, width: usize, v: u16)
    ensures { length t.old + length (hex_text width v) ≤ 16 → t.new ≡ t.old ++ hex_text width v }
{
    if width == 0 {
        return;
    }
    hex(t, width - 1, v / 16);
    t.push(hex_digits::digit(v));
}

// A decimal number of at most so many digits behind a text.
#[tactic(auto, using(answers::proofs::Digits::decimal_steps))]
pub fn decimal(t: &mut Text, most: usize, n: u16)
    ensures { length t.old + length (decimal_text most n) ≤ 16 → t.new ≡ t.old ++ decimal_text most n }
{
    if most == 0 {
        return;
    }
    if 10 <= n {
        decimal(t, most - 1, n / 10);
    }
    t.push(unit(n));
}
