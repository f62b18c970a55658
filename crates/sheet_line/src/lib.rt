// A line of a sheet, read: whether a key's line stands at the start of a text, and with which value.
//
// Document 01, "The sheet and its calls", decides; the answer is `line_of` of sheet's specs/Sheet.antt. The bytes where
// the key's digits stand are read as a number, and the line is there where the text starts with that number's line. Not
// modelled: as in sheet.
#![tactic(auto)]

ghost use Rattle.std.specs.Prelude.{◌≡◌, ◌+◌, ◌<◌, length};
ghost use Rattle.sheet.specs.Sheet.{key_at, front, width, line_of};

// How many bytes stand before a key's digits.
#[tactic(auto, using(crate::proofs::Lines::fronts))]
fn front_len(k: u16) -> usize
    ensures { (result ≡ length (front (key_at k))) × (result < 12) }
{
    match k {
        0 => 11,
        1 => 9,
        2 => 10,
        3 => 8,
        4 => 7,
        5..=8 => 3,
        _ => 4,
    }
}

// How many digits a key has.
#[tactic(auto, using(crate::proofs::Lines::widths))]
fn digit_count(k: u16) -> usize
    ensures { (result ≡ width (key_at k)) × (result < 4) }
{
    match k {
        0 => 0,
        1..=4 => 2,
        _ => 3,
    }
}

// How many bytes a key's line has.
pub fn line_len(k: u16) -> usize
    ensures { (result ≡ length (front (key_at k)) + width (key_at k) + 1) × (result < 16) }
{
    front_len(k) + digit_count(k) + 1
}

// A key's line at the start of a text.
#[tactic(auto, using(crate::proofs::Lines::lines))]
pub fn line_of(t: &[u8], k: u16) -> Option<u16>
    ensures { result ≡ line_of (key_at k) t.now }
{
    let v = hex_number::spelt_word(t, front_len(k), digit_count(k));
    let line = sheet_text::written(k, v);
    if sheet_fits::begins(t, line.as_slice()) && sheet_fits::takes(k, v) {
        Some(v)
    } else {
        None
    }
}
