// A line of a sheet, written: the bytes of a key's line with a value, its LF too.
//
// Document 01, "The sheet and its calls", decides; a line is `line_text` of sheet's specs/Sheet.antt. Reader and writer
// share it: the reader compares a text with the line that it would have to be. Not modelled: as in sheet.
#![tactic(auto)]

ghost use Rattle.std.specs.Prelude.{◌≡◌, ◌≤◌, ◌<◌};
ghost use Rattle.sheet.specs.Sheet.{key_at, line_text};

use bounded_text::Text;

// The line of one of the five first keys.
// Stays: a key is its number here and above: lines are counted and stored by it, and 260 of the 265 are entries.
#[tactic(auto, using(crate::proofs::Texts::first_lines))]
fn first_line(k: u16, v: u16) -> Text<13>
    requires { k < 5 }
    ensures { result ≡ line_text (key_at k) v }
{
    let h = hex_digits::digit(v / 16);
    let l = hex_digits::digit(v);
    match k {
        0 => Text::first(*b"chip=153108\n\0", 12),
        1 => Text::first(
            [
                b'r', b'e', b'a', b'd', b'm', b'a', b's', b'k', b'=', h, l, b'\n', 0,
            ],
            12,
        ),
        2 => Text::first(
            [
                b'b', b'l', b'i', b'n', b'k', b'm', b'a', b's', b'k', b'=', h, l, b'\n',
            ],
            13,
        ),
        3 => Text::first(
            [
                b'o', b'v', b'e', b'r', b'l', b'a', b'y', b'=', h, l, b'\n', 0, 0,
            ],
            11,
        ),
        _ => Text::first(
            [
                b't', b'i', b'm', b'i', b'n', b'g', b'=', h, l, b'\n', 0, 0, 0,
            ],
            10,
        ),
    }
}

// The line of an entry.
#[tactic(auto, using(crate::proofs::Texts::entry_lines))]
fn entry_line(k: u16, v: u16) -> Text<13>
    requires { 5 ≤ k }
    ensures { result ≡ line_text (key_at k) v }
{
    let r = hex_digits::digit(v / 16 / 16);
    let g = hex_digits::digit(v / 16);
    let b = hex_digits::digit(v);
    if k < 9 {
        let e = hex_digits::digit(k - 5);
        return Text::first([b'o', e, b'=', r, g, b, b'\n', 0, 0, 0, 0, 0, 0], 7);
    }
    let d = hex_digits::digit((k - 9) / 16);
    let e = hex_digits::digit(k - 9);
    Text::first([b'c', d, e, b'=', r, g, b, b'\n', 0, 0, 0, 0, 0], 8)
}

// The line of a key with a value, its LF too.
pub fn written(k: u16, v: u16) -> Text<13>
    ensures { result ≡ line_text (key_at k) v }
{
    if k < 5 {
        first_line(k, v)
    } else {
        entry_line(k, v)
    }
}
