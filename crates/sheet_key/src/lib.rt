// One line of a sheet at its place: the key that it names, its value and where it ends; or it is bad.
//
// Document 01, "The sheet and its calls", decides; specs/Reader.antt says what a line's answer makes of the sheet. A
// line is read by the key that it names, so each line is read once. Not modelled: as in sheet_reader.
#![tactic(auto)]

ghost use Rattle.std.specs.Prelude.{◌≡◌, ◌≤◌, ◌<◌, length, IfSome};
ghost use Rattle.sheet.specs.Sheet.{keys};
ghost use Rattle.sheet_key.specs.Reader.{named, number_of, Right};

// What a line says: its key, its value and the place behind it.
#[derive(Clone, Copy)]
pub struct Found {
    pub key: u16,
    pub value: u16,
    pub next: usize,
}

// The key that a line names, where `due` is the least that may come.
#[tactic(auto, using(crate::proofs::Naming::names))]
fn key_of(t: &[u8], due: u16) -> Option<u16>
    ensures named { number_of result ≡ named t.now due }
    ensures one { IfSome result (λ k. k < keys) }
{
    if due < 5 {
        return Some(due);
    }
    let b = hex_digits::nibble(hex_digits::byte(t, 1));
    match hex_digits::byte(t, 0) {
        b'o' => Some(5 + b),
        b'c' => Some(9 + (b * 16 + hex_digits::nibble(hex_digits::byte(t, 2)))),
        _ => None,
    }
}

// The line at a place, where `due` is the least key that may come; none where it is bad.
pub fn line_at(text: &[u8], at: usize, due: u16) -> Option<Found>
    requires { (at < length text.now) × (due ≤ keys) }
    ensures { Right text.now at due result }
{
    let line = &text[at..];
    let key = key_of(line, due)?;
    if key < due {
        return None;
    }
    let value = sheet_line::line_of(line, key)?;
    Some(Found {
        key,
        value,
        next: at + sheet_line::line_len(key),
    })
}
