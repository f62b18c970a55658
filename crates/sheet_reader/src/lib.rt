// The reader of a sheet, line by line.
//
// Document 01, "The sheet and its calls", decides; specs/Sheet.antt of crate sheet says what a sheet is, and `read`
// equals it. One line's answer is sheet_key's; a bad line leaves at once with its number. Any number of bytes may come
// in. Not modelled: files, and lines that end in CR.
#![tactic(auto)]

ghost use Rattle.std.specs.Prelude.{◌≡◌};
ghost use Rattle.sheet.specs.Sheet.{sheet_of};
ghost use Rattle.sheet.specs.Kept.{reading_of};

use sheet_key::Found;

// A sheet, of any text: each key's value, where its line is there; or the number of the first bad or missing line.
#[tactic(auto, using(crate::proofs::Kept::ends_good, crate::proofs::Kept::ends_bad))]
pub fn read(text: &[u8]) -> Result<[Option<u16>; 265], u16>
    ensures { reading_of result ≡ sheet_of text.now }
{
    let mut kept = [None; 265];
    let mut due: u16 = 0;
    let mut n: u16 = 1;
    let mut at: usize = 0;
    // Stays: a while, since the place moves on by a line's length and no index is counted.
    while at < text.len() {
        let Some(Found { key, value, next }) = sheet_key::line_at(text, at, due) else {
            return Err(n);
        };
        kept[key as usize] = Some(value);
        at = next;
        due = key + 1;
        n += 1;
    }
    if due < 5 {
        return Err(n);
    }
    Ok(kept)
}
