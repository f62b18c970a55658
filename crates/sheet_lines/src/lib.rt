// The lines of a sheet into a buffer: all 265, in the order of their keys.
//
// Document 01, "The sheet and its calls", decides; the text is `text_of` of sheet's specs/Sheet.antt. Bytes past it
// keep their values. Not modelled: as in sheet_writer.
#![tactic(auto)]

ghost use Rattle.std.specs.Prelude.{◌≡◌, ◌+◌, ◌≤◌, length};
ghost use Rattle.hd153108.specs.Hd153108.{chip};
ghost use Rattle.sheet.specs.Sheet.{key_at, line_text, text_of, pasted, Wrote};
ghost use Rattle.sheet_written.specs.Writer.{Writable};

use hd153108::State;

// A word into a buffer from a place on.
fn put(out: &mut [u8], at: usize, word: &[u8]) -> usize
    requires { at + length word.now ≤ length out.old }
    ensures { Wrote out.old at word.now result out.new }
{
    let end = at + word.len();
    out[at..end].copy_from_slice(word);
    end
}

// A key's line into a buffer from a place on.
fn put_line(out: &mut [u8], at: usize, k: u16, v: u16) -> usize
    requires { at + length (line_text (key_at k) v) ≤ length out.old }
    ensures { Wrote out.old at (line_text (key_at k) v) result out.new }
{
    let line = sheet_text::written(k, v);
    put(out, at, line.as_slice())
}

// All lines, in the order of their keys.
#[tactic(auto, using(crate::proofs::Turn::last_line))]
pub fn write_lines(s: State, colours: &[u8], overlays: &[u8], out: &mut [u8])
    requires { Writable (chip s colours.now overlays.now) × (2134 ≤ length out.old) }
    ensures { out.new
        ≡ pasted out.old 0 (text_of (chip s colours.now overlays.now)) }
{
    let mut at: usize = 0;
    for k in 0..265 {
        let v = sheet_values::value(s, colours, overlays, k);
        at = put_line(out, at, k, v);
    }
}
