// The answer lines of a replay: a line's bytes, what an accepted call tells, the lines as definitions, and their laws.
//
// The replay's answer lines decide; specs/Answers.antt says each. No line has more than 14 bytes with its LF, so that
// a text of 16 holds each; in a contract a text is the list of its bytes. Digits are written in answers_digits, a line
// with a number in answers_line; answers_told chooses between a refusal and what a call tells. Not modelled: a sheet's
// 265 lines.
#![tactic(auto)]

ghost use Rattle.std.specs.Prelude.{◌≡◌, []};
ghost use Rattle.answers.specs.Answers.{ok_text, bad_text};

use vocabulary::Colour;

// A line's bytes.
pub type Text = bounded_text::Text<16>;

// What an accepted call tells.
#[derive(Clone, Copy)]
pub enum News {
    Done,
    Moved(u16),
    Value(u8),
    Look(u16),
    Shown(Colour),
    Sync(u8),
    Ten(u16),
}

// No answer yet.
pub fn empty() -> Text
    ensures { result ≡ [] }
{
    bounded_text::Text::new()
}

pub fn ok() -> Text
    ensures { result ≡ ok_text }
{
    bounded_text::Text::of(b"ok\n")
}

pub fn bad() -> Text
    ensures { result ≡ bad_text }
{
    bounded_text::Text::of(b"bad\n")
}
