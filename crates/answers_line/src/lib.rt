// The line of what an accepted call tells, and of a refusal.
//
// The replay's answer lines decide; `news_text` and `refused_text` of answers' specs/Answers.antt say each, and the two
// calls equal them for any number that the types hold. Not modelled: a sheet's 265 lines.
#![tactic(auto)]

ghost use Rattle.std.specs.Prelude.{◌≡◌, [], ◌∷◌, ◌++◌, ◌+◌, ◌<◌, length};
ghost use Rattle.hex_digits.specs.Hex.{hex as hex_text};
ghost use Rattle.answers.specs.Answers.{decimal as decimal_text, colour_text, refused_text, news_text};

use answers::{News, Text};
use answers_digits::{decimal, hex};
use vocabulary::Colour;

// A name, a decimal number of at most so many digits, and LF.
#[tactic(auto, using(answers::proofs::Digits::line_steps))]
fn count(name: &[u8], most: usize, n: u16) -> Text
    requires { length name.now + most < 16 }
    ensures { result ≡ name.now ++ (decimal_text most n ++ 10 ∷ []) }
{
    let mut t = bounded_text::Text::of(name);
    decimal(&mut t, most, n);
    t.push(b'\n');
    t
}

// A name, so many hex digits, and LF.
#[tactic(auto, using(answers::proofs::Digits::line_steps))]
fn field(name: &[u8], width: usize, v: u16) -> Text
    requires { length name.now + width < 16 }
    ensures { result ≡ name.now ++ (hex_text width v ++ 10 ∷ []) }
{
    let mut t = bounded_text::Text::of(name);
    hex(&mut t, width, v);
    t.push(b'\n');
    t
}

#[tactic(auto, using(answers::proofs::Digits::line_steps))]
fn colour(c: Colour) -> Text
    ensures { result ≡ colour_text c.red c.green c.blue }
{
    let mut t = bounded_text::Text::of(b"colour=");
    hex(&mut t, 2, u16::from(c.red));
    hex(&mut t, 2, u16::from(c.green));
    hex(&mut t, 2, u16::from(c.blue));
    t.push(b'\n');
    t
}

// Stays: no `impl Display`; this line can't fail, and `write!` says what it wrote only where it answers Ok.
// The line of what an accepted call tells.
pub fn line(news: News) -> Text
    ensures { result ≡ news_text news }
{
    match news {
        News::Done => answers::ok(),
        News::Moved(n) => count(b"moved=", 5, n),
        News::Value(v) => field(b"value=", 2, u16::from(v)),
        News::Look(v) => field(b"look=", 4, v),
        News::Shown(c) => colour(c),
        News::Sync(s) => field(b"sync=", 1, u16::from(s)),
        News::Ten(t) => field(b"ten=", 3, t),
    }
}

pub fn refused(n: u8) -> Text
    ensures { result ≡ refused_text n }
{
    count(b"refused=", 3, u16::from(n))
}
