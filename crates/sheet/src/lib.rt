// A sheet of chip A: its definitions and the laws of its grammar, and what a call on a buffer answers.
//
// Document 01, "The sheet and its calls", decides; specs/Sheet.antt says it all: the grammar, the writer, what an
// answer says; specs/Grammar.antt says which texts are sheets, and that the grammar reads just those. One line is
// written in sheet_text and read in sheet_line, the whole sheet in sheet_writer and sheet_reader; the call list is in
// calls. Keys are numbered from 0 in the sheet's order: the five first lines, o0 to o3, c00 to cff. Not modelled: any
// other chip's sheet.
#![tactic(auto)]

ghost use Rattle.std.specs.Prelude.{◌≡◌};
ghost use Rattle.sheet.specs.Sheet.{Tells, TellsBy, refused_for};

use vocabulary::Refusal;

// Why a call on a buffer is refused, and the line that it tells: a malformed sheet's bad line, 0 of any other refusal.
#[derive(Clone, Copy, PartialEq, Eq, Debug)]
pub struct Refused {
    pub refusal: Refusal,
    pub line: u16,
}

impl From<Refusal> for Refused {
    ghost from_gives = { λ r e. e ≡ refused_for r };

    fn from(refusal: Refusal) -> Refused {
        Refused { refusal, line: 0 }
    }
}

// What a call on a buffer answers: how much it wrote, or why it is refused.
pub type Answer = Result<u16, Refused>;

// A refusal by its number, which may be any, and the line that it tells.
#[derive(Clone, Copy, PartialEq, Eq, Debug)]
pub struct RefusedBy {
    pub number: u8,
    pub line: u16,
}

// The number that tells C how much was written, or a refusal by any number.
pub fn told(a: Result<u16, RefusedBy>) -> u64
    ensures { TellsBy result a }
{
    match a {
        Ok(count) => reply::packed(0, 0, count, 0),
        Err(e) => reply::packed(e.number, 0, 0, e.line),
    }
}

// The number that tells C an answer.
pub fn told_answer(a: Answer) -> u64
    ensures { Tells result a }
{
    match a {
        Ok(count) => told(Ok(count)),
        Err(e) => told(Err(RefusedBy {
            number: u8::from(e.refusal),
            line: e.line,
        })),
    }
}
