// The bytes of a log's line while it is being read: they are held in lent room.
//
// The replay's description decides: LF ends a line, and a line of another shape than the forms is bad, of any length.
// specs/Hold.antt says what is held (`held_of`), and `scan` equals it for any text, room and count. What the held
// bytes say is in hold_hear. Not modelled: where the bytes come from, and what a line's call does, which is the
// board's.
#![tactic(auto)]

ghost use Rattle.std.specs.Prelude.{◌≡◌, ◌==◌, position};
ghost use Rattle.hold.specs.Hold.{hold as held, holding, before, held_of};

use port_log::Line;

// How many bytes stand before the first LF, and how many are held then.
#[derive(Clone, Copy)]
pub struct Span {
    pub before: usize,
    pub len: usize,
}

// What the held bytes say, whether they are a whole line, how many are held on, and how many of the text were taken.
// Stays: `Hears` promises the line where none ended too, so `ends` is not whether there is a line.
#[derive(Clone, Copy)]
pub struct Heard {
    pub line: Line,
    pub ends: bool,
    pub len: usize,
    pub taken: usize,
}

// A byte that ends no line is held while there is room: how many are held then.
// Stays: the room is lent for a call and the count comes back by value; a struct would be made and undone in each.
#[tactic(auto, using(crate::proofs::Holds::holds_room, crate::proofs::Holds::holds_full))]
fn hold_byte(b: u8, hold: &mut [u8], len: usize) -> usize
    ensures { held hold.new result ≡ holding b (held hold.old len) }
{
    if len < hold.len() {
        hold[len] = b;
        return len + 1;
    }
    len
}

// The place of the first LF.
fn first_lf(text: &[u8]) -> Option<usize>
    ensures { result ≡ position (λ b. b == 10) text.now }
{
    text.iter().position(|b| *b == b'\n')
}

// The bytes before the first LF are held while there is room.
#[tactic(auto, using(crate::proofs::Texts::scans))]
pub fn scan(text: &[u8], hold: &mut [u8], len: usize) -> Span
    ensures { (result.before ≡ before text.now)
        × (held hold.new result.len ≡ held_of text.now (held hold.old len)) }
{
    let before = first_lf(text).unwrap_or(text.len());
    let mut n = len;
    for b in &text[..before] {
        n = hold_byte(*b, hold, n);
    }
    Span { before, len: n }
}
