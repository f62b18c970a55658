// A log's text heard up to its first LF: its bytes are held, and what they say at the line's end.
//
// The replay's description decides; `Hears` of hold's specs/Hold.antt says what is heard, for any text, room and
// count. Not modelled: as in hold.
#![tactic(auto)]

ghost use Rattle.std.specs.Prelude.{◌≡◌, take as first_of};
ghost use Rattle.port_log.specs.Log.{line_of};
ghost use Rattle.hold.specs.Hold.{hold as held, Hears};

use hold::Heard;
use port_log::Line;

// What the held bytes say.
#[tactic(auto, using(std::proofs::lemmas::List::take_min))]
fn said(hold: &[u8], len: usize) -> Line
    ensures { result ≡ line_of (first_of len hold.now) }
{
    log_parse::parse(&hold[..len.min(hold.len())])
}

// A text heard up to its first LF, or all of it.
pub fn hear(text: &[u8], hold: &mut [u8], len: usize) -> Heard
    ensures { Hears result text.now (held hold.old len) hold.new }
{
    let s = hold::scan(text, hold, len);
    let line = said(hold, s.len);
    if s.before < text.len() {
        return Heard {
            line,
            ends: true,
            len: 0,
            taken: s.before + 1,
        };
    }
    Heard {
        line,
        ends: false,
        len: s.len,
        taken: s.before,
    }
}
