// The HD153108's data read (chip A): a byte of either table, and the pointer's step.
//
// Source document 003, Access to CLT/OLT, with document 01's rulings, decides; the rule is `stepped` of hd153108's
// specs/Hd153108.antt, and the byte the entry's at the pointer. Not modelled: as there.
#![tactic(auto)]

ghost use Rattle.std.specs.Prelude.{◌≡◌, ◌+◌, ◌*◌, ◌≤◌, ◌<◌, length, get_or};
ghost use Rattle.vocabulary.specs.Component.{component_at};
ghost use Rattle.hd153108.specs.Hd153108.{stepped as stepped_of, accept};

use hd153108::{Answer, State};
use hd153108_port::accepted;

// The pointer's move after a data read.
#[tactic(auto, using(hd153108::proofs::Access::places), unfolding(hd153108::specs::Hd153108::stepped))]
fn stepped(s: State, after: u8) -> State
    ensures { result ≡ stepped_of (component_at s.pointer) after s }
{
    match s.pointer {
        0 => State { pointer: 1, ..s },
        1 => State { pointer: 2, ..s },
        _ => State {
            address: after,
            pointer: 0,
            ..s
        },
    }
}

// A data read of either table.
pub fn data_read(s: State, t: &[u8], e: usize, after: u8) -> Answer
    requires { (3 * e + 3 ≤ length t.now) × (s.pointer < 3) }
    ensures { result
        ≡ accept (get_or t.now (3 * e + s.pointer) 0) (stepped_of (component_at s.pointer) after s) }
{
    let at = 3 * e + (s.pointer as usize);
    accepted(t[at], stepped(s, after))
}
