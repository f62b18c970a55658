// The MS622424: what its calls share. The answers, and the step of a palette access. The ranges that every call tries
// first stand in ms622424_range.
//
// Source document 004 and document 01, "Chip B", decide; ms622424's specs/Ms622424.antt says it. Not modelled: as
// there.
#![tactic(auto)]

ghost use Rattle.std.specs.Prelude.{◌≡◌};
ghost use Rattle.vocabulary.specs.Refusal.{number};
ghost use Rattle.ms622424.specs.Ms622424.{selected, stepped};
ghost use Rattle.ms622424_places.specs.Places.{accept, refuse};

use ms622424::Port;
use ms622424_places::{Answer, State};
use vocabulary::Refusal;

// A refusal: the state as given, value and count 0.
pub fn refused(refusal: u8, s: State) -> Answer
    ensures { result ≡ refuse refusal s }
{
    Answer {
        refusal,
        value: 0,
        count: 0,
        state: s,
    }
}

// The same, for one of the nine refusals.
pub fn refused_for(r: Refusal, s: State) -> Answer
    ensures { result ≡ refuse (number r) s }
{
    refused(u8::from(r), s)
}

// An accepted call: what it answers, and the state after it.
pub fn accepted(value: u8, count: u8, s: State) -> Answer
    ensures { result ≡ accept value count s }
{
    Answer {
        refusal: 0,
        value,
        count: count as u16,
        state: s,
    }
}

// A palette access moves the counter, and after blue the address.
pub fn step(p: Port) -> Port
    ensures { result ≡ stepped (selected p) p }
{
    match p.counter {
        0 => Port { counter: 1, ..p },
        1 => Port { counter: 2, ..p },
        _ => Port {
            address: (p.address % 8192 + 1) % 8192,
            counter: 0,
            ..p
        },
    }
}
