// The HD153108 (chip A): what its calls share. The answers, and the address after blue. The ranges that every call
// tries first stand in hd153108_range.
//
// Source document 003, with document 01's rulings, decides; hd153108's specs/Hd153108.antt says it. Not modelled: as
// there.
#![tactic(auto)]

ghost use Rattle.std.specs.Prelude.{◌≡◌};
ghost use Rattle.vocabulary.specs.Refusal.{number};
ghost use Rattle.hd153108.specs.Hd153108.{colour, overlay, next, refuse, accept};

use hd153108::{Answer, State};
use vocabulary::Refusal;

// A refusal: the state as given, value 0.
// Stays: each chip's Answer is a C struct of its own, and a generic one can't be exported, so none is shared.
pub fn refused(n: u8, s: State) -> Answer
    ensures { result ≡ refuse n s }
{
    Answer {
        refusal: n,
        value: 0,
        state: s,
    }
}

// The same, for one of the nine refusals.
pub fn refused_for(r: Refusal, s: State) -> Answer
    ensures { result ≡ refuse (number r) s }
{
    refused(u8::from(r), s)
}

// An accepted call: what it answers, and the state after it.
pub fn accepted(v: u8, s: State) -> Answer
    ensures { result ≡ accept v s }
{
    Answer {
        refusal: 0,
        value: v,
        state: s,
    }
}

// The address after an access to blue.
// Stays: 256, the number of colours, is no byte, so one function for both numbers needs wider sums and casts.
pub fn next_colour(address: u8) -> u8
    ensures { result ≡ next colour address }
{
    address.wrapping_add(1)
}

pub fn next_overlay(address: u8) -> u8
    ensures { result ≡ next overlay address }
{
    let low = address % 4;
    address - low + (low + 1) % 4
}
