// How a caller keeps an MS622424: a state by value, 64 lent places for the queue and the lent colour map.
//
// specs/Places.antt is the one file that says which chip they are, and what a call promises of them; document 01,
// "Chip B", and document 02, P7, decide. The places are a ring, one number an entry: the oldest is at the first
// position, and what unused places hold is nobody's concern. Not modelled: as in ms622424.
#![tactic(auto)]

use ms622424::{Control, Ident, Port};

// The lent queue's places, and the lent map's bytes.
pub type Queue = [u64; 64];

pub type Map = [u8; 24576];

// Which place of the lent queue is first, and how many entries wait from there on.
#[repr(C)]
#[derive(Clone, Copy)]
pub struct Fifo {
    pub first: u8,
    pub waiting: u8,
}

// The registers, and how the lent queue stands.
#[repr(C)]
#[derive(Clone, Copy)]
pub struct State {
    pub port: Port,
    pub control: Control,
    pub ident: Ident,
    pub fifo: Fifo,
}

// What a call answers, with the state after it: the refusal, 0 for none, the value read, the entries moved.
#[repr(C)]
#[derive(Clone, Copy)]
pub struct Answer {
    pub refusal: u8,
    pub value: u8,
    pub count: u16,
    pub state: State,
}

// What transfers leave: how many entries they moved, and the state.
// Stays: a struct of its own, since a pair without names says less, and an Answer has parts that no transfer gives.
#[derive(Clone, Copy)]
pub struct Moved {
    pub count: u8,
    pub state: State,
}
