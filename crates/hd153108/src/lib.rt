// The HD153108 (chip A): a colour palette of 256 colours and 4 overlays. Its types, its definitions and their laws.
//
// Source document 003 decides (Functional Description, Tables 1.1 to 5.2), with document 01, "Chip A", where it rules,
// and document 02's requests P3 and P5; specs/Hd153108.antt says it all, and each call equals a definition there;
// specs/Captions.antt states what P3 asks for. The caller owns the state and both tables: a state goes in by value and
// comes back, and the tables, 768 and 12 bytes, are lent for the call.
// The calls are in hd153108_write, hd153108_read, hd153108_reset, hd153108_tick (blink step, tick), hd153108_pixel,
// hd153108_pixel_refusal, hd153108_pixel_c and hd153108_look, and what they share is in hd153108_port and
// hd153108_range. Not modelled: analogue output, clocks, pipeline delay, bus timing, blanking.
#![tactic(auto)]

// The blink clock: the Blink Timing Register, and the ticks passed in its period.
#[repr(C)]
#[derive(Clone, Copy)]
pub struct Clock {
    pub timing: u8,
    pub position: u8,
}

// The Address Register and the R.G.B pointer, latched red and green, the registers.
// Stays: C hands in a state of any bytes, and refusal 9 answers it, so its ranges can't be the type's own.
#[repr(C)]
#[derive(Clone, Copy)]
pub struct State {
    pub address: u8,
    pub pointer: u8,
    pub red: u8,
    pub green: u8,
    pub readmask: u8,
    pub blinkmask: u8,
    pub control: u8,
    pub clock: Clock,
}

// What a call answers: refusal (0 for none), value, and the state after it.
// Stays: the C interface; C reads the refusal's number beside the value and the state.
#[repr(C)]
#[derive(Clone, Copy)]
pub struct Answer {
    pub refusal: u8,
    pub value: u8,
    pub state: State,
}
