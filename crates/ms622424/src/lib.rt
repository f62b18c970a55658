// The MS622424, 8,192 colours behind a queue of 64 waiting writes: the parts of its state, its definitions and their
// laws.
//
// Source document 004 and document 01, "Chip B", decide; specs/Ms622424.antt says it, in 004's order, of the chip as
// 004 describes it: registers, the waiting colours, the colour map. How a caller keeps a chip is said apart, in
// ms622424_places. Above stand what the calls share, ms622424_port and _range, the lent places, ms622424_queue,
// _queue_range, _gather, _store and _transfer, the parts of a write (ms622424_room, _take, _palette, _set), of
// a read (ms622424_status, _map_read, _registers) and of a pixel (ms622424_entry), and a crate for each call. Not
// modelled: clocks, bus timing and the pipeline; the output that is held while the processor has the map.
#![tactic(auto)]

// What data accesses move: the address, the RGB counter, and the Color Buffer Register.
// Stays: numbers for the counter, read mode and an answer's refusal, since C programs keep these structs.
#[repr(C)]
#[derive(Clone, Copy)]
pub struct Port {
    pub address: u16,
    pub counter: u8,
    pub red: u8,
    pub green: u8,
}

// The Command Register, and read mode.
#[repr(C)]
#[derive(Clone, Copy)]
pub struct Control {
    pub command: u8,
    pub readmode: u8,
}

// The Revision Register's two numbers.
#[repr(C)]
#[derive(Clone, Copy)]
pub struct Ident {
    pub revision: u8,
    pub board: u8,
}
