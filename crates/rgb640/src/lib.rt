// Chip C, the palette port of the RGB640: ports 4, 5 and 6 over a lent table of 1,024 colours of ten bits. Its types,
// its definitions and their laws.
//
// Source document 001, sections 9.1, 9.3, 9.4.1, 9.6 and 10.15 with Tables 22 to 26, 29 and 30, and document 01, "Chip
// C", decide; specs/Rgb640.antt says it. The calls are in rgb640_write, rgb640_read, rgb640_reset and rgb640_look, what
// both accesses use is in rgb640_port, _range, _next and _fetch, and theorem_read_back shows that what is written reads
// back. The laws: which index lies in which space (proofs/Index.antt), what a transfer of an order does (Order), a
// chip in range stays in range (InRange), which refusal an access meets (Access), what each write does (Effects), what
// the calls keep (Keeps), what each place of a look tells (Look). Not modelled: ports 0 to 3 and 7, the window tables,
// cursor, YUV and the sequences of four and six transfers, the other registers, analogue output, clocks and bus timing.
#![tactic(auto)]

// A colour of ten bits a component.
#[repr(C)]
#[derive(Clone, Copy)]
pub struct Colour {
    pub red: u16,
    pub green: u16,
    pub blue: u16,
}

// The index, the latches, the fetched entry, the place in the order (0 red, 1 green, 2 blue) and register 0x000E.
// Stays: place and refusal are numbers, since C has these structs; one answer for all chips can't go to C.
#[repr(C)]
#[derive(Clone, Copy)]
pub struct State {
    pub index: u16,
    pub red: u16,
    pub green: u16,
    pub fetched: Colour,
    pub place: u8,
    pub update: u8,
}

// What a call answers: the refusal (0 for none), the byte read, and the state afterwards.
#[repr(C)]
#[derive(Clone, Copy)]
pub struct Answer {
    pub refusal: u8,
    pub value: u8,
    pub state: State,
}
