// A line of a port log: what it may ask for, and its forms. No code.
//
// The replay's line forms decide; specs/Log.antt says each as a pattern. A line is given without its LF. The forms are
// read in log_board (the board's own lines, and a look), log_chips (calls that one chip has) and log_parse (all). Which
// chip a call goes to, and whether it is for that chip, is the board's to say.
#![tactic(auto)]

// The chip that a line chooses.
#[derive(Clone, Copy)]
pub enum Chip {
    ChipA,
    ChipB,
    ChipC,
}

// A call that chip A alone has.
#[derive(Clone, Copy)]
pub enum CallA {
    Tick,
    Pixel(u8, u8, u8),
}

// A call that chip B alone has.
#[derive(Clone, Copy)]
pub enum CallB {
    Pixel(u8, u32),
    Blank(u32),
    Sync(u8),
}

// A call on the chip chosen last.
#[derive(Clone, Copy)]
pub enum Call {
    Write(u8, u8),
    Read(u8),
    Reset,
    Look(u32),
    OfA(CallA),
    OfB(CallB),
}

// What a line asks for.
#[derive(Clone, Copy)]
pub enum Line {
    To(Call),
    Choose(Chip),
    Expand(u8, u16),
    Sheet,
    Bad,
}
