// What the vectors print: a label, then answers as refusal/value, an index with the place in the order, or a colour.
use rgb640::{Answer, State};
use std::io;
use std::io::Write;
use vocabulary::Looked;

fn decimal<W: Write>(out: &mut W, n: u16) -> io::Result<()> {
    script::number(out, b" ", u64::from(n))
}

// A colour.
pub fn three<W: Write>(out: &mut W, a: u16, b: u16, c: u16) -> io::Result<()> {
    decimal(out, a)?;
    decimal(out, b)?;
    decimal(out, c)?;
    script::line_end(out)
}

// A call's answer, and the state that it left.
pub fn answer<W: Write>(out: &mut W, a: Answer) -> io::Result<State> {
    script::fields(out, b" #/%", &[a.refusal, a.value])?;
    Ok(a.state)
}

// The index and the place.
pub fn place<W: Write>(out: &mut W, index: u16, place: u8) -> io::Result<()> {
    script::hex(out, b" ", u64::from(index), 4)?;
    decimal(out, u16::from(place))?;
    script::line_end(out)
}

// The latches and register 0x000E.
pub fn latches<W: Write>(out: &mut W, red: u16, green: u16, update: u8) -> io::Result<()> {
    decimal(out, red)?;
    decimal(out, green)?;
    script::hex(out, b" ", u64::from(update), 2)?;
    script::line_end(out)
}

// An entry of the table, as it stands.
pub fn entry<W: Write>(out: &mut W, line: &[u8], t: &[u16; 3072]) -> io::Result<()> {
    script::label(out, line, 7)?;
    let at = 3 * usize::from(script::word(line, 2));
    match t.get(at..at + 3) {
        Some([a, b, c]) => three(out, *a, *b, *c),
        _ => Ok(()),
    }
}

// A look's refusal and number, behind its label.
pub fn look<W: Write>(out: &mut W, line: &[u8], l: Looked) -> io::Result<()> {
    script::rest(out, line, 11)?;
    script::number(out, b" ", u64::from(l.refusal))?;
    script::hex(out, b"/", u64::from(l.value), 4)?;
    script::line_end(out)
}
