// What the vectors print: the line's label from a place on, and an answer.
use ms622424_places::{Answer, State};
use std::io;
use std::io::Write;
use vocabulary::{Looked, Shown};

// Where the label of a line with an answer starts, where a line is printed.
fn label_at(command: u8) -> Option<usize> {
    match command {
        b'v' | b'i' => None,
        b'w' => Some(8),
        b'b' => Some(11),
        b'z' => Some(2),
        _ => Some(5),
    }
}

fn values<W: Write>(out: &mut W, refusal: u8, value: u8, count: u16) -> io::Result<()> {
    script::fields(out, b": refusal # value %", &[refusal, value])?;
    script::number(out, b" count ", u64::from(count))
}

fn places<W: Write>(out: &mut W, s: State) -> io::Result<()> {
    script::number(out, b", address ", u64::from(s.port.address))?;
    script::fields(
        out,
        b" counter # first # waiting #\n",
        &[s.port.counter, s.fifo.first, s.fifo.waiting],
    )
}

// An answer, and the state that it left.
pub fn answer<W: Write>(out: &mut W, line: &[u8], a: Answer) -> io::Result<State> {
    if let Some(at) = label_at(script::command(line)) {
        script::rest(out, line, at)?;
        values(out, a.refusal, a.value, a.count)?;
        places(out, a.state)?;
    }
    Ok(a.state)
}

pub fn colour<W: Write>(out: &mut W, line: &[u8], p: Shown) -> io::Result<()> {
    script::rest(out, line, 14)?;
    script::fields(
        out,
        b": refusal # colour % % %\n",
        &[p.refusal, p.red, p.green, p.blue],
    )
}

pub fn looked<W: Write>(out: &mut W, line: &[u8], l: Looked) -> io::Result<()> {
    script::rest(out, line, 11)?;
    script::number(out, b": refusal ", u64::from(l.refusal))?;
    script::hex(out, b" value ", u64::from(l.value), 4)?;
    script::line_end(out)
}
