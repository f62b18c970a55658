// Prints document 01's vectors of chip C, the smallest example of each of its rulings, and looks: a label, then the
// answers.
//
// stdin is the list of calls, and stdout was worked out by hand from document 01, source document 001 and request P5.
// An answer is the refusal and the value in hex. A line of stdin is a letter, numbers of two, four (*) or eight (**)
// hex digits, each behind a space, and a label where something is printed below it:
//   # a label alone
//   t the lent table: 4i + 1 at its place i, so that entry e reads as 3e, 3e + 1 and 3e + 2 modulo 256, and most of its
//     numbers are beyond 1,023
//   n how many of its numbers are lent from here on*
//   s the state: index*, place, register 0x000E, fetched red*, green* and blue*; its latches are 5 and 6
//   w write: port, byte; r read: port; z reset: an answer behind those of the same line
//   . the end of a line of answers
//   e an entry of the table*                     i the index and the place
//   f the fetched entry                          l the latches and register 0x000E
//   ? look: place**
#![tactic(auto)]

mod print;

use print::answer;
use rgb640::{Answer, Colour, State};
use std::io;
use std::io::Write;

// The chip's state, the table, and how many of its numbers are lent.
#[derive(Drop)]
struct Bench {
    state: State,
    table: [u16; 3072],
    size: usize,
}

fn given(line: &[u8]) -> State {
    State {
        index: script::word(line, 2),
        red: 5,
        green: 6,
        fetched: Colour {
            red: script::word(line, 13),
            green: script::word(line, 18),
            blue: script::word(line, 23),
        },
        place: script::byte(line, 7),
        update: script::byte(line, 10),
    }
}

// A line that shows a part of the state.
fn show<W: Write>(out: &mut W, s: State, command: u8) -> io::Result<()> {
    match command {
        b'i' => print::place(out, s.index, s.place),
        b'f' => print::three(out, s.fetched.red, s.fetched.green, s.fetched.blue),
        b'l' => print::latches(out, s.red, s.green, s.update),
        _ => Ok(()),
    }
}

fn access(s: State, line: &[u8], table: &mut [u16]) -> Answer {
    let port = script::byte(line, 2);
    if script::command(line) == b'w' {
        return rgb640_write::zk_c_write(s, port, script::byte(line, 5), table);
    }
    rgb640_read::zk_c_read(s, port, table)
}

impl Bench {
    fn fill(&mut self) {
        for (i, number) in self.table.iter_mut().enumerate() {
            *number = (i * 4 + 1) as u16;
        }
    }

    // A line that asks nothing of the table.
    fn alone<W: Write>(&mut self, out: &mut W, line: &[u8]) -> io::Result<()> {
        let command = script::command(line);
        match command {
            b'n' => self.size = usize::from(script::word(line, 2)),
            b's' => self.state = given(line),
            b'z' => self.state = answer(out, rgb640_reset::zk_c_reset(self.state))?,
            b'.' => script::line_end(out)?,
            _ => {
                script::label(out, line, 2)?;
                show(out, self.state, command)?;
            }
        }
        Ok(())
    }

    // An access of what is lent: so many numbers of the table.
    fn lent<W: Write>(&mut self, out: &mut W, line: &[u8]) -> io::Result<()> {
        if let Some(table) = self.table.get_mut(..self.size) {
            self.state = answer(out, access(self.state, line, table))?;
        }
        Ok(())
    }

    fn turn<W: Write>(&mut self, out: &mut W, line: &[u8]) -> io::Result<()> {
        match script::command(line) {
            b't' => self.fill(),
            b'e' => print::entry(out, line, &self.table)?,
            b'?' => {
                let seen = rgb640_look::zk_c_look(self.state, script::long(line, 2), &self.table);
                print::look(out, line, seen)?;
            }
            b'w' | b'r' => self.lent(out, line)?,
            _ => self.alone(out, line)?,
        }
        Ok(())
    }
}

fn main(rt: HostRuntime) -> io::Result<()> {
    let mut text = [0u8; 4096];
    let n = script::read_full(&mut rt.stdin(), &mut text)?;
    let mut bench = Bench {
        state: given(b""),
        table: [0; 3072],
        size: 3072,
    };
    let mut out = rt.stdout();
    for line in text[..n].split_inclusive(|b| *b == b'\n') {
        bench.turn(&mut out, script::line(line))?;
    }
    Ok(())
}
