// The HD153108's vectors: document 01, "Both sides of each edge", and each ruling's smallest example; then looks.
//
// stdin is the list of calls, and stdout was worked out by hand from source document 003, document 01 and request P5,
// before the first run. A line of stdin is a letter and bytes of two hex digits, each behind a space:
//   # a label
//   s the state: address, pointer, latched red and green, read mask, blink mask, overlay control, timing, position
//   w write: select, byte                        x the same, with the tables lent in each other's place
//   r read: select                               p pixel: overlay enable, overlay number, byte
//   z reset                                      t tick
//   ? look: place, four digits
//   c colour, o overlay: entry, label            g the registers are printed
//   k the blink clock is printed                 a the blink clock advances by a tick, and is printed
//   n every byte of colour n is made n, and every byte of overlay n 0xf0 + n, so that a pixel's part shows its entry
#![tactic(auto)]

mod show;

use hd153108::{Clock, State};
use script::byte;
use std::io;
use std::io::Write;

// The chip's state, and the tables that are lent.
#[derive(Drop)]
struct Bench {
    state: State,
    colours: [u8; 768],
    overlays: [u8; 12],
}

fn given(line: &[u8]) -> State {
    State {
        address: byte(line, 2),
        pointer: byte(line, 5),
        red: byte(line, 8),
        green: byte(line, 11),
        readmask: byte(line, 14),
        blinkmask: byte(line, 17),
        control: byte(line, 20),
        clock: Clock {
            timing: byte(line, 23),
            position: byte(line, 26),
        },
    }
}

// Every byte of entry n is first + n.
fn number_entries(t: &mut [u8], first: u8) {
    for (n, entry) in t.chunks_mut(3).enumerate() {
        entry.fill(first.wrapping_add((n % 256) as u8));
    }
}

impl Bench {
    // A line of the blink clock; any other is the label of what follows.
    fn blink<W: Write>(&mut self, out: &mut W, line: &[u8]) -> io::Result<()> {
        match script::command(line) {
            b't' => self.tick(out),
            b'a' => self.advance(out),
            b'k' => show::clock(out, self.state.clock),
            _ => script::label(out, line, 0),
        }
    }

    // A line that no table is lent for.
    fn alone<W: Write>(&mut self, out: &mut W, line: &[u8]) -> io::Result<()> {
        match script::command(line) {
            b's' => {
                self.state = given(line);
                Ok(())
            }
            b'z' => self.reset(out),
            b'g' => show::registers(out, self.state),
            _ => self.blink(out, line),
        }
    }

    // A line that leaves the tables.
    fn asked<W: Write>(&mut self, out: &mut W, line: &[u8]) -> io::Result<()> {
        match script::command(line) {
            b'r' => self.read(out, line),
            b'p' => self.pixel(out, line),
            b'c' => show::entry(out, line, &self.colours),
            b'o' => show::entry(out, line, &self.overlays),
            b'?' => self.look(out, line),
            _ => self.alone(out, line),
        }
    }

    fn turn<W: Write>(&mut self, out: &mut W, line: &[u8]) -> io::Result<()> {
        match script::command(line) {
            b'w' => self.write(out, line),
            b'x' => self.write_exchanged(out, line),
            b'n' => {
                number_entries(&mut self.colours, 0);
                number_entries(&mut self.overlays, 240);
                Ok(())
            }
            _ => self.asked(out, line),
        }
    }
}

fn main(rt: HostRuntime) -> io::Result<()> {
    let mut text = [0u8; 4096];
    let n = script::read_full(&mut rt.stdin(), &mut text)?;
    let mut bench = Bench {
        state: given(b""),
        colours: [0; 768],
        overlays: [0; 12],
    };
    let mut out = rt.stdout();
    for line in text[..n].split_inclusive(|b| *b == b'\n') {
        bench.turn(&mut out, script::line(line))?;
    }
    Ok(())
}
