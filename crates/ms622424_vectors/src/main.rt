// The MS622424's vectors of document 01 and the smallest examples of the rulings, printed one a line; then looks.
//
// stdin is the list of calls, and stdout was worked out by hand from document 01, source document 004 and requests P5
// and P7: what each call answers, and after it the address, the counter, the queue's first position and how many
// entries wait. A line of stdin is a letter, numbers of two, four (*) or eight (**) hex digits, each behind a space,
// and the label that is printed:
//   # a title
//   i a chip of revision 5 on board 9 after a reset, with no label and no line
//   s the state: address*, counter, red, green, command, read mode, revision, board, first, waiting; no label
//   n what is lent from here on: places of the queue, bytes of the map*; no label
//   q places of the queue from place 0 on: how many, their number's high half**, low half**; no label
//   w write: select, byte                        v the same, with no label and no line
//   c a colour written: red, green, blue; g grey colours from one number to before another; no label and no line
//   r read: select                               b blanking: slots**
//   p pixel: mode, word**                        y timing signals: signals
//   z reset                                      ? look: place**
#![tactic(auto)]

mod calls;
mod show;

use ms622424_places::State;
use std::io;
use std::io::Write;

// The chip's state, the queue and the map, and how many places of the one and bytes of the other are lent.
#[derive(Drop)]
struct Bench {
    state: State,
    queue: [u64; 64],
    map: [u8; 24577],
    places: usize,
    bytes: usize,
}

// A number of two halves, the high one first.
fn waiting(line: &[u8]) -> u64 {
    u64::from(script::long(line, 5)) * 4294967296 + u64::from(script::long(line, 14))
}

impl Bench {
    fn lend(&mut self, line: &[u8]) {
        self.places = usize::from(script::byte(line, 2));
        self.bytes = usize::from(script::word(line, 5));
    }

    // The queue's places from place 0 on.
    fn fill(&mut self, line: &[u8]) {
        let count = usize::from(script::byte(line, 2));
        let number = waiting(line);
        for place in self.queue.iter_mut().take(count) {
            *place = number;
        }
    }

    // A call on what is lent.
    fn call<W: Write>(&mut self, out: &mut W, line: &[u8]) -> io::Result<()> {
        let queue = self.queue.get_mut(..self.places);
        let map = self.map.get_mut(..self.bytes);
        if let (Some(queue), Some(map)) = (queue, map) {
            self.state = calls::call(out, self.state, line, queue, map)?;
        }
        Ok(())
    }

    fn turn<W: Write>(&mut self, out: &mut W, line: &[u8]) -> io::Result<()> {
        match script::command(line) {
            b'n' => self.lend(line),
            b'q' => self.fill(line),
            _ => self.call(out, line)?,
        }
        Ok(())
    }
}

fn main(rt: HostRuntime) -> io::Result<()> {
    let mut text = [0u8; 8192];
    let n = script::read_full(&mut rt.stdin(), &mut text)?;
    let mut bench = Bench {
        state: calls::fresh(),
        queue: [0; 64],
        map: [0; 24577],
        places: 0,
        bytes: 0,
    };
    let mut out = rt.stdout();
    for line in text[..n].split_inclusive(|b| *b == b'\n') {
        bench.turn(&mut out, script::line(line))?;
    }
    Ok(())
}
