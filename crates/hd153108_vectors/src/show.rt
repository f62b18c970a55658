// What the vectors print. Every number is two hex digits, but of a look four.
use super::Bench;
use hd153108::{Answer, Clock, State};
use script::{byte, fields};
use std::io;
use std::io::Write;

pub fn registers<W: Write>(out: &mut W, s: State) -> io::Result<()> {
    fields(
        out,
        b"readmask=% blinkmask=% overlay=% timing=% position=%\n",
        &[
            s.readmask,
            s.blinkmask,
            s.control,
            s.clock.timing,
            s.clock.position,
        ],
    )
}

// The blink clock, and whether it is in its on time.
pub fn clock<W: Write>(out: &mut W, k: Clock) -> io::Result<()> {
    fields(out, b"timing=% position=%", &[k.timing, k.position])?;
    if hd153108_range::blink_off(k) {
        return out.write_all(b" off\n");
    }
    out.write_all(b" on\n")
}

fn bytes<W: Write>(out: &mut W, t: &[u8]) -> io::Result<()> {
    for b in t {
        script::hex(out, b" ", u64::from(*b), 2)?;
    }
    script::line_end(out)
}

// The three bytes of a table's entry, behind the line's label.
pub fn entry<W: Write>(out: &mut W, line: &[u8], t: &[u8]) -> io::Result<()> {
    script::rest(out, line, 5)?;
    let at = 3 * usize::from(byte(line, 2));
    match t.get(at..at + 3) {
        Some(entry) => bytes(out, entry),
        None => Ok(()),
    }
}

impl Bench {
    // An access's answer, and the part of the state that accesses move.
    fn answer<W: Write>(&mut self, out: &mut W, a: Answer) -> io::Result<()> {
        let s = a.state;
        self.state = s;
        fields(
            out,
            b" refused=% value=% address=% pointer=% red=% green=%\n",
            &[a.refusal, a.value, s.address, s.pointer, s.red, s.green],
        )
    }

    pub fn write<W: Write>(&mut self, out: &mut W, line: &[u8]) -> io::Result<()> {
        let (select, data) = written(out, line)?;
        let a = hd153108_write::zk_a_write(
            self.state,
            select,
            data,
            &mut self.colours,
            &mut self.overlays,
        );
        self.answer(out, a)
    }

    // The same with the tables lent in each other's place.
    pub fn write_exchanged<W: Write>(&mut self, out: &mut W, line: &[u8]) -> io::Result<()> {
        let (select, data) = written(out, line)?;
        let a = hd153108_write::zk_a_write(
            self.state,
            select,
            data,
            &mut self.overlays,
            &mut self.colours,
        );
        self.answer(out, a)
    }

    pub fn read<W: Write>(&mut self, out: &mut W, line: &[u8]) -> io::Result<()> {
        let select = byte(line, 2);
        fields(out, b"read select=%", &[select])?;
        let a = hd153108_read::zk_a_read(self.state, select, &self.colours, &self.overlays);
        self.answer(out, a)
    }

    pub fn reset<W: Write>(&mut self, out: &mut W) -> io::Result<()> {
        out.write_all(b"reset")?;
        self.answer(out, hd153108_reset::zk_a_reset(self.state))
    }

    // A tick by value, whose answer is printed.
    pub fn tick<W: Write>(&mut self, out: &mut W) -> io::Result<()> {
        let a = hd153108_tick::zk_a_step(self.state.clock);
        self.state.clock = a.clock;
        fields(
            out,
            b"tick refused=% timing=% position=%\n",
            &[a.refusal, a.clock.timing, a.clock.position],
        )
    }

    // A tick after which the clock is printed.
    pub fn advance<W: Write>(&mut self, out: &mut W) -> io::Result<()> {
        let a = hd153108_tick::zk_a_step(self.state.clock);
        self.state.clock = a.clock;
        clock(out, a.clock)
    }

    // A pixel: its refusal, and the part that it hands back.
    pub fn pixel<W: Write>(&self, out: &mut W, line: &[u8]) -> io::Result<()> {
        let enable = byte(line, 2);
        let number = byte(line, 5);
        let data = byte(line, 8);
        let refusal = hd153108_pixel_refusal::zk_a_pixel_refusal(
            self.state,
            enable,
            number,
            data,
            &self.colours,
            &self.overlays,
        );
        fields(
            out,
            b"pixel enable=% number=% byte=% refused=%, shows",
            &[enable, number, data, refusal],
        )?;
        let part = hd153108_pixel::pixel(
            self.state,
            enable,
            number,
            data,
            &self.colours,
            &self.overlays,
        );
        bytes(out, part)
    }

    // A look: its refusal and the number at the place.
    pub fn look<W: Write>(&self, out: &mut W, line: &[u8]) -> io::Result<()> {
        let place = script::word(line, 2);
        let seen = hd153108_look::zk_a_look(
            self.state,
            u32::from(place),
            &self.colours,
            &self.overlays,
        );
        script::hex(out, b"look place=", u64::from(place), 4)?;
        script::hex(out, b" refused=", u64::from(seen.refusal), 2)?;
        script::hex(out, b" value=", u64::from(seen.value), 4)?;
        script::line_end(out)
    }
}

// A write's select and byte, printed.
fn written<W: Write>(out: &mut W, line: &[u8]) -> io::Result<(u8, u8)> {
    let select = byte(line, 2);
    let data = byte(line, 5);
    fields(out, b"write select=% byte=%", &[select, data])?;
    Ok((select, data))
}
