// A line's call made, and its answer printed.
use super::show;
use ms622424::{Control, Ident, Port};
use ms622424_places::{Answer, Fifo, State};
use script::byte;
use std::io;
use std::io::Write;

// The state of a chip of revision 5 on board 9 after a reset.
pub fn fresh() -> State {
    given(b"s 0000 00 00 00 03 00 05 09 00 00")
}

fn given(line: &[u8]) -> State {
    State {
        port: Port {
            address: script::word(line, 2),
            counter: byte(line, 7),
            red: byte(line, 10),
            green: byte(line, 13),
        },
        control: Control {
            command: byte(line, 16),
            readmode: byte(line, 19),
        },
        ident: Ident {
            revision: byte(line, 22),
            board: byte(line, 25),
        },
        fifo: Fifo {
            first: byte(line, 28),
            waiting: byte(line, 31),
        },
    }
}

// A byte of a colour written.
fn datum(s: State, byte: u8, queue: &mut [u64], map: &mut [u8]) -> State {
    ms622424_write::zk_b_write(s, 2, byte, queue, map).state
}

// A colour written: red, green, blue.
fn colour(mut s: State, line: &[u8], queue: &mut [u64], map: &mut [u8]) -> State {
    for at in [2, 5, 8] {
        s = datum(s, byte(line, at), queue, map);
    }
    s
}

// Grey colours written, from one number to before another.
fn greys(mut s: State, line: &[u8], queue: &mut [u64], map: &mut [u8]) -> State {
    for grey in byte(line, 2)..byte(line, 5) {
        for _ in 0..3 {
            s = datum(s, grey, queue, map);
        }
    }
    s
}

// A line whose call leaves all as it is, and its answer.
fn asked(s: State, line: &[u8], queue: &[u64], map: &[u8]) -> Answer {
    if script::command(line) == b'y' {
        return ms622424_signals::zk_b_sync(s, byte(line, 2), queue);
    }
    ms622424_read::zk_b_read(s, byte(line, 2), queue, map)
}

// A line that leaves what is lent.
fn kept<W: Write>(
    out: &mut W,
    s: State,
    line: &[u8],
    queue: &[u64],
    map: &[u8],
) -> io::Result<State> {
    match script::command(line) {
        b's' => Ok(given(line)),
        b'r' | b'y' => show::answer(out, line, asked(s, line, queue, map)),
        b'p' => {
            let word = script::long(line, 5);
            show::colour(
                out,
                line,
                ms622424_pixel::zk_b_pixel(s, byte(line, 2), word, queue, map),
            )?;
            Ok(s)
        }
        b'?' => {
            let place = script::long(line, 2);
            show::looked(out, line, ms622424_look::zk_b_look(s, place, queue, map))?;
            Ok(s)
        }
        _ => {
            script::label(out, line, 0)?;
            Ok(s)
        }
    }
}

// A line whose call may change it, and its answer.
fn made(s: State, line: &[u8], queue: &mut [u64], map: &mut [u8]) -> Answer {
    match script::command(line) {
        b'z' => ms622424_reset::zk_b_reset(s, queue),
        b'i' => ms622424_reset::zk_b_reset(fresh(), queue),
        b'b' => ms622424_blank::zk_b_blank(s, script::long(line, 2), queue, map),
        _ => ms622424_write::zk_b_write(s, byte(line, 2), byte(line, 5), queue, map),
    }
}

pub fn call<W: Write>(
    out: &mut W,
    s: State,
    line: &[u8],
    queue: &mut [u64],
    map: &mut [u8],
) -> io::Result<State> {
    match script::command(line) {
        b'c' => Ok(colour(s, line, queue, map)),
        b'g' => Ok(greys(s, line, queue, map)),
        b'b' | b'i' | b'v' | b'w' | b'z' => show::answer(out, line, made(s, line, queue, map)),
        _ => kept(out, s, line, queue, map),
    }
}
