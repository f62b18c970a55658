// Which writes a printer makes, of which no contract speaks.
use super::Printer;
use std::io;
use std::io::Write;
use std::test::Fail;

// A writer that keeps how long each write was, and refuses all but the first few.
#[derive(Drop)]
struct Writes {
    lengths: [usize; 5],
    made: usize,
    taken: usize,
}

impl Writes {
    fn up_to(taken: usize) -> Self {
        Writes {
            lengths: [0; 5],
            made: 0,
            taken,
        }
    }
}

impl Write for Writes {
    fn write(&mut self, bytes: &[u8]) -> io::Result<usize> {
        if self.made < self.taken && self.made < self.lengths.len() {
            self.lengths[self.made] = bytes.len();
            self.made += 1;
            return Ok(bytes.len());
        }
        Err(io::Error::from(io::ErrorKind::WriteZero))
    }

    fn flush(&mut self) -> io::Result<()> {
        Ok(())
    }
}

// What fits is not printed, whatever room it leaves, and so can't fail.
#[test]
fn say_prints_nothing_where_there_is_room(rt: HostRuntime) -> Result<(), Fail> {
    let mut to = Writes::up_to(0);
    let mut small: Printer<8> = Printer::new();
    small.say(&mut to, b"abc")?;
    small.say(&mut to, b"defgh")?;
    assert_eq!(rt; small.waits(), b"abcdefgh".as_slice());
    let mut out: Printer<64> = Printer::new();
    out.say(&mut to, &[b'-'; 50])?;
    out.say(&mut to, b"ab")?;
    assert_eq!(rt; out.waits().len(), 52);
    assert_eq!(rt; to.made, 0);
    Ok(())
}

// What finds no room is said in one piece, behind what waits.
#[test]
fn say_prints_what_waits_and_then_one_piece(rt: HostRuntime) -> Result<(), Fail> {
    let mut to = Writes::up_to(5);
    let mut out: Printer<64> = Printer::new();
    out.say(&mut to, &[b'-'; 52])?;
    out.say(&mut to, &[b'+'; 20])?;
    assert_eq!(rt; out.waits(), [b'+'; 20].as_slice());
    out.say(&mut to, &[b'/'; 64])?;
    assert_eq!(rt; out.waits().len(), 64);
    out.say(&mut to, &[b'*'; 100])?;
    assert_eq!(rt; out.waits().len(), 0);
    assert_eq!(rt; to.lengths, [52, 20, 64, 100, 0]);
    Ok(())
}

// Room is kept for 16 bytes, and what finds no room fills the buffer.
#[test]
fn say_filling_prints_full_buffers(rt: HostRuntime) -> Result<(), Fail> {
    let mut to = Writes::up_to(5);
    let mut out: Printer<64> = Printer::new();
    out.say_filling(&mut to, &[b'-'; 48])?;
    out.say_filling(&mut to, &[b'/'; 20])?;
    assert_eq!(rt; out.waits(), [b'/'; 4].as_slice());
    out.say_filling(&mut to, &[b'-'; 44])?;
    out.say_filling(&mut to, b"ab")?;
    assert_eq!(rt; out.waits().len(), 50);
    out.say_filling(&mut to, b"cd")?;
    assert_eq!(rt; out.waits(), b"cd".as_slice());
    out.say_filling(&mut to, &[b'+'; 100])?;
    assert_eq!(rt; out.waits(), [b'+'; 38].as_slice());
    out.say_filling(&mut to, &[b'*'; 100])?;
    assert_eq!(rt; out.waits().len(), 0);
    assert_eq!(rt; to.lengths, [64, 50, 64, 64, 74]);
    Ok(())
}
