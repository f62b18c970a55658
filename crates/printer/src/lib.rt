// A buffer before an output: bytes wait there until they are flushed, or there is no room for more.
//
// In a contract a printer is the list of the bytes that wait. What was printed and what waits behind it is `held` of
// specs/Held.antt: each method says what it puts there, for a writer that says which bytes it holds. After an error some
// of what waited may have been printed. No heap is a rule of the project, so that std's BufWriter, which has one, does
// not serve.
#![tactic(auto)]

ghost use Rattle.std.specs.Prelude.{◌≡◌, ◌+◌, ◌≤◌, List, ℕ, [], ◌++◌, length, take, OnOk, OnErr};
ghost use Rattle.std.specs.Io.KnownBytes.{Appends};
ghost use Rattle.printer.specs.Held.{held};

use std::io;
use std::io::Write;
use std::marker::Model;

#[derive(Drop)]
pub struct Printer<const N: usize> {
    bytes: [u8; N],
    waiting: usize,
}

impl<const N: usize> Model for Printer<N> {
    ghost Value = { List ℕ };

    ghost view = { λ p. take p.waiting p.bytes };

    ghost invariant = { λ p. p.waiting ≤ N };
}

impl<const N: usize> Printer<N> {
    // Nothing waits.
    pub fn new() -> Self
        ensures { result ≡ [] }
    {
        Printer {
            bytes: [0; N],
            waiting: 0,
        }
    }

    // What waits.
    pub fn waits(&self) -> &[u8]
        ensures { result.now ≡ self.now }
    {
        &self.bytes[..self.waiting]
    }

    // Prints what waits.
    pub fn flush<W: Write>(&mut self, to: &mut W) -> io::Result<()>
        ensures printed { OnOk result (Appends (W.contents to.old) (W.contents to.new) self.old) }
        ensures empty { OnOk result (self.new ≡ []) }
        ensures stays { OnErr result (self.new ≡ self.old) }
    {
        to.write_all(self.waits())?;
        self.waiting = 0;
        Ok(())
    }

    // Bytes behind those that wait.
    #[inline(always)]
    fn put(&mut self, bytes: &[u8])
        requires { length self.old + length bytes.now ≤ N }
        ensures { self.new ≡ self.old ++ bytes.now }
    {
        let end = self.waiting + bytes.len();
        let all = &mut self.bytes[..];
        all[self.waiting..end].copy_from_slice(bytes);
        self.waiting = end;
    }

    // The same of any number of bytes, in one piece: where they find no room, what waits is printed first.
    pub fn say<W: Write>(&mut self, to: &mut W, bytes: &[u8]) -> io::Result<()>
        ensures { OnOk result (Appends (held (W.contents to.old) self.old)
            (held (W.contents to.new) self.new) bytes.now) }
    {
        if bytes.len() > N - self.waiting {
            self.flush(to)?;
            if bytes.len() > N {
                return to.write_all(bytes);
            }
        }
        self.put(bytes);
        Ok(())
    }

    // The same in other writes: what waits is printed where it leaves no room for 16 bytes, and bytes that find no room
    // fill the buffer, which is printed before the rest.
    #[inline(never)]
    fn print<W: Write>(&mut self, to: &mut W, bytes: &[u8]) -> io::Result<()>
        ensures { OnOk result (Appends (held (W.contents to.old) self.old)
            (held (W.contents to.new) self.new) bytes.now) }
    {
        if N - self.waiting < 16 {
            self.flush(to)?;
        }
        let room = N - self.waiting;
        if bytes.len() <= room {
            self.put(bytes);
            return Ok(());
        }
        let (first, rest) = bytes.split_at(room);
        self.put(first);
        self.flush(to)?;
        if rest.len() > N {
            return to.write_all(rest);
        }
        self.put(rest);
        Ok(())
    }

    // The same in the writes of `print`, without a call of it where there is room.
    pub fn say_filling<W: Write>(&mut self, to: &mut W, bytes: &[u8]) -> io::Result<()>
        ensures { OnOk result (Appends (held (W.contents to.old) self.old)
            (held (W.contents to.new) self.new) bytes.now) }
    {
        let room = N - self.waiting;
        if room < 16 || bytes.len() > room {
            return self.print(to, bytes);
        }
        self.put(bytes);
        Ok(())
    }
}

#[cfg(test)]
mod tests;
