// An input in pieces, beside an output that waits in a printer: what was read is answered before more is read.
//
// The replay's description decides: a tool may wait for an answer before it sends the next line. In a contract an input
// is its bytes in three parts (specs/Parts.antt), of which `unread` are those that were read and not yet taken.
// specs/Input.antt says when a read may be made (`Answered`); `read` asks for it, so that a read before is refused. It
// says too which bytes come (`coming`), for a reader that says which it has left. Where the output can't be written any
// more, or the input can't be read, that error is answered, and nothing more is read. No heap is a rule of the project,
// so that std's BufReader, which has one, does not serve.
#![tactic(auto)]

ghost use Rattle.std.specs.Prelude.{◌≡◌, ◌<◌, ◌≤◌, ◌⊎◌, List, ℕ, [], length, drop, slice_range};
ghost use Rattle.std.specs.Prelude.{IsTrue, ◌↔◌, IfOk, OnOk, OnErr};
ghost use Rattle.std.specs.Io.KnownBytes.{Keeps};
ghost use Rattle.printer.specs.Held.{held};
ghost use Rattle.input.specs.Input.{Answered, Next, coming, Ends};

use printer::Printer;
use std::io;
use std::io::Write;
use std::marker::Model;

#[derive(Clone, Copy)]
pub struct Input<const N: usize> {
    bytes: [u8; N],
    at: usize,
    end: usize,
}

impl<const N: usize> Model for Input<N> {
    ghost use Rattle.std.specs.Prelude.{◌≡◌, ℕ, ◌+◌, ◌≤◌, List, ◌++◌, length, take, drop, slice_range};
    ghost use Rattle.input.specs.Parts.{Parts, parts_back, front_back, unread_back};

    ghost Value = { Parts };

    ghost view = { λ i. record {
      taken = take i.at i.bytes;
      unread = slice_range i.bytes i.at i.end;
      spare = drop i.end i.bytes;
    } };

    ghost invariant = { λ i. (i.at ≤ i.end) × (i.end ≤ N) × (length i.bytes ≡ N) };

    ghost inverse = { λ p. record {
      bytes = p.taken ++ (p.unread ++ p.spare);
      at = length p.taken;
      end = length p.taken + length p.unread;
    } };

    ghost inverse_ok = { λ i h k. record {
      bytes = parts_back N i.at i.end i.bytes h.0 h.1 h.2 k;
      at = front_back N i.at i.end i.bytes h.0 h.1 h.2 k;
      end = unread_back N i.at i.end i.bytes h.0 h.1 h.2 k;
    } };
}

impl<const N: usize> Input<N> {
    // Nothing read yet.
    pub fn new() -> Self
        ensures { result.unread ≡ [] }
    {
        Input {
            bytes: [0; N],
            at: 0,
            end: 0,
        }
    }

    // What was read and not yet taken.
    pub fn rest(&self) -> &[u8]
        ensures { result.now ≡ self.now.unread }
    {
        let all = &self.bytes[..];
        &all[self.at..self.end]
    }

    // So many of them are taken, or all.
    pub fn take(&mut self, n: usize)
        ensures { self.new.unread ≡ drop n self.old.unread }
    {
        self.at += n.min(self.end - self.at);
    }

    // Reads once, when nothing waits: whether something came; nothing ends the input.
    fn read<R: io::Read, const M: usize>(
        &mut self,
        from: &mut R,
        _out: &Printer<M>,
    ) -> io::Result<bool>
        requires { Answered self.old.unread _out.now }
        ensures more { IfOk result (λ more. IsTrue more ↔ (0 < length self.new.unread)) }
        ensures keeps { OnOk result
            (Keeps (coming (R.remaining from.old) self.old.unread) (coming (R.remaining from.new) self.new.unread)) }
        ensures ends { 0 < N → IfOk result (λ more. Ends more (R.remaining from.new)) }
        ensures err { OnErr result (self.new.unread ≡ []) }
    {
        let all = &mut self.bytes[..];
        let n = from.read(all)?;
        self.at = 0;
        self.end = n;
        Ok(n > 0)
    }

    // Something to take, unless the input has ended: whether there is. With something left to take there is no error.
    pub fn next<R: io::Read, W: Write, const M: usize>(
        &mut self,
        from: &mut R,
        to: &mut W,
        out: &mut Printer<M>,
    ) -> io::Result<bool>
        ensures ok { IfOk result (λ more. Next self.old.unread self.new.unread out.old out.new more) }
        ensures err { OnErr result (self.old.unread ≡ []) }
        ensures stays { OnErr result (self.new.unread ≡ self.old.unread) }
        ensures waits { OnErr result ((out.new ≡ out.old) ⊎ (out.new ≡ [])) }
        ensures keeps { OnOk result
            (Keeps (coming (R.remaining from.old) self.old.unread) (coming (R.remaining from.new) self.new.unread)) }
        ensures ends { 0 < N → IfOk result (λ more. Ends more (R.remaining from.new)) }
        ensures kept { OnOk result
            (Keeps (held (W.contents to.old) out.old) (held (W.contents to.new) out.new)) }
    {
        if self.at < self.end {
            return Ok(true);
        }
        out.flush(to)?;
        self.read(from, out)
    }
}
