// loadlist: one sheet on standard input, its calls on standard output.
//
// Document 01, "The sheet and its calls", decides. The first 4,096 bytes of the input decide: a good sheet has at most
// 2,134 (proofs/Size.antt of crate sheet_written). Short reads are joined. It prints one call a line, `w`, select, `=`,
// byte in hex; or the two lines `refused=8` and `line=`, with the number of the first bad or missing line. The list is
// made by crate sheet_calls; its buffer holds the longest there is, 786 calls. What is printed is said by
// specs/Listing.antt (`Prints`), for a reader that says which bytes it has left and a writer that says which it holds.
#![tactic(auto)]

ghost use Rattle.std.specs.Prelude.{◌≡◌, [], ◌∷◌, ◌/◌, ◌%◌, length, take, IfSome, OnOk};
ghost use Rattle.std.specs.Io.KnownBytes.{Appends};
ghost use Rattle.hex_digits.specs.Hex.{hex_digit};
ghost use Rattle.vocabulary.specs.Refusal.{number};
ghost use Rattle.loadlist.specs.Listing.{call_lines, refusal_lines, Prints};

use sheet::Refused;
use std::io;
use std::io::{Read, Write};

// A call's line.
fn call_line(select: u8, byte: u8) -> [u8; 6]
    ensures { result
        ≡ 119 ∷ hex_digit (select % 16) ∷ 61 ∷ hex_digit (byte / 16 % 16) ∷ hex_digit (byte % 16) ∷ 10 ∷ [] }
{
    let s = hex_digits::digit(select as u16);
    let h = hex_digits::digit(byte as u16 / 16);
    let l = hex_digits::digit(byte as u16);
    [b'w', s, b'=', h, l, b'\n']
}

// The calls, one a line.
fn show_calls<W: Write>(out: &mut W, calls: &[u8]) -> io::Result<()>
    ensures { OnOk result
        (Appends (W.contents out.old) (W.contents out.new) (call_lines (length calls.now / 2) calls.now)) }
{
    let (pairs, _) = calls.as_chunks::<2>();
    for [select, byte] in pairs {
        out.write_all(&call_line(*select, *byte))?;
    }
    Ok(())
}

fn show_refusal<W: Write>(out: &mut W, refused: Refused) -> io::Result<()>
    ensures { OnOk result
        (Appends (W.contents out.old) (W.contents out.new) (refusal_lines (number refused.refusal) refused.line)) }
{
    script::number(out, b"refused=", u8::from(refused.refusal) as u64)?;
    script::number(out, b"\nline=", refused.line as u64)?;
    script::line_end(out)
}

// The input's sheet, and what is printed of it.
fn load<R: Read, W: Write>(from: &mut R, to: &mut W) -> io::Result<()>
    ensures { OnOk result (IfSome (R.remaining from.old)
        (λ input. Prints (W.contents to.old) (W.contents to.new) (take 4096 input))) }
{
    let mut text = [0u8; 4096];
    let n = script::read_full(from, &mut text)?;
    let mut calls = [0u8; 1572];
    match sheet_calls::sheet_calls(&text[..n], &mut calls) {
        Ok(count) => show_calls(to, &calls[..2 * count as usize]),
        Err(refused) => show_refusal(to, refused),
    }
}

fn main(rt: HostRuntime) -> io::Result<()> {
    load(&mut rt.stdin(), &mut rt.stdout())
}
