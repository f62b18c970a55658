// The lines of a program's list of calls, and what it prints of them: what the three programs of vectors share. By it
// loadlist reads its input and prints numbers, too.
//
// A line's first byte says what is done. Its numbers stand at fixed places, in lower-case hex digits, and behind them a
// label. What a line holds and where is said by the program that reads it. Of a line that is too short the missing
// digits are 0: a list is compared by what the program prints. The number that digits spell is read in hex_number. What
// is printed is said for a writer that says which bytes it holds, a number's hex digits in specs/Text.antt; after an
// error a part may have been printed. Not modelled: what `fields` prints, which no contract says.
#![tactic(auto)]

ghost use Rattle.std.specs.Prelude.{◌≡◌, ◌<◌, ◌⊎◌, [], ◌∷◌, ◌++◌, length, get_or, take, drop, IfOk, OnOk};
ghost use Rattle.std.specs.Slice.Iter.{iter_rest};
ghost use Rattle.std.specs.Io.{ReadsAtMost};
ghost use Rattle.std.specs.Io.KnownBytes.{Appends, Consumes, IsAtEnd};
ghost use Rattle.std.specs.Fmt.{decimal};
ghost use Rattle.hex_digits.specs.Hex.{number as spelt};
ghost use Rattle.script.specs.Text.{padded, without_lf};

use std::io;
use std::io::{Read, Write};
use std::slice::Iter;

// Reads up to the text's end or the input's: how many bytes stand at the text's start then.
pub fn read_full<R: Read>(from: &mut R, text: &mut [u8]) -> io::Result<usize>
    ensures inside { ReadsAtMost result text.new }
    ensures bytes { IfOk result
        (λ n. Consumes (R.remaining from.old) (R.remaining from.new) (take n text.new)) }
    ensures end { IfOk result (λ n. n < length text.new → IsAtEnd (R.remaining from.new)) }
{
    // Stays: std has no call that fills a slice up to the input's end and says how far it came.
    let mut done = 0;
    while done < text.len() {
        let n = from.read(&mut text[done..])?;
        if n == 0 {
            return Ok(done);
        }
        done += n;
    }
    Ok(done)
}

// A line without the LF at its end.
pub fn line(text: &[u8]) -> &[u8]
    ensures { result.now ≡ without_lf text.now }
{
    text.strip_suffix(b"\n").unwrap_or(text)
}

// What stands in a line from a place on.
fn from(line: &[u8], at: usize) -> &[u8]
    ensures { result.now ≡ drop at line.now }
{
    line.get(at..).unwrap_or(b"")
}

// What a line says to do.
pub fn command(line: &[u8]) -> u8
    ensures { result ≡ get_or line.now 0 0 }
{
    hex_digits::byte(line, 0)
}

// A number of two hex digits at a place.
pub fn byte(line: &[u8], at: usize) -> u8
    ensures { result ≡ spelt 2 0 (drop at line.now) }
{
    hex_number::spelt_byte(from(line, at), 0, 2)
}

// One of four.
pub fn word(line: &[u8], at: usize) -> u16
    ensures { result ≡ spelt 4 0 (drop at line.now) }
{
    hex_number::spelt_word(from(line, at), 0, 4)
}

// One of eight.
pub fn long(line: &[u8], at: usize) -> u32
    ensures { result ≡ spelt 8 0 (drop at line.now) }
{
    hex_number::spelt(from(line, at), 0, 8)
}

// Prints a name and a decimal number behind it.
pub fn number<W: Write>(out: &mut W, name: &[u8], n: u64) -> io::Result<()>
    ensures { OnOk result (Appends (W.contents out.old) (W.contents out.new) (name.now ++ decimal n)) }
{
    out.write_all(name)?;
    write!(out, "{n}")
}

// A name and so many hex digits.
pub fn hex<W: Write>(out: &mut W, name: &[u8], n: u64, width: usize) -> io::Result<()>
    ensures { OnOk result (Appends (W.contents out.old) (W.contents out.new) (name.now ++ padded width n)) }
{
    out.write_all(name)?;
    write!(out, "{n:0width$x}")
}

// Prints a byte of a text, or the next number in its place: '%' stands for two hex digits, and '#' for a decimal
// number. At most one number is taken, whether it was printed or not.
fn field<W: Write>(out: &mut W, c: u8, numbers: &mut Iter<'_, u8>) -> io::Result<()>
    ensures one { (iter_rest numbers.new ≡ iter_rest numbers.old)
        ⊎ (iter_rest numbers.new ≡ drop 1 (iter_rest numbers.old)) }
{
    match c {
        b'%' => {
            let number = next(numbers);
            write!(out, "{number:02x}")
        }
        b'#' => {
            let number = next(numbers);
            write!(out, "{number}")
        }
        _ => out.write_all(&[c]),
    }
}

// The next number, or 0 where there is none.
fn next(numbers: &mut Iter<'_, u8>) -> u8
    ensures first { result ≡ get_or (iter_rest numbers.old) 0 0 }
    ensures rest { iter_rest numbers.new ≡ drop 1 (iter_rest numbers.old) }
{
    numbers.next().copied().unwrap_or(0)
}

// Prints a text with one of the numbers in each place for one.
pub fn fields<W: Write>(out: &mut W, names: &[u8], numbers: &[u8]) -> io::Result<()> {
    let mut numbers = numbers.iter();
    for c in names {
        field(out, *c, &mut numbers)?;
    }
    Ok(())
}

// The end of a line.
pub fn line_end<W: Write>(out: &mut W) -> io::Result<()>
    ensures { OnOk result (Appends (W.contents out.old) (W.contents out.new) (10 ∷ [])) }
{
    out.write_all(b"\n")
}

// A label, which stands in a line from a place on.
pub fn label<W: Write>(out: &mut W, line: &[u8], at: usize) -> io::Result<()>
    ensures { OnOk result
        (Appends (W.contents out.old) (W.contents out.new) (drop at line.now ++ 10 ∷ [])) }
{
    rest(out, line, at)?;
    line_end(out)
}

// Prints a line, or another text, from a place on.
pub fn rest<W: Write>(out: &mut W, line: &[u8], at: usize) -> io::Result<()>
    ensures { OnOk result (Appends (W.contents out.old) (W.contents out.new) (drop at line.now)) }
{
    out.write_all(from(line, at))
}
