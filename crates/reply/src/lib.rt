// The number that a C program gets back, made of what it tells.
//
// The rule is `decoded` of vocabulary's specs/Reply.antt: where each of the four stands in the 64 bits. Document 01
// decides what is told. Not modelled: how a C program reads the number; the header has that.
#![tactic(auto)]

ghost use Rattle.std.specs.Prelude.{◌≡◌};
ghost use Rattle.vocabulary.specs.Reply.{decoded, reply};

// The number that tells a C program a call's refusal, value, count and line.
// Stays: the refusal is a number, as the 64 bits that C reads have it.
pub fn packed(refusal: u8, value: u16, count: u16, line: u16) -> u64
    ensures { decoded result ≡ reply refusal value count line }
{
    (refusal as u64)
        + (value as u64) * 65536
        + (count as u64) * 4294967296
        + (line as u64) * 281474976710656
}
