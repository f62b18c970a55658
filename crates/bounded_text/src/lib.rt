// A text of at most N bytes, which lie in the value itself.
//
// No heap is a rule of the project; a line of a sheet and an answer of a replay are such texts. In a contract a text is
// the list of its bytes; behind them lie zeros, so that the list gives the value back. Not modelled: what a text is
// where there was no room for it.
#![tactic(auto)]

ghost use Rattle.std.specs.Prelude.{◌≡◌, List, ℕ, [], ◌∷◌, ◌++◌, ◌<◌, ◌≤◌, length, take};

use std::marker::Model;

#[derive(Clone, Copy)]
pub struct Text<const N: usize> {
    bytes: [u8; N],
    len: usize,
}

impl<const N: usize> Model for Text<N> {
    ghost use Rattle.std.specs.Prelude.{◌≡◌, List, ℕ, ◌++◌, ◌≤◌, ◌-◌, length, take, replicate};
    ghost use Rattle.std.proofs.Common.{arith, length-take-le};
    ghost use Rattle.bounded_text.specs.Tail.{tail_back};

    ghost Value = { List ℕ };

    ghost view = { λ t. take t.len t.bytes };

    ghost invariant = { λ t. (t.len ≤ N) × (length t.bytes ≡ N)
        × (t.bytes ≡ take t.len t.bytes ++ replicate (N - t.len) 0) };

    ghost inverse = { λ l. record { bytes = l ++ replicate (N - length l) 0; len = length l } };

    ghost inverse_ok = { λ t h i. record {
      bytes = tail_back N t.len t.bytes h.0 h.1 h.2 i;
      len = length-take-le t.len t.bytes (omega (arith, h.0, h.1)) i;
    } };
}

impl<const N: usize> Text<N> {
    // No byte.
    pub fn new() -> Self
        ensures { result ≡ [] }
    {
        Text {
            bytes: [0; N],
            len: 0,
        }
    }

    // The first bytes of an array; those behind them become zeros.
    pub fn first(mut bytes: [u8; N], len: usize) -> Self
        requires { len ≤ N }
        ensures { result ≡ take len bytes.entry }
    {
        let all = &mut bytes[..];
        all[len..].fill(0);
        Text { bytes, len }
    }

    // The bytes of a slice, where there is room.
    #[tactic(auto, using(crate::proofs::Words::words))]
    pub fn of(word: &[u8]) -> Self
        ensures { length word.now ≤ N → result ≡ word.now }
    {
        let mut bytes = [0; N];
        let len = word.len();
        if N < len {
            return Text::new();
        }
        bytes[..len].copy_from_slice(word);
        Text::first(bytes, len)
    }

    // A byte behind the text, where there is room.
    pub fn push(&mut self, b: u8)
        ensures { length self.old < N → self.new ≡ self.old ++ b ∷ [] }
    {
        if self.len < N {
            self.bytes[self.len] = b;
            self.len += 1;
        }
    }

    // The bytes.
    pub fn as_slice(&self) -> &[u8]
        ensures bytes { result.now ≡ self.now }
        ensures short { length self.now ≤ N }
    {
        &self.bytes[..self.len]
    }
}
