// A pattern of a port log's line: whether a line has it.
//
// The replay's line forms decide; specs/Pattern.antt says what a pattern is. The forms, and what each says, are in
// port_log. Not modelled: patterns of more than one length.
#![tactic(auto)]

ghost use Rattle.std.specs.Prelude.{ℕ, ◌≡◌};
ghost use Rattle.std.specs.List.{list_all, zip};
ghost use Rattle.log_pattern.specs.Pattern.{is_digit, stands as stands_for, fits as fits_pattern};

// Whether a byte is a hex digit.
#[tactic(auto, unfolding(crate::specs::Pattern::is_digit))]
fn is_digit(b: u8) -> bool
    ensures { result ≡ is_digit b }
{
    matches!(b, b'0'..=b'9' | b'a'..=b'f')
}

// Whether a byte is one that a pattern's byte stands for.
#[tactic(auto, using(crate::proofs::Patterns::stands_digit, crate::proofs::Patterns::stands_itself))]
fn stands(p: u8, b: u8) -> bool
    ensures { result ≡ stands_for p b }
{
    if p == b'#' { is_digit(b) } else { p == b }
}

// Whether each byte of a line is one that the pattern's byte in its place stands for.
fn all_stand(pattern: &[u8], t: &[u8]) -> bool
    ensures { result ≡ list_all (λ (q : ℕ × ℕ). stands_for q.0 q.1) (zip pattern.now t.now) }
{
    pattern.iter().zip(t).all(|(p, b)| stands(*p, *b))
}

// Whether a line has a pattern.
#[tactic(auto, using(crate::proofs::Patterns::fits_length, crate::proofs::Patterns::fits_zip))]
pub fn fits(pattern: &[u8], t: &[u8]) -> bool
    ensures { result ≡ fits_pattern pattern.now t.now }
{
    pattern.len() == t.len() && all_stand(pattern, t)
}
