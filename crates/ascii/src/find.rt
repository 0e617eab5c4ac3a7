// Words of a text: compared, and found by the character that ends them.
ghost use Rattle.std.specs.Prelude.{◌≡◌, ◌≤◌, length};
ghost use Rattle.ascii.specs.Words.{same_as, starts_with, up_to};

// Whether two texts have the same characters.
#[tactic(auto, using(crate::proofs::Words::same_pointwise))]
pub fn same(a: &[u8], b: &[u8]) -> bool
    ensures { result ≡ same_as a.now b.now }
{
    a == b
}

// Whether a text starts with a word.
#[tactic(auto, using(crate::proofs::Words::starts_pointwise))]
pub fn starts(text: &[u8], word: &[u8]) -> bool
    ensures { result ≡ starts_with text.now word.now }
{
    text.starts_with(word)
}

// How many characters stand before the first c: all where there is none.
pub fn before(text: &[u8], c: u8) -> usize
    ensures count { result ≡ length (up_to c text.now) }
    ensures within { result ≤ length text.now }
{
    text.iter().position(|x| *x == c).unwrap_or(text.len())
}
