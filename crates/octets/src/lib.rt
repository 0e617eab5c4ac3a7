// Parts of octet slices: read as a part, written over, and copied inside an area. Nothing here knows of NCI.
#![tactic(auto)]

ghost use Rattle.std.specs.Prelude.{◌≡◌, ◌+◌, ◌≤◌, length, get_or};
ghost use Rattle.octets.specs.Octets.{pick, cut, splice};

// One of two octets, by a test.
pub fn choose(test: bool, a: u8, b: u8) -> u8
    ensures { result ≡ pick test a b }
{
    if test { a } else { b }
}

// At most n octets of s from index at on, as a part of s itself: as many as there are.
pub fn window<'a>(s: &'a [u8], at: usize, n: usize) -> &'a [u8]
    ensures { result.now ≡ cut at n s.now }
{
    let rest = &s[at.min(s.len())..];
    &rest[..n.min(rest.len())]
}

// The octet of s at index i, and 0 past its end.
pub fn octet_at(s: &[u8], i: usize) -> u8
    ensures { result ≡ get_or s.now i 0 }
{
    s.get(i).copied().unwrap_or(0)
}

// Writes src over dst from index at on.
#[tactic(auto, using(crate::proofs::Octets::splice_part))]
pub fn put(dst: &mut [u8], at: usize, src: &[u8])
    requires { at + length src.now ≤ length dst.old }
    ensures { dst.new ≡ splice dst.old at src.now }
{
    dst[at..at + src.len()].copy_from_slice(src);
}

// Writes the n octets of the area from index from on over those from index to on. The two parts may share octets.
#[tactic(auto, using(crate::proofs::Octets::splice_within))]
pub fn copy_part(area: &mut [u8], from: usize, to: usize, n: usize)
    requires { (from + n ≤ length area.old) × (to + n ≤ length area.old) }
    ensures { area.new ≡ splice area.old to (cut from n area.old) }
{
    area.copy_within(from..from + n, to);
}
