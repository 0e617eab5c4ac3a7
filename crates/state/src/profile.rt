// A profile, its limits and its octets (document 01, "Profile, record and area"). That no octet is over 255 is not tested.
ghost use Rattle.std.specs.Prelude.{◌≡◌};
ghost use Rattle.state.specs.Profile.{credits_ok, terms_ok, profile_ok, terms_place, terms_in, profile_in, profile_octets_ok};

use crate::conn::UNMETERED;
use crate::kinds::{Profile, Terms};
use octets::{choose, octet_at};

// The least payload of a control message, at which commands are cut before an INIT response.
pub const LEAST_SIZE: u8 = 32;

// Credits are 1-8, or 255 for no flow control.
pub fn credits_ok(n: u8) -> bool
    ensures { result ≡ credits_ok n }
{
    ((1 <= n) & (n <= 8)) | (n == UNMETERED)
}

// Payloads are 1-255.
pub fn terms_ok(t: Terms) -> bool
    ensures { result ≡ terms_ok t }
{
    (1 <= t.payload) & credits_ok(t.credits)
}

// Most control payload is 32-255.
pub fn profile_ok(p: Profile) -> bool
    ensures { result ≡ profile_ok p }
{
    (LEAST_SIZE <= p.control)
        & terms_ok(p.two)
        & terms_ok(p.three)
        & terms_ok(p.four)
        & terms_ok(p.five)
        & terms_ok(p.fixed)
}

// The terms that stand at one place in five octets, at another in eleven.
fn terms_in(m: &[u8], five: u8, eleven: u8) -> Terms
    ensures { result ≡ terms_in m.now (terms_place m.now five eleven) }
{
    let at = choose(m.len() == 5, five, eleven) as usize;
    Terms {
        payload: octet_at(m, at),
        credits: octet_at(m, at + 1),
    }
}

// The profile that five or eleven octets are.
pub fn profile_in(m: &[u8]) -> Profile
    ensures { result ≡ profile_in m.now }
{
    Profile {
        control: octet_at(m, 0),
        two: terms_in(m, 1, 1),
        three: terms_in(m, 1, 3),
        four: terms_in(m, 1, 5),
        five: terms_in(m, 1, 7),
        fixed: terms_in(m, 3, 9),
    }
}

// Whether the octets are a profile within its limits.
pub fn profile_octets_ok(m: &[u8]) -> bool
    ensures { result ≡ profile_octets_ok m.now }
{
    matches!(m.len(), 5 | 11) & profile_ok(profile_in(m))
}
