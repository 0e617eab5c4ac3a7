// A packet that is read and nothing else, as going up: its octets are given, and no area.
ghost use Rattle.std.specs.Prelude.{◌≡◌};
ghost use Rattle.calls.specs.Read.{found_in, found_word, read_call};

use area::map;
use packets::{Header, Way};

// The word of what the reader found: the drop flag, or the reserved bits.
#[tactic(auto, unfolding(calls::specs::Word::word_of, record::specs::Layout::bit), using(calls::proofs::Words::told_none))]
fn found(got: Option<(Header, usize)>) -> u64
    ensures { result ≡ found_word (found_in got) }
{
    let Some((h, _)) = got else {
        return call_word::drops();
    };
    call_word::telling(packets::rfu(Way::Up, h), 0)
}

// Reads the octets. More than the longest packet has are 3.
#[tactic(auto, unfolding(calls::specs::Read::found_of))]
pub fn read(octets: &[u8]) -> u64
    ensures { result ≡ read_call octets.now }
{
    if map::SLOT < octets.len() {
        return 3;
    }
    found(packets::read(octets))
}
