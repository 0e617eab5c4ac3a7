// fresh: the whole area is zeroed, and the record of a cold bench is written with the profile given, and every parameter at its default.
ghost use Rattle.std.specs.Prelude.{◌≡◌, ◌++◌, ◌≤◌, length};
ghost use Rattle.octets.specs.Octets.{splice};
ghost use Rattle.state.specs.Profile.{profile_in};
ghost use Rattle.state.specs.Refusal.{number_in};
ghost use Rattle.area.specs.Map.{area_size};
ghost use Rattle.area.specs.Movers.{zeros};
ghost use Rattle.config.specs.Stored.{defaults};
ghost use Rattle.record.specs.Layout.{configured};
ghost use Rattle.record.specs.Claims.{saved};
ghost use Rattle.record.specs.Plan.{cold_record};
ghost use Rattle.model.specs.Effects.{fresh};
ghost use Rattle.model.specs.Bench.{rules};
ghost use Rattle.calls.specs.Outcome.{Lowest};
ghost use Rattle.calls.specs.calls.Fresh.{quiet_word, room_rules};
ghost use Rattle.views.specs.View.{view_of};

use area::{map, movers};
use record::{parameters, write};
use state::cold::cold_ends;
use state::kinds::{Profile, Record, Ring};
use state::profile;
use state::refusal::Refusal;

// Why a fresh is not taken: for areas and buffers of these lengths.
#[tactic(auto, unfolding(calls::specs::Outcome::lowest))]
pub fn refusal(area: usize, room: usize, m: &[u8]) -> Result<(), Refusal>
    ensures { Lowest (λ a. room_rules area room ++ rules (fresh m.now) (view_of a)) (number_in result) }
{
    Refusal::TooShort.when(area < map::AREA)?;
    Refusal::TooShort.when(room < map::MESSAGE)?;
    Refusal::OutsideLimit.when(!profile::profile_octets_ok(m))
}

// The record of a cold bench.
pub fn cold(p: Profile) -> Record
    ensures { result ≡ cold_record p }
{
    Record {
        ends: cold_ends(p),
        down: Ring { head: 0, count: 0 },
        up: Ring { head: 0, count: 0 },
    }
}

// A fresh that is taken.
#[tactic(auto, unfolding(calls::specs::Word::word_of, record::specs::Layout::bit))]
pub fn act(area: &mut [u8], m: &[u8]) -> u64
    requires { area_size ≤ length area.old }
    ensures { (result ≡ quiet_word) × (area.new ≡ saved (configured (splice area.old 0 (zeros area_size)) defaults) (cold_record (profile_in m.now))) }
{
    movers::clear(area);
    parameters::restore(area);
    write::encode(area, cold(profile::profile_in(m)));
    0
}
