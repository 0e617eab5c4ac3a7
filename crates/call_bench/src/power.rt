// power: both ends cold, both wires empty, every parameter at its default, with the profile that is there.
ghost use Rattle.std.specs.Prelude.{◌≡◌, ◌≤◌, length};
ghost use Rattle.area.specs.Map.{area_size};
ghost use Rattle.config.specs.Stored.{defaults};
ghost use Rattle.record.specs.Layout.{configured};
ghost use Rattle.record.specs.Claims.{saved};
ghost use Rattle.record.specs.Plan.{cold_record};
ghost use Rattle.calls.specs.calls.Fresh.{quiet_word};

use crate::fresh::cold;
use record::{parameters, write};
use state::kinds::Record;

// A power that is taken; no rule of its own refuses one.
#[tactic(auto, unfolding(calls::specs::Word::word_of, record::specs::Layout::bit))]
pub fn act(area: &mut [u8], r: Record) -> u64
    requires { area_size ≤ length area.old }
    ensures { (result ≡ quiet_word) × (area.new ≡ saved (configured area.old defaults) (cold_record r.ends.profile)) }
{
    parameters::restore(area);
    write::encode(area, cold(r.ends.profile));
    0
}
