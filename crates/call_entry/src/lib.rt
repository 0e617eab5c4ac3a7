// What every call but fresh does first: the area's record is loaded and judged, and the message buffer must have room for a
// message.
#![tactic(auto)]

ghost use Rattle.calls.specs.Outcome.{Enters};

use area::map;
use record::load::load;
use state::kinds::Record;
use state::refusal::Refusal;

#[tactic(auto, unfolding(record::specs::Load::load_of, calls::specs::Outcome::lowest))]
pub fn enter(area: &[u8], room: usize) -> Result<Record, Refusal>
    ensures { Enters area.now room result }
{
    let r = load(area)?;
    Refusal::TooShort.when(room < map::MESSAGE)?;
    Ok(r)
}
