// What every call does first: the record out of an area.
ghost use Rattle.std.specs.Prelude.{◌≡◌};
ghost use Rattle.record.specs.Load.{blank, load_of};

use crate::judge::judge;
use crate::places;
use crate::read::{decode, record_of};
use area::map::AREA;
use state::kinds::Record;
use state::refusal::Refusal;

// Why an area is not gone on with, and what its octets hold all the same: an area too short holds no octet of a record.
#[derive(Clone, Copy)]
pub struct Unsound {
    pub refusal: Refusal,
    pub record: Record,
}

// The rule alone, for a call that is not taken.
impl From<Unsound> for Refusal {
    ghost from_gives = { λ e r. r ≡ e.refusal };

    fn from(e: Unsound) -> Refusal {
        e.refusal
    }
}

// The record of no octets.
fn blank() -> Record
    ensures { result ≡ blank }
{
    record_of(&[0; places::END])
}

// An area too short has no record to look at, and a record that cannot be is refused.
#[tactic(auto, unfolding(crate::specs::Load::load_of))]
pub fn load(area: &[u8]) -> Result<Record, Unsound>
    ensures { result ≡ load_of area.now }
{
    if area.len() < AREA {
        return Err(Unsound {
            refusal: Refusal::TooShort,
            record: blank(),
        });
    }
    let record = decode(area);
    if !judge(area, record) {
        return Err(Unsound {
            refusal: Refusal::RecordDamaged,
            record,
        });
    }
    Ok(record)
}
