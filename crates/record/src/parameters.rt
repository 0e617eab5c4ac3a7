// The values of the configuration parameters, in their octets behind the record. A call that sets or shows none leaves them alone.
ghost use Rattle.std.specs.Prelude.{◌≡◌, ◌≤◌, length};
ghost use Rattle.area.specs.Map.{area_size};
ghost use Rattle.config.specs.Stored as values;
ghost use Rattle.record.specs.Layout.{config_octets, configured};

use crate::places::{CONFIG_AT, CONFIG_END};
use config::stored::defaults;
use config::table::CONFIG_SIZE;

// The values, as a part of the area.
pub fn values_of<'a>(area: &'a [u8]) -> &'a [u8; CONFIG_SIZE]
    requires { area_size ≤ length area.now }
    ensures { result.now ≡ config_octets area.now }
{
    area[CONFIG_AT..CONFIG_END].first_chunk().unwrap()
}

// Writes values b in place of those that were there.
pub fn put_values(area: &mut [u8], b: &[u8; CONFIG_SIZE])
    requires { area_size ≤ length area.old }
    ensures { area.new ≡ configured area.old b.now }
{
    octets::put(area, CONFIG_AT, b);
}

// All values by default.
pub fn restore(area: &mut [u8])
    requires { area_size ≤ length area.old }
    ensures { area.new ≡ configured area.old values.defaults }
{
    put_values(area, &defaults());
}
