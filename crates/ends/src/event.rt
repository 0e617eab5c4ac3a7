// An event of the RF field (document 01, "The air").
ghost use Rattle.std.specs.Prelude.{◌≡◌};
ghost use Rattle.ends.specs.Steps.{met};

use air::events::{Aired, Event};
use air::{effects, events};
use state::kinds::Ends;

// The event, what the controller makes of it, and both ends' numbers after it.
#[derive(Clone, Copy)]
pub struct Met {
    pub event: Option<Event>,
    pub aired: Option<Aired>,
    pub next: Ends,
}

// What the controller makes of an event's octets: the kind, then, from an endpoint that speaks, its message.
pub fn meet(e: Ends, m: &[u8]) -> Met
    ensures { result ≡ met e m.now }
{
    let event = events::event_of(m);
    let aired = events::judge_event(e.controller.rf, e.controller.pairs, event);
    let next = Ends {
        controller: effects::controller_aired(e.controller, aired),
        endpoint: effects::endpoint_aired(e.endpoint, aired, m.len().saturating_sub(1)),
        conns: effects::conns_aired(e.profile, e.conns, aired),
        ..e
    };
    Met { event, aired, next }
}
