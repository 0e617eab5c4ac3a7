// What an event of the air does: to the controller's numbers, to connection 0, and to the endpoint's message.
ghost use Rattle.std.specs.Prelude.{◌≡◌};
ghost use Rattle.air.specs.Air.{listed_after, moved_to, controller_aired, conns_aired, endpoint_aired};

use crate::events::{Aired, Listing};
use state::conn::{controller_closed_at, controller_opened_at, empty_hand, hand_with, terms_of};
use state::kinds::{Controller, Counts, Hand, Pairs, Profile, Rf};
use state::radio::{added_to, started_with};

// The list of pairs after an event.
fn listed_after(ps: Pairs, l: Listing) -> Pairs
    ensures { result ≡ listed_after ps l }
{
    match l {
        Listing::Keeps => ps,
        Listing::Starts(p) => started_with(p),
        Listing::Adds(p) => added_to(ps, p),
    }
}

// The controller after an event.
#[tactic(auto, unfolding(crate::specs::Air::controller_aired))]
pub fn controller_aired(k: Controller, a: Option<Aired>) -> Controller
    ensures { result ≡ controller_aired k a }
{
    match a {
        Some(Aired::Goes(rf, l) | Aired::Activates(rf, l)) => Controller {
            rf,
            pairs: listed_after(k.pairs, l),
            ..k
        },
        Some(Aired::Ends(rf)) => Controller { rf, ..k },
        None | Some(Aired::Speaks) => k,
    }
}

// The connections after an event: connection 0 opens with an activation and closes with a deactivation.
#[tactic(auto, unfolding(crate::specs::Air::conns_aired))]
pub fn conns_aired(p: Profile, conns: [Counts; 5], a: Option<Aired>) -> [Counts; 5]
    ensures { result ≡ conns_aired p conns a }
{
    match a {
        Some(Aired::Activates(_, _)) => controller_opened_at(conns, 0, terms_of(p, 0)),
        Some(Aired::Ends(_)) => controller_closed_at(conns, 0),
        None | Some(Aired::Goes(_, _) | Aired::Speaks) => conns,
    }
}

// The endpoint's message after an event, n being the octets of the one that it brings: connection 0 opens and closes with
// none in hand.
#[tactic(auto, unfolding(crate::specs::Air::endpoint_aired))]
pub fn endpoint_aired(h: Hand, a: Option<Aired>, n: usize) -> Hand
    ensures { result ≡ endpoint_aired h a n }
{
    match a {
        None | Some(Aired::Goes(_, _)) => h,
        Some(Aired::Activates(_, _) | Aired::Ends(_)) => empty_hand(),
        Some(Aired::Speaks) => hand_with(n),
    }
}
