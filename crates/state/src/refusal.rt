// Why a call is not taken, under the names of the C header, each with its number there.
ghost use Rattle.std.specs.Prelude.{◌≡◌};
ghost use Rattle.state.specs.Refusal.{number_of, when};

#[derive(Clone, Copy, PartialEq, Eq, Debug)]
pub enum Refusal {
    RecordDamaged = 1,
    TooShort = 2,
    OutsideLimit = 3,
    TooFewSlots = 4,
    Unanswered = 5,
    NotOpen = 6,
    InHand = 7,
    NothingToMove = 8,
    NoCredit = 9,
    Closing = 10,
    NotInThisState = 11,
    StoreFull = 12,
    WiresNotEmpty = 14,
    SendClosing = 15,
}

impl Refusal {
    // A rule of a call: where its test holds, it refuses the call.
    pub fn when(self, test: bool) -> Result<(), Refusal>
        ensures { result ≡ when self test }
    {
        if test { Err(self) } else { Ok(()) }
    }
}

// The word of a call that is not taken.
impl From<Refusal> for u64 {
    ghost from_gives = { λ e n. n ≡ number_of e };

    fn from(e: Refusal) -> u64 {
        e as u64
    }
}
