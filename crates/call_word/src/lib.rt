// The word that a call answers: its places, and how a call that is taken makes it. What it says is read in `says`. Its bits are
// defined in calls/specs.
#![tactic(auto)]

pub mod says;

ghost use Rattle.std.specs.Prelude.{◌≡◌, true, false, ◌<◌};
ghost use Rattle.calls.specs.Word.{word_of, word_telling};

use octets::choose;

// What one of each counts for: the C interface has these places. Below the drop flag stands the number of a refusal.
pub const DROP_BIT: u64 = 256;

pub const HANDED_BIT: u64 = 512;

pub const LENGTH_UNIT: u64 = 65536;

pub const DOWN_UNIT: u64 = 4294967296;

pub const UP_UNIT: u64 = 1099511627776;

pub const RFU_UNIT: u64 = 281474976710656;

// All of them. What is counted in the place of packets put down may reach into that of packets put up. A length is a usize
// below 65536, and no u16, in these contracts: it is what callers have (`hands_out` of a packet's len()), and they are public. Nor are
// handed and len one Option: the word says a length where nothing is handed out, too (`word_of`).
#[tactic(auto, unfolding(calls::specs::Word::word_of, record::specs::Layout::bit), using(calls::proofs::Words::bit_least))]
fn whole(dropped: bool, handed: bool, len: usize, down: usize, up: usize) -> u64
    requires { (len < 65536) × (down < 65536) × (up < 256) }
    ensures { result ≡ word_of dropped handed len down up }
{
    dropped as u64 * DROP_BIT
        + handed as u64 * HANDED_BIT
        + len as u64 * LENGTH_UNIT
        + down as u64 * DOWN_UNIT
        + up as u64 * UP_UNIT
}

// Of a call that puts packets on the up wire alone: the drop flag, whether a message was handed out, its length, and how
// many packets.
pub fn answer(dropped: bool, handed: bool, len: usize, up: usize) -> u64
    requires { (len < 65536) × (up < 256) }
    ensures { result ≡ word_of dropped handed len 0 up }
{
    whole(dropped, handed, len, 0, up)
}

// Of a call that puts none.
pub fn quiet(dropped: bool, handed: bool, len: usize) -> u64
    requires { len < 65536 }
    ensures { result ≡ word_of dropped handed len 0 0 }
{
    answer(dropped, handed, len, 0)
}

// Of a call that drops its packet.
#[tactic(auto, unfolding(calls::specs::Word::word_of, record::specs::Layout::bit))]
pub fn drops() -> u64
    ensures { result ≡ word_of true false 0 0 0 }
{
    DROP_BIT
}

// Of a call that hands out a message.
#[tactic(auto, unfolding(calls::specs::Word::word_of, record::specs::Layout::bit))]
pub fn hands_out(len: usize) -> u64
    requires { len < 65536 }
    ensures { result ≡ word_of false true len 0 0 }
{
    HANDED_BIT + len as u64 * LENGTH_UNIT
}

// Of a call that puts n packets on the down wire.
#[tactic(auto, unfolding(calls::specs::Word::word_of, record::specs::Layout::bit))]
pub fn puts_down(n: usize) -> u64
    requires { n < 256 }
    ensures { result ≡ word_of false false 0 n 0 }
{
    n as u64 * DOWN_UNIT
}

// Of a call that puts n packets on the up wire.
#[tactic(auto, unfolding(calls::specs::Word::word_of, record::specs::Layout::bit))]
pub fn puts_up(n: usize) -> u64
    requires { n < 256 }
    ensures { result ≡ word_of false false 0 0 n }
{
    n as u64 * UP_UNIT
}

// The word with the reserved bits of the packet that the call took: none where the drop flag is set.
#[tactic(auto, unfolding(calls::specs::Word::word_telling, calls::specs::Word::dropped_in))]
pub fn telling(rfu: u8, w: u64) -> u64
    ensures { result ≡ word_telling rfu w }
{
    let told = choose(w / DROP_BIT % 2 == 1, 0, rfu);
    w % RFU_UNIT + told as u64 * RFU_UNIT
}

// Of Run to rest: the drop flag of any move, the message of the last, and how many moves there were.
pub fn ran(dropped: bool, handed: bool, len: usize, moves: usize) -> u64
    requires { (len < 65536) × (moves < 65536) }
    ensures { result ≡ word_of dropped handed len moves 0 }
{
    whole(dropped, handed, len, moves, 0)
}
