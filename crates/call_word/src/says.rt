// What the word says that a call answered: a function for each of its places, which are the C interface's.
ghost use Rattle.std.specs.Prelude.{◌≡◌};
ghost use Rattle.record.specs.Layout.{bit};
ghost use Rattle.calls.specs.Word.{number_of, answer_in, dropped_in, handed_in, length_in, down_in, up_in, rfu_in, moves_in};

use crate::{DOWN_UNIT, DROP_BIT, HANDED_BIT, LENGTH_UNIT, RFU_UNIT, UP_UNIT};

// The number of a refusal, 0 for a call that is taken.
#[tactic(auto, using(calls::proofs::Words::number_answer))]
pub fn answer(w: u64) -> u8
    ensures { result ≡ number_of (answer_in w) }
{
    (w % 256) as u8
}

// The drop flag, 0 or 1.
#[tactic(auto, unfolding(calls::specs::Word::dropped_in), using(calls::proofs::Words::bit_test))]
pub fn dropped(w: u64) -> u8
    ensures { result ≡ bit (dropped_in w) }
{
    (w / DROP_BIT % 2) as u8
}

// Whether a message was handed out.
#[tactic(auto, unfolding(calls::specs::Word::handed_in))]
pub fn handed(w: u64) -> bool
    ensures { result ≡ handed_in w }
{
    w / HANDED_BIT % 2 == 1
}

// Its length.
#[tactic(auto, unfolding(calls::specs::Word::length_in))]
pub fn length(w: u64) -> usize
    ensures { result ≡ length_in w }
{
    (w / LENGTH_UNIT % 65536) as usize
}

// Packets put on the down wire.
#[tactic(auto, unfolding(calls::specs::Word::down_in))]
pub fn down(w: u64) -> u8
    ensures { result ≡ down_in w }
{
    (w / DOWN_UNIT % 256) as u8
}

// Packets put on the up wire.
#[tactic(auto, unfolding(calls::specs::Word::up_in))]
pub fn up(w: u64) -> u8
    ensures { result ≡ up_in w }
{
    (w / UP_UNIT % 256) as u8
}

// The reserved bits of the packet taken.
#[tactic(auto, unfolding(calls::specs::Word::rfu_in))]
pub fn rfu(w: u64) -> u8
    ensures { result ≡ rfu_in w }
{
    (w / RFU_UNIT % 256) as u8
}

// How many moves Run to rest made.
#[tactic(auto, unfolding(calls::specs::Word::moves_in))]
pub fn moves(w: u64) -> u64
    ensures { result ≡ moves_in w }
{
    w / DOWN_UNIT % 65536
}
