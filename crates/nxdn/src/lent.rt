// What lent octets hold, and what an operation leaves in them.
// Kept: a call's functions and a packet's are twins of five lines. One for both goes by a trait (its size, read, write and two laws) and two impls: more text.
ghost use Rattle.std.specs.Prelude.{◌≡◌, ◌≢◌, length, MatchOption, Result};
ghost use Rattle.answers.specs.declared.Answer.{Answer};
ghost use Rattle.calls.specs.declared.call.Call.{Call};
ghost use Rattle.hearing.specs.Hearing.{call_of};
ghost use Rattle.held.specs.Call as held_call;
ghost use Rattle.held.specs.Packet as held_packet;
ghost use Rattle.nxdn.specs.Lent.{left_by};
ghost use Rattle.nxdn.specs.Interface.{call_left};

use crate::WRONG_LENGTH;
use answers::Answer;
use calls::call::Call;
use data::packet::Packet;
use hearing::{Hearing, call_of, carry};
use held::call::CALL_OCTETS;
use held::packet::PACKET_OCTETS;

// The call in lent octets, or none where they are of another length.
pub(crate) fn call_in(octets: &[u8]) -> Option<Hearing>
    ensures { MatchOption result (length octets.now ≢ held_call.call_octets) (λ h. (length octets.now ≡ held_call.call_octets) × (h ≡ held_call.hearing_in octets.now)) }
{
    match <&[u8; CALL_OCTETS]>::try_from(octets) {
        Ok(call) => Some(held::call::read(call)),
        Err(_) => None,
    }
}

pub(crate) fn packet_in(octets: &[u8]) -> Option<Packet>
    ensures { MatchOption result (length octets.now ≢ held_packet.packet_octets) (λ p. (length octets.now ≡ held_packet.packet_octets) × (p ≡ held_packet.packet_in octets.now)) }
{
    match <&[u8; PACKET_OCTETS]>::try_from(octets) {
        Ok(packet) => Some(held::packet::read(packet)),
        Err(_) => None,
    }
}

// An operation on the call in lent octets, and what it kept carried over. Where it refuses, they stay as they are.
pub(crate) fn operate<F: FnOnce(Call) -> Result<Call, Answer>>(call: &mut [u8], operation: F) -> u8
    requires { F.IsAlwaysCallable operation }
    ensures short { length call.old ≢ held_call.call_octets → (result ≡ 2) × (call.new ≡ call.old) }
    ensures kept { length call.old ≡ held_call.call_octets → (r : Result Call Answer) × F.post operation (call_of (held_call.hearing_in call.old)) r × ((result, call.new) ≡ call_left call.old r) }
{
    let Some(before) = call_in(call) else {
        return WRONG_LENGTH;
    };
    match operation(call_of(before)) {
        Ok(after) => {
            held::call::write(call, carry(before, Ok(after)));
            0
        }
        Err(answer) => answer.number(),
    }
}

// What an operation on a packet answered, into its octets. Where it refused, they stay as they are.
pub(crate) fn keep_packet(octets: &mut [u8], done: Result<Packet, Answer>) -> u8
    requires { length octets.old ≡ held_packet.packet_octets }
    ensures { (result, octets.new) ≡ left_by held_packet.octets_of octets.old done }
{
    match done {
        Ok(after) => {
            held::packet::write(octets, after);
            0
        }
        Err(answer) => answer.number(),
    }
}
