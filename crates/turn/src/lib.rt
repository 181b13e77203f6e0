// One turn of the pump's loop, in small decisions. Each function equals its definition for every input.
#![tactic(auto)]

ghost use Rattle.std.specs.Prelude.{◌≡◌, true, ◌&&◌, ◌+◌, ◌-◌, ◌≤◌, ◌<◌, ◌%◌, eqb};
ghost use Rattle.rules.specs.Names.{buffer_limit};
ghost use Rattle.rules.specs.Hub.{longer_of, slot_at};
ghost use Rattle.rules.specs.Step.{connected_after, renamed_after, marks_cleared, head_after};
ghost use Rattle.rules.specs.Pump.{stop_of, stop_answer};
ghost use Rattle.turn.specs.Turn.{RingIs};

use rules::{EVENT_SIZE, KIND_CONNECTED, KIND_DISCONNECTED, PumpAnswer};

const QUEUE_ROOM: u8 = 64;

// reasons to stop, by number: the definition stop_of of rules/specs/Pump and the theorems on it speak of the number
const GO_ON: u8 = 0;

const DRAINED: u8 = 1;

const FULL: u8 = 2;

const PAUSED: u8 = 3;

// ---- before a step

// Whether there is nothing to take: one test of a sum, which is cheaper than two.
fn nothing(waiting: u8, rest: usize) -> bool
    requires { rest ≤ buffer_limit }
    ensures { result ≡ (eqb waiting 0 && eqb rest 0) }
{
    usize::from(waiting) + rest == 0
}

// Drained, Full, Paused, in this order, or to go on.
#[tactic(auto, unfolding(rules::specs::Pump::stop_of))]
pub fn stop(waiting: u8, rest: usize, room: usize, left: usize) -> u8
    requires { rest ≤ buffer_limit }
    ensures { result ≡ stop_of waiting rest room left }
{
    if nothing(waiting, rest) {
        DRAINED
    } else if room < EVENT_SIZE {
        FULL
    } else if left == 0 {
        PAUSED
    } else {
        GO_ON
    }
}

// The answer for a stop's number.
pub fn stop_answer(why: u8, place: usize, events: usize, steps: usize) -> PumpAnswer
    ensures { result ≡ stop_answer why place events steps }
{
    match why {
        DRAINED => PumpAnswer::Drained(place, events, steps),
        FULL => PumpAnswer::Full(place, events, steps),
        _ => PumpAnswer::Paused(place, events, steps),
    }
}

// ---- the marks of a taken record

// Connected sets the mark, Disconnected takes it off.
#[tactic(auto, unfolding(rules::specs::Step::connected_after))]
pub fn connect(connected: &mut [bool; 4], p: u8, kind: u8)
    ensures { connected.new ≡ connected_after connected.old p kind }
{
    if kind == KIND_CONNECTED {
        pad::mark_pad(connected, p, true);
    } else if kind == KIND_DISCONNECTED {
        pad::mark_pad(connected, p, false);
    }
}

// Connected forgets a rename.
#[tactic(auto, unfolding(rules::specs::Step::renamed_after))]
pub fn forget(renamed: &mut [bool; 4], p: u8, kind: u8)
    ensures { renamed.new ≡ renamed_after renamed.old p kind }
{
    if kind == KIND_CONNECTED {
        pad::mark_pad(renamed, p, false);
    }
}

// How many marks of a run Connected takes off.
#[tactic(auto, unfolding(rules::specs::Step::marks_cleared))]
pub fn marks_cleared(kind: u8, n: usize) -> usize
    ensures { result ≡ marks_cleared kind n }
{
    if kind == KIND_CONNECTED { n } else { 0 }
}

// ---- the ring

// Where the front stands.
pub fn front(head: u8) -> usize
    ensures { RingIs (head % 64) result }
{
    usize::from(head % QUEUE_ROOM)
}

// The ring's front once a step took it; the same where nothing waited.
#[tactic(auto, unfolding(rules::specs::Step::head_after))]
pub fn head_after(head: u8, waiting: u8) -> u8
    ensures { result ≡ head_after head waiting }
{
    if 0 < waiting {
        (head % QUEUE_ROOM + 1) % QUEUE_ROOM
    } else {
        head
    }
}

// How many wait once the front is taken; 0 where none did.
pub fn fewer(waiting: u8) -> u8
    ensures { result ≡ waiting - 1 }
{
    waiting.saturating_sub(1)
}

// Where the next event goes.
pub fn free(head: u8, waiting: u8) -> usize
    ensures { RingIs (slot_at head waiting) result }
{
    (usize::from(head) + usize::from(waiting)) % 64
}

// How many wait with one more; the ring holds 64.
#[tactic(auto, unfolding(rules::specs::Hub::longer_of))]
pub fn longer(waiting: u8) -> u8
    ensures { result ≡ longer_of waiting }
{
    if waiting < QUEUE_ROOM {
        waiting + 1
    } else {
        QUEUE_ROOM
    }
}
