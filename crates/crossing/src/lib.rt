// The answers of the public calls as plain structs that C and Rust can hold: an enum cannot cross, so each struct has the refusal's number, 0 where the call was
// served, and the values, 0 or false where there is none. Proved: every field is what specs/Crossing.antt says of the answer; that this is what the law book's
// `*Says` says is closed by computation there.
#![tactic(auto)]

ghost use Rattle.std.specs.Prelude.{◌≡◌};
ghost use Rattle.crossing.specs.Crossing.{refusal_of, pad_of, truth_of, value_of, number_of};
ghost use Rattle.crossing.specs.Crossing.{button_of, axis_of, report_of, tilted_pair_of, due_of, due_bytes, down_of};

use hub::Head;
use numbers::{Tilt, Tilted};
use rules::{AxisData, ButtonData, Event, PadDown, PumpAnswer, Refusal};

// why a pump that was not refused stopped, in 01's order
const DRAINED: u8 = 1;

const FULL: u8 = 2;

const PAUSED: u8 = 3;

// ---- the answers

// A registered pad's number.
#[repr(C)]
#[derive(Clone, Copy, Default)]
pub struct Pad {
    pub refusal: u8,
    pub pad: u8,
}

#[repr(C)]
#[derive(Clone, Copy, Default)]
pub struct Truth {
    pub refusal: u8,
    pub is: bool,
}

// `known` is false where there is no such value.
#[repr(C)]
#[derive(Clone, Copy, Default)]
pub struct Value {
    pub refusal: u8,
    pub known: bool,
    pub value: f32,
}

// A name's number or a code.
#[repr(C)]
#[derive(Clone, Copy, Default)]
pub struct Number {
    pub refusal: u8,
    pub known: bool,
    pub number: u32,
}

#[repr(C)]
#[derive(Clone, Copy, Default)]
pub struct Button {
    pub refusal: u8,
    pub known: bool,
    pub pressed: bool,
    pub repeating: bool,
    pub value: f32,
    pub stamp: u64,
    pub counter: u64,
    pub since: u64,
}

#[repr(C)]
#[derive(Clone, Copy, Default)]
pub struct Axis {
    pub refusal: u8,
    pub known: bool,
    pub value: f32,
    pub stamp: u64,
    pub counter: u64,
}

// What is down on a pad: how many of its button records are pressed, and whether an axis element's is.
#[repr(C)]
#[derive(Clone, Copy, Default)]
pub struct Down {
    pub refusal: u8,
    pub count: u8,
    pub axis: bool,
}

// What a pump did: why it stopped (0 where it was refused), which of three the deadzone calculation was for its last axis event that met a threshold, the place in
// the batch, the events written and the steps made.
#[repr(C)]
#[derive(Clone, Copy)]
pub struct Report {
    pub refusal: u8,
    pub reason: u8,
    pub tilt: u8,
    pub place: usize,
    pub events: usize,
    pub steps: usize,
}

// The deadzone calculation: the pair, and which of the three it was.
#[repr(C)]
#[derive(Clone, Copy)]
pub struct TiltedPair {
    pub x: f32,
    pub y: f32,
    pub tilt: u8,
}

// Whether a repeat is due; its event's bytes stand in the buffer that was lent.
#[repr(C)]
#[derive(Clone, Copy, Default)]
pub struct Due {
    pub refusal: u8,
    pub due: bool,
}

// ---- the head after a call that changes it, with its answer

#[repr(C)]
#[derive(Clone, Copy)]
pub struct Done {
    pub head: Head,
    pub refusal: u8,
}

#[repr(C)]
#[derive(Clone, Copy)]
pub struct Registered {
    pub head: Head,
    pub pad: Pad,
}

#[repr(C)]
#[derive(Clone, Copy)]
pub struct Pumped {
    pub head: Head,
    pub report: Report,
}

// ---- from the calls' answers

// The refusal's number, 0 where the call was done.
pub fn refusal_of(answer: Result<(), Refusal>) -> u8
    ensures { result ≡ refusal_of answer }
{
    match answer {
        Ok(()) => 0,
        Err(refusal) => refusal.number,
    }
}

// A registered pad.
pub fn pad_of(answer: Result<u8, Refusal>) -> Pad
    ensures { result ≡ pad_of answer }
{
    match answer {
        Ok(pad) => Pad { refusal: 0, pad },
        Err(refusal) => Pad {
            refusal: refusal.number,
            ..Pad::default()
        },
    }
}

// A yes or no.
pub fn truth_of(answer: Result<bool, Refusal>) -> Truth
    ensures { result ≡ truth_of answer }
{
    match answer {
        Ok(is) => Truth { refusal: 0, is },
        Err(refusal) => Truth {
            refusal: refusal.number,
            ..Truth::default()
        },
    }
}

// A float, of an element or of a threshold.
pub fn value_of(answer: Result<Option<f32>, Refusal>) -> Value
    ensures { result ≡ value_of answer }
{
    match answer {
        Ok(Some(value)) => Value {
            refusal: 0,
            known: true,
            value,
        },
        Ok(None) => Value::default(),
        Err(refusal) => Value {
            refusal: refusal.number,
            ..Value::default()
        },
    }
}

// A name's number or a code.
pub fn number_of(answer: Result<Option<u32>, Refusal>) -> Number
    ensures { result ≡ number_of answer }
{
    match answer {
        Ok(Some(number)) => Number {
            refusal: 0,
            known: true,
            number,
        },
        Ok(None) => Number::default(),
        Err(refusal) => Number {
            refusal: refusal.number,
            ..Number::default()
        },
    }
}

// A button's record.
pub fn button_of(answer: Result<Option<ButtonData>, Refusal>) -> Button
    ensures { result ≡ button_of answer }
{
    match answer {
        Ok(Some(b)) => Button {
            refusal: 0,
            known: true,
            pressed: b.pressed,
            repeating: b.repeating,
            value: b.value,
            stamp: b.stamp,
            counter: b.counter,
            since: b.since,
        },
        Ok(None) => Button::default(),
        Err(refusal) => Button {
            refusal: refusal.number,
            ..Button::default()
        },
    }
}

// An axis's record.
pub fn axis_of(answer: Result<Option<AxisData>, Refusal>) -> Axis
    ensures { result ≡ axis_of answer }
{
    match answer {
        Ok(Some(a)) => Axis {
            refusal: 0,
            known: true,
            value: a.value,
            stamp: a.stamp,
            counter: a.counter,
        },
        Ok(None) => Axis::default(),
        Err(refusal) => Axis {
            refusal: refusal.number,
            ..Axis::default()
        },
    }
}

// What is down on a pad.
pub fn down_of(answer: Result<PadDown, Refusal>) -> Down
    ensures { result ≡ down_of answer }
{
    match answer {
        Ok(down) => Down {
            refusal: 0,
            count: down.count,
            axis: down.axis,
        },
        Err(refusal) => Down {
            refusal: refusal.number,
            ..Down::default()
        },
    }
}

// What a pump did, and its report.
pub fn report_of(answer: PumpAnswer, tilt: Tilt) -> Report
    ensures { result ≡ report_of answer tilt }
{
    let (refusal, reason, place, events, steps) = match answer {
        PumpAnswer::Drained(place, events, steps) => (0, DRAINED, place, events, steps),
        PumpAnswer::Full(place, events, steps) => (0, FULL, place, events, steps),
        PumpAnswer::Paused(place, events, steps) => (0, PAUSED, place, events, steps),
        PumpAnswer::Refused(refusal, place, events, steps) => (refusal, 0, place, events, steps),
    };
    Report {
        refusal,
        reason,
        tilt: tilt as u8,
        place,
        events,
        steps,
    }
}

// The deadzone calculation.
pub fn tilted_of(answer: Tilted) -> TiltedPair
    ensures { result ≡ tilted_pair_of answer }
{
    TiltedPair {
        x: answer.pair.x,
        y: answer.pair.y,
        tilt: answer.tilt as u8,
    }
}

// The repeat that is due, with its event's 22 bytes in the buffer; where none is, the buffer stays.
pub fn due_of(answer: Result<Option<Event>, Refusal>, event: &mut [u8; 22]) -> Due
    ensures { (result ≡ due_of answer) × (event.new ≡ due_bytes answer event.old) }
{
    match answer {
        Ok(Some(e)) => {
            wire::write_event(event, e);
            Due {
                refusal: 0,
                due: true,
            }
        }
        Ok(None) => Due::default(),
        Err(refusal) => Due {
            refusal: refusal.number,
            due: false,
        },
    }
}
