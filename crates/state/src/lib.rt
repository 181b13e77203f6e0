// The records of a code after an event, and what is read of them: gilrs's `GamepadState`.
#![tactic(auto)]

ghost use Rattle.std.specs.Prelude.{◌≡◌};
ghost use Rattle.rules.specs.State.{button_after, axis_after, writes_button, writes_axis, read_pressed, read_value, next_counter};

use choices::chosen;
use rules::{AxisData, ButtonData, Event, EventType};

// A record and whether it stands are two parameters, and no Option: `button_after`, `read_pressed` and `read_value` of State.antt take both, as the hub keeps both.

// ---- the button record: gilrs's `set_btn_pressed`, `set_btn_repeating`, `set_btn_value`, and since when it is held

// The button record after an event; the same one where the event writes none. Since when it is held (W-206): a press of a record that is not pressed, and a
// repeat that creates one, set it; all else keeps it, and a record that begins otherwise has 0.
#[tactic(auto, unfolding(rules::specs::State::button_after))]
pub fn button_after(e: Event, known: bool, b: ButtonData, counter: u64) -> ButtonData
    ensures { result ≡ button_after e known b counter }
{
    let kept = chosen(known, b.since, 0);
    match e.event {
        EventType::Pressed(_, _) => ButtonData {
            value: chosen(known, b.value, 1.0),
            stamp: e.time,
            counter,
            pressed: true,
            repeating: false,
            since: chosen(read_pressed(known, b), b.since, e.time),
        },
        EventType::Released(_, _) => ButtonData {
            value: chosen(known, b.value, 0.0),
            stamp: e.time,
            counter,
            pressed: false,
            repeating: false,
            since: kept,
        },
        EventType::Repeated(_, _) => ButtonData {
            value: chosen(known, b.value, 1.0),
            stamp: e.time,
            counter,
            pressed: chosen(known, b.pressed, true),
            repeating: true,
            since: chosen(known, b.since, e.time),
        },
        EventType::Changed(_, _, v) => ButtonData {
            value: v,
            stamp: e.time,
            counter,
            pressed: chosen(known, b.pressed, false),
            repeating: chosen(known, b.repeating, false),
            since: kept,
        },
        _ => b,
    }
}

// Whether an event writes a button record.
#[tactic(auto, unfolding(rules::specs::State::writes_button))]
pub fn writes_button(e: Event) -> bool
    ensures { result ≡ writes_button e }
{
    matches!(
        e.event,
        EventType::Pressed(..)
            | EventType::Released(..)
            | EventType::Repeated(..)
            | EventType::Changed(..)
    )
}

// ---- the axis record: gilrs's `update_axis`

// The axis record after an event; the same one where the event writes none.
#[tactic(auto, unfolding(rules::specs::State::axis_after))]
pub fn axis_after(e: Event, a: AxisData, counter: u64) -> AxisData
    ensures { result ≡ axis_after e a counter }
{
    match e.event {
        EventType::Axis(_, _, v) => AxisData {
            value: v,
            stamp: e.time,
            counter,
        },
        _ => a,
    }
}

// Whether an event writes an axis record.
#[tactic(auto, unfolding(rules::specs::State::writes_axis))]
pub fn writes_axis(e: Event) -> bool
    ensures { result ≡ writes_axis e }
{
    matches!(e.event, EventType::Axis(..))
}

// ---- reads

// pressed by code reads the button record alone: gilrs's `is_pressed`
#[tactic(auto, unfolding(rules::specs::State::read_pressed))]
pub fn read_pressed(known: bool, b: ButtonData) -> bool
    ensures { result ≡ read_pressed known b }
{
    known && b.pressed
}

// "Reading a code looks at axes first": gilrs's `value`
#[tactic(auto, unfolding(rules::specs::State::read_value))]
pub fn read_value(axisknown: bool, a: AxisData, buttonknown: bool, b: ButtonData) -> f32
    ensures { result ≡ read_value axisknown a buttonknown b }
{
    chosen(axisknown, a.value, chosen(buttonknown, b.value, 0.0))
}

// ---- "The counter goes from 2^62-1 to 0": gilrs's `inc`

const LAST_COUNTER: u64 = 0x3fff_ffff_ffff_ffff;

// The counter one up, or from 2^62 - 1 to 0.
#[tactic(auto, unfolding(rules::specs::State::next_counter))]
pub fn next_counter(n: u64) -> u64
    ensures { result ≡ next_counter n }
{
    if n < LAST_COUNTER { n + 1 } else { 0 }
}
