// What a raw record gives: gilrs's `next_event_priv`, on the record, the element's present name, what the hub keeps of it, whether its code reads
// pressed, and the hub's settings.
#![tactic(auto)]

ghost use Rattle.std.specs.Prelude.{◌≡◌, true, not, ◌&&◌, ◌||◌, eqb};
ghost use Rattle.std.specs.Float.Ieee.{le};
ghost use Rattle.numbers.specs.Constants.{within_of};
ghost use Rattle.rules.specs.Names.{is_y};
ghost use Rattle.rules.specs.Forms.{kind_pressed, kind_released};
ghost use Rattle.rules.specs.Dispatch as law;

use rules::{
    Dispatched, Element, Event, EventType, KIND_AXIS, KIND_CONNECTED, KIND_PRESSED, KIND_RELEASED,
    RawRecord,
};

// ---- an event of the record's pad and time, alone or with another queued

// Two fields say what follows, a flag and the event: so the definitions single and double of rules/specs/Dispatch have it.

fn from(r: RawRecord, t: EventType) -> Event
    ensures { result ≡ law.from r t }
{
    Event {
        pad: r.pad,
        time: r.time,
        event: t,
    }
}

fn single(event: Event) -> Dispatched
    ensures { result ≡ law.single event }
{
    Dispatched {
        event,
        follows: false,
        next: event,
    }
}

fn double(event: Event, next: Event) -> Dispatched
    ensures { result ≡ law.double event next }
{
    Dispatched {
        event,
        follows: true,
        next,
    }
}

// ---- names: "unnamed elements are Unknown"

// The name that an event of a button shows: a button's own, else Unknown.
#[tactic(auto, unfolding(rules::specs::Dispatch::button_name))]
pub fn button_name(name: u8) -> u8
    ensures { result ≡ law.button_name name }
{
    if names::is_button(name) {
        name
    } else {
        names::UNKNOWN_BUTTON
    }
}

#[tactic(auto, unfolding(rules::specs::Dispatch::axis_name))]
fn axis_name(name: u8) -> u8
    ensures { result ≡ law.axis_name name }
{
    if names::is_axis(name) {
        name
    } else {
        names::UNKNOWN_AXIS
    }
}

// ---- a button element

fn press_type(on: bool, name: u8, code: u32) -> EventType
    ensures { result ≡ law.press_type on name code }
{
    if on {
        EventType::Pressed(name, code)
    } else {
        EventType::Released(name, code)
    }
}

fn amount(on: bool) -> f32
    ensures { result ≡ law.amount on }
{
    if on { 1.0 } else { 0.0 }
}

// "Press of a button element: Pressed out, Changed 1.0 queued; release the same with 0.0; .. an element named as an axis gives that axis 1.0 or 0.0"
#[tactic(auto, unfolding(rules::specs::Dispatch::press_gives))]
fn press(r: RawRecord, name: u8, on: bool) -> Dispatched
    ensures { result ≡ law.press_gives r name on }
{
    let code = r.code;
    let value = amount(on);
    if names::is_axis(name) {
        single(from(r, EventType::Axis(name, code, value)))
    } else {
        let button = button_name(name);
        double(
            from(r, press_type(on, button, code)),
            from(r, EventType::Changed(button, code, value)),
        )
    }
}

// ---- an axis element

// "at or above the pressed threshold and not pressed"
fn presses(value: f32, held: bool, pressed: f32) -> bool
    ensures { result ≡ (le pressed value && not held) }
{
    pressed <= value && !held
}

// "at or below released and pressed"
fn releases(value: f32, held: bool, released: f32) -> bool
    ensures { result ≡ (le value released && held) }
{
    value <= released && held
}

#[tactic(auto, unfolding(rules::specs::Dispatch::trigger_gives))]
fn trigger(
    r: RawRecord,
    name: u8,
    value: f32,
    held: bool,
    pressed: f32,
    released: f32,
) -> Dispatched
    ensures { result ≡ law.trigger_gives r name value held pressed released }
{
    let code = r.code;
    let changed = from(r, EventType::Changed(name, code, value));
    if presses(value, held, pressed) {
        double(from(r, EventType::Pressed(name, code)), changed)
    } else if releases(value, held, released) {
        double(from(r, EventType::Released(name, code)), changed)
    } else {
        single(changed)
    }
}

// whether the axis is one that the hub turns over
fn turned(reversed: bool, axis: u8) -> bool
    ensures { result ≡ (reversed && is_y axis) }
{
    reversed && names::is_y(axis)
}

#[tactic(auto, unfolding(rules::specs::Dispatch::move_gives))]
fn moved(
    r: RawRecord,
    name: u8,
    element: Element,
    held: bool,
    pressed: f32,
    released: f32,
    reversed: bool,
) -> Dispatched
    requires { within_of r.value ≡ true }
    ensures { result ≡ law.move_gives r name element held pressed released reversed }
{
    let raw = r.value;
    if names::is_button(name) {
        let value = scale::button_value(element.low, element.range, raw);
        trigger(r, name, value, held, pressed, released)
    } else {
        let axis = axis_name(name);
        let value = scale::axis_value(
            element.low,
            element.range,
            element.odd,
            turned(reversed, axis),
            raw,
        );
        single(from(r, EventType::Axis(axis, r.code, value)))
    }
}

// ---- every kind

// A press or a release.
fn is_press(kind: u8) -> bool
    ensures { result ≡ (eqb kind kind_pressed || eqb kind kind_released) }
{
    kind == KIND_PRESSED || kind == KIND_RELEASED
}

// What a taken record gives: gilrs's `next_event_priv`, with the value scaled and a trigger's press or release told by the thresholds.
#[tactic(auto, unfolding(rules::specs::Dispatch::move_of, rules::specs::Dispatch::dispatch_of))]
pub fn dispatch(
    r: RawRecord,
    name: u8,
    element: Element,
    held: bool,
    pressed: f32,
    released: f32,
    reversed: bool,
) -> Dispatched
    requires { within_of r.value ≡ true }
    ensures { result ≡ law.dispatch_of r name element held pressed released reversed }
{
    let kind = r.kind;
    // a press and a release are one case, so that the machine tests the kind and jumps by no table
    if kind == KIND_AXIS {
        moved(r, name, element, held, pressed, released, reversed)
    } else if is_press(kind) {
        press(r, name, kind == KIND_PRESSED)
    } else if kind == KIND_CONNECTED {
        single(from(r, EventType::Connected))
    } else {
        single(from(r, EventType::Disconnected))
    }
}
