// Events as values: what an event holds by its cases, how it waits in the queue and comes back, and the event of a form's 22 bytes.
#![tactic(auto)]

ghost use Rattle.std.specs.Prelude.{◌≡◌};
ghost use Rattle.rules.specs.Events.{kind_type, name_type, code_type, value_type, dropped_type, kind_of, name_of, code_of, value_of, type_of, slot_of, event_of, form_of, form_event, is_dropped};
ghost use Rattle.rules.specs.Filters.{kept_of};

use rules::{EVENT_AXIS, Event, EventForm, EventType, NO_NAME, Slot};

// ---- "kind (1 pressed, 2 released, 3 repeated, 4 changed, 5 axis, 6 connected, 7 disconnected, 8 dropped)"

pub const EVENT_PRESSED: u8 = 1;

pub const EVENT_RELEASED: u8 = 2;

pub const EVENT_REPEATED: u8 = 3;

pub const EVENT_CHANGED: u8 = 4;

pub const EVENT_CONNECTED: u8 = 6;

pub const EVENT_DISCONNECTED: u8 = 7;

pub const EVENT_DROPPED: u8 = 8;

// ---- what an event holds, by its cases

// The number of an event's kind, in its bytes.
#[tactic(auto, unfolding(rules::specs::Events::kind_of))]
pub fn kind_of(e: Event) -> u8
    ensures { result ≡ kind_of e }
{
    match e.event {
        EventType::Pressed(_, _) => EVENT_PRESSED,
        EventType::Released(_, _) => EVENT_RELEASED,
        EventType::Repeated(_, _) => EVENT_REPEATED,
        EventType::Changed(_, _, _) => EVENT_CHANGED,
        EventType::Axis(_, _, _) => EVENT_AXIS,
        EventType::Connected => EVENT_CONNECTED,
        EventType::Disconnected => EVENT_DISCONNECTED,
        EventType::Dropped => EVENT_DROPPED,
    }
}

// An event's name; 255 where it has none.
#[tactic(auto, unfolding(rules::specs::Events::name_of))]
pub fn name_of(e: Event) -> u8
    ensures { result ≡ name_of e }
{
    match e.event {
        EventType::Pressed(name, _)
        | EventType::Released(name, _)
        | EventType::Repeated(name, _)
        | EventType::Changed(name, _, _)
        | EventType::Axis(name, _, _) => name,
        _ => NO_NAME,
    }
}

// An event's code; 0 where it has none.
#[tactic(auto, unfolding(rules::specs::Events::code_of))]
pub fn code_of(e: Event) -> u32
    ensures { result ≡ code_of e }
{
    match e.event {
        EventType::Pressed(_, code)
        | EventType::Released(_, code)
        | EventType::Repeated(_, code)
        | EventType::Changed(_, code, _)
        | EventType::Axis(_, code, _) => code,
        _ => 0,
    }
}

// An event's value; 0.0 where it has none.
#[tactic(auto, unfolding(rules::specs::Events::value_of))]
pub fn value_of(e: Event) -> f32
    ensures { result ≡ value_of e }
{
    match e.event {
        EventType::Changed(_, _, value) | EventType::Axis(_, _, value) => value,
        _ => 0.0,
    }
}

// Whether a filter dropped the event.
#[tactic(auto, unfolding(rules::specs::Events::is_dropped))]
pub fn is_dropped(e: Event) -> bool
    ensures { result ≡ is_dropped e }
{
    matches!(e.event, EventType::Dropped)
}

// "a dropped one is skipped (filters on)"
#[tactic(auto, unfolding(rules::specs::Filters::kept_of))]
pub fn kept(on: bool, e: Event) -> bool
    ensures { result ≡ kept_of on e }
{
    !(on && is_dropped(e))
}

// The event of a kind, its name, code and value.
#[tactic(auto, unfolding(rules::specs::Events::type_of))]
pub fn type_of(kind: u8, name: u8, code: u32, value: f32) -> EventType
    ensures { result ≡ type_of kind name code value }
{
    match kind {
        EVENT_PRESSED => EventType::Pressed(name, code),
        EVENT_RELEASED => EventType::Released(name, code),
        EVENT_REPEATED => EventType::Repeated(name, code),
        EVENT_CHANGED => EventType::Changed(name, code, value),
        EVENT_AXIS => EventType::Axis(name, code, value),
        EVENT_CONNECTED => EventType::Connected,
        EVENT_DISCONNECTED => EventType::Disconnected,
        _ => EventType::Dropped,
    }
}

// An event as it waits.
#[tactic(auto, unfolding(rules::specs::Events::slot_of))]
pub fn slot_of(e: Event) -> Slot
    ensures { result ≡ slot_of e }
{
    Slot {
        kind: kind_of(e),
        pad: e.pad,
        name: name_of(e),
        code: code_of(e),
        value: value_of(e),
        time: e.time,
    }
}

// The event that waits in a slot.
#[tactic(auto, unfolding(rules::specs::Events::event_of))]
pub fn event_of(s: Slot) -> Event
    ensures { result ≡ event_of s }
{
    Event {
        pad: s.pad,
        time: s.time,
        event: type_of(s.kind, s.name, s.code, s.value),
    }
}

// ---- an event and its form

// The event of a form.
#[tactic(auto, unfolding(rules::specs::Events::form_event))]
pub fn form_event(f: EventForm) -> Event
    ensures { result ≡ form_event f }
{
    Event {
        pad: f.pad,
        time: f.time,
        event: type_of(f.kind, f.name, f.code, binary32::of_bits(f.bits)),
    }
}

// An event as its bytes will have it.
#[tactic(auto, unfolding(rules::specs::Events::form_of))]
pub fn form_of(e: Event) -> EventForm
    ensures { result ≡ form_of e }
{
    EventForm {
        kind: kind_of(e),
        pad: e.pad,
        name: name_of(e),
        code: code_of(e),
        bits: binary32::bits_of(value_of(e)),
        time: e.time,
    }
}
