// The dpad filter: a move of a hat's axis becomes presses and releases of its directions (gilrs's `axis_dpad_to_button`). It answers the event that passes and how
// many wait behind it; `queued` tells those one by one.
ghost use Rattle.std.specs.Prelude.{◌≡◌, true, false};
ghost use Rattle.rules.specs.Events as events;
ghost use Rattle.rules.specs.Filters.{hat_by, hat_gives, presses, releases, reads};
ghost use Rattle.filters.specs.Converted.{ConvertedIs, counted, direction, plus, minus};
ghost use Rattle.filters.specs.Queued.{one_of, toward_at, centred_at, hat_at, queued_at};

use choices::chosen;
use rules::{Event, EventType, View};

// ---- an event of the same pad and time

// gilrs's `..ev`
pub fn with(e: Event, t: EventType) -> Event
    ensures { result ≡ events.with e t }
{
    Event { event: t, ..e }
}

// gilrs's `Event::drop`
pub fn dropped(e: Event) -> Event
    ensures { result ≡ events.dropped e }
{
    with(e, EventType::Dropped)
}

// ---- a direction of a hat

// Its name and its code.
#[derive(Clone, Copy)]
struct Direction {
    name: u8,
    code: u32,
}

impl Direction {
    // Right and Up
    fn positive(axis: u8) -> Direction
        ensures { direction result.name result.code ≡ plus axis }
    {
        Direction {
            name: names::positive_name(axis),
            code: names::positive_code(axis),
        }
    }

    // Left and Down
    fn negative(axis: u8) -> Direction
        ensures { direction result.name result.code ≡ minus axis }
    {
        Direction {
            name: names::negative_name(axis),
            code: names::negative_code(axis),
        }
    }

    fn presses(self) -> EventType
        ensures { result ≡ presses (direction self.name self.code) }
    {
        EventType::Pressed(self.name, self.code)
    }

    fn releases(self) -> EventType
        ensures { result ≡ releases (direction self.name self.code) }
    {
        EventType::Released(self.name, self.code)
    }

    fn reads(self, value: f32) -> EventType
        ensures { result ≡ reads (direction self.name self.code) value }
    {
        EventType::Changed(self.name, self.code, value)
    }
}

// ---- dpad

// What passes, and how many events are queued behind it.
#[derive(Clone, Copy)]
pub struct Converted {
    pub event: Event,
    pub count: u8,
}

fn alone(e: Event) -> Converted
    ensures { result ≡ counted (events.alone e) }
{
    Converted { event: e, count: 0 }
}

// A direction is pressed; an opposite that is still held is released before it.
#[tactic(auto, unfolding(rules::specs::Filters::hat_by))]
fn toward(e: Event, held: bool, this: Direction, other: Direction) -> Converted
    ensures { result ≡ counted (hat_by true false false held e (direction this.name this.code) (direction other.name other.code)) }
{
    if held {
        Converted {
            event: with(e, other.releases()),
            count: 3,
        }
    } else {
        Converted {
            event: with(e, this.presses()),
            count: 1,
        }
    }
}

// The hat rests: both directions are released where they are held, the negative one first.
#[tactic(auto, unfolding(rules::specs::Filters::hat_by))]
fn centred(e: Event, positive: bool, negative: bool, up: Direction, down: Direction) -> Converted
    ensures { result ≡ counted (hat_by false false positive negative e (direction up.name up.code) (direction down.name down.code)) }
{
    if negative {
        Converted {
            event: with(e, down.releases()),
            count: chosen(positive, 3, 1),
        }
    } else if positive {
        Converted {
            event: with(e, up.releases()),
            count: 1,
        }
    } else {
        alone(dropped(e))
    }
}

// "Only exactly 1.0 and -1.0 press."
#[tactic(auto, using(crate::proofs::Hats::minus_one), unfolding(rules::specs::Filters::hat_by, rules::specs::Filters::hat_gives))]
fn hat(v: View, e: Event, n: u8, x: f32) -> Converted
    ensures { result ≡ counted (hat_gives v e n x) }
{
    let up = Direction::positive(n);
    let down = Direction::negative(n);
    if x == 1.0 {
        toward(e, v.negative, up, down)
    } else if x == -1.0 {
        toward(e, v.positive, down, up)
    } else {
        centred(e, v.positive, v.negative, up, down)
    }
}

// gilrs's `axis_dpad_to_button`
#[tactic(auto, unfolding(rules::specs::Filters::dpad_of))]
pub fn dpad(v: View, e: Event) -> Converted
    ensures { ConvertedIs v e result }
{
    match e.event {
        EventType::Axis(n, _, x) if v.converts && names::is_hat(n) => hat(v, e, n, x),
        _ => alone(e),
    }
}

// ---- the same events one by one, so that none is made before it is pushed

fn one_of(a: Event, b: Event, c: Event, at: usize) -> Event
    ensures { result ≡ one_of a b c at }
{
    match at {
        0 => a,
        1 => b,
        _ => c,
    }
}

#[tactic(auto, unfolding(crate::specs::Queued::toward_at))]
fn toward_at(e: Event, this: Direction, other: Direction, at: usize) -> Event
    ensures { result ≡ toward_at e (direction this.name this.code) (direction other.name other.code) at }
{
    one_of(
        with(e, this.reads(1.0)),
        with(e, this.presses()),
        with(e, other.reads(0.0)),
        at,
    )
}

#[tactic(auto, unfolding(crate::specs::Queued::centred_at))]
fn centred_at(e: Event, positive: bool, up: Direction, down: Direction, at: usize) -> Event
    ensures { result ≡ centred_at positive e (direction up.name up.code) (direction down.name down.code) at }
{
    let rests = with(e, up.reads(0.0));
    let otherrests = with(e, down.reads(0.0));
    one_of(
        chosen(positive, rests, otherrests),
        with(e, up.releases()),
        otherrests,
        at,
    )
}

// The value is 1.0, it is -1.0: the two tests as the law book has them.
#[tactic(auto, unfolding(crate::specs::Queued::hat_at))]
fn hat_at(v: View, e: Event, n: u8, one: bool, minusone: bool, at: usize) -> Event
    ensures { result ≡ hat_at one minusone v.positive e (plus n) (minus n) at }
{
    let up = Direction::positive(n);
    let down = Direction::negative(n);
    if one {
        toward_at(e, up, down, at)
    } else if minusone {
        toward_at(e, down, up, at)
    } else {
        centred_at(e, v.positive, up, down, at)
    }
}

// The event that `dpad` queues at a place of its queue. Callers ask only below its count; past it the answer is some event and means nothing.
#[tactic(auto, using(crate::proofs::Hats::minus_one), unfolding(crate::specs::Queued::queued_at))]
pub fn queued(v: View, e: Event, at: usize) -> Event
    ensures { result ≡ queued_at v e at }
{
    match e.event {
        EventType::Axis(n, _, x) => hat_at(v, e, n, x == 1.0, x == -1.0, at),
        _ => e,
    }
}
