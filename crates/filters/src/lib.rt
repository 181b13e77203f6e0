// The filters in their order, dpad, jitter, deadzone (gilrs's ev/filter.rs), as decisions on small values: what each sees of the hub is a `View`, gathered before. A
// dropped event is the event Dropped, as in gilrs.
#![tactic(auto)]

pub mod dpad;

ghost use Rattle.std.specs.Prelude.{◌≡◌};
ghost use Rattle.rules.specs.Filters as law;
ghost use Rattle.filters.specs.Lanes.{zoned_value};
ghost use Rattle.filters.specs.Meets.{without, zone_meets};

use choices::{both, chosen};
use numbers::{Pair, Tilt};
use rules::{Event, EventType, Flags, View, Zoned};

// ---- jitter

// gilrs's `Jitter`
#[tactic(auto, unfolding(rules::specs::Filters::jittered_of))]
pub fn jittered(v: View, e: Event) -> Event
    ensures { result ≡ law.jittered_of v e }
{
    match e.event {
        EventType::Axis(_, _, x) if v.stored && scale::jitters(x, v.stick) => dpad::dropped(e),
        _ => e,
    }
}

// ---- deadzone

// What the deadzone makes of an event, and which of three its calculation was for an axis event that meets a threshold (W-205).
#[derive(Clone, Copy)]
pub struct Met {
    pub zoned: Zoned,
    pub tilt: Tilt,
}

// the filter passes an event as it is: no axis event, or no threshold
fn passes(v: View, e: Event) -> Met
    ensures { result ≡ without (law.passes v e) }
{
    let flags = v.flags;
    Met {
        zoned: Zoned {
            event: e,
            clears: false,
            clearing: e,
            // field by field: a struct of two bytes that is copied whole is taken apart by shifts
            flags: Flags {
                own: flags.own,
                partner: flags.partner,
            },
        },
        tilt: Tilt::Unmet,
    }
}

// dropped where the state has the value already
fn unless(same: bool, e: Event, t: EventType) -> Event
    ensures { result ≡ law.unless same e t }
{
    if same {
        dpad::dropped(e)
    } else {
        dpad::with(e, t)
    }
}

// both fell into the dead zone, the partner had sent a value other than 0, and the state still has one
#[tactic(auto, unfolding(rules::specs::Filters::clears_partner))]
fn clears_partner(v: View, pair: Pair) -> bool
    ensures { result ≡ law.clears_partner v pair }
{
    let p = v.partner;
    let f = v.flags;
    let fell = both(pair.x == 0.0, pair.y == 0.0);
    both(p.stands, both(fell, both(f.partner, p.value != 0.0)))
}

// an axis: the event with its value after the deadzone, the partner's clearing event, and the flags after
#[tactic(auto, unfolding(rules::specs::Filters::stick_zoned, rules::specs::Filters::flags_after))]
fn stick(v: View, e: Event, n: u8, c: u32, pair: Pair) -> Zoned
    ensures { result ≡ law.stick_zoned v e n c pair }
{
    let x = pair.x;
    let p = v.partner;
    let f = v.flags;
    let same = v.own == x;
    let clears = clears_partner(v, pair);
    let sent = unless(same, e, EventType::Axis(n, c, x));
    let clearing = dpad::with(e, EventType::Axis(names::partner_of(n), p.code, 0.0));
    Zoned {
        event: sent,
        clears,
        clearing,
        flags: Flags {
            // whether a value other than 0 was sent last: as before where the event is dropped
            own: chosen(same, f.own, x != 0.0),
            partner: both(f.partner, !clears),
        },
    }
}

// gilrs's `deadzone`
#[tactic(auto, unfolding(rules::specs::Filters::deadzoned_of, rules::specs::Filters::button_zoned, rules::specs::Tilt::zone_met, crate::specs::Lanes::zoned_value))]
pub fn deadzoned(v: View, e: Event) -> Met
    ensures { result ≡ zone_meets v e }
{
    match e.event {
        EventType::Axis(n, c, x) if v.dead => {
            let p = v.partner;
            // "the partner read from the state"; an axis with no partner has 0.0 beside it
            let f = scale::apply_deadzone(x, chosen(p.stands, p.value, 0.0), v.threshold);
            Met {
                zoned: stick(v, e, n, c, f.pair),
                tilt: f.tilt,
            }
        }
        EventType::Changed(..) if v.dead => passes(v, zoned_value(v.own, v.threshold, e)),
        _ => passes(v, e),
    }
}

// A button's value after the deadzone, where its own value and its element's threshold are given; any other event as it is.
#[tactic(auto, unfolding(crate::specs::Lanes::zoned_value))]
pub fn zoned_value(own: f32, threshold: f32, e: Event) -> Event
    ensures { result ≡ zoned_value own threshold e }
{
    match e.event {
        EventType::Changed(n, c, x) => {
            let y = scale::shrink_value(x, threshold);
            unless(own == y, e, EventType::Changed(n, c, y))
        }
        _ => e,
    }
}

// An event that no hat turns, through jitter and deadzone.
pub fn unturned(v: View, e: Event) -> Met
    ensures { result ≡ zone_meets v (law.jittered_of v e) }
{
    deadzoned(v, jittered(v, e))
}
