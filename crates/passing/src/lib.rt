// A turn's gates: the marks of a record that joins or leaves, and what a taken event's passing changes, behind one test each, so that only what is asked for is
// read. Each answer is the law book's, as if all had been gathered. The gates stand inside functions that are lent the arrays, not in the pump's loop.
#![tactic(auto)]

pub mod joining;
mod lanes;

ghost use Rattle.std.specs.Prelude.{◌≡◌, [], ◌≤◌, get_or};
ghost use Rattle.rules.specs.Names.{nowhere};
ghost use Rattle.rules.specs.Events.{name_of, code_of, event_if};
ghost use Rattle.rules.specs.Filters.{dpad_of};
ghost use Rattle.rules.specs.Tilt.{met_of, latest};
ghost use Rattle.rules.specs.Hub.{view_at, view_of, past_element};
ghost use Rattle.pad.specs.Found.{Placed};
ghost use Rattle.columns.specs.Columns.{elements_of, buttons_of, axes_of};
ghost use Rattle.hub.specs.Holding.{QueueAlone};
ghost use Rattle.cells.specs.Seen.{stored_at};
ghost use Rattle.filters.specs.Lanes.{zoned_value, stick_zoned_of};
ghost use Rattle.filters.specs.Meets.{stick_met_of};
ghost use Rattle.queueing.specs.Queued.{Pushed};
ghost use Rattle.taking.specs.Taking.{gives_of};
ghost use Rattle.passing.specs.Passing.{seen_hub, directed_at, hat_view};
ghost use Rattle.passing.specs.Sent.{SentIs};
ghost use Rattle.passing.specs.Served.{TurnedIs, StickIs, ServedIs};

use hub::{Listing, Serving};
use lanes::Lane;
use numbers::Tilt;
use rules::{Event, Flags, Partner, View};
use taking::Taken;

// ---- a taken event served: the filters, the flags and the queue in one

// What a record queues itself, where it does; how many wait then.
fn push_next(lent: &mut Serving<'_>, t: Taken) -> u8
    ensures pushed { let c = lent.old in let d = lent.new in
        Pushed c.values.now c.times.now c.queuebytes.now c.queuecodes.now t.head t.waiting
        (event_if t.follows t.next)
        d.values.now d.times.now d.queuebytes.now d.queuecodes.now result }
    ensures alone { QueueAlone lent.old lent.new }
{
    if t.follows {
        return queueing::push(
            lent.values,
            lent.times,
            lent.queuebytes,
            lent.queuecodes,
            t.head,
            t.waiting,
            t.next,
        );
    }
    t.waiting
}

// The event that is handed on, or Dropped; how many wait behind it; and the place of its code, where it is not dropped.
#[derive(Clone, Copy)]
pub struct Served {
    pub event: Event,
    pub waiting: u8,
    pub place: usize,
}

// A served event, and which of three the deadzone calculation was for the call's last axis event that met a threshold (W-205).
#[derive(Clone, Copy)]
pub struct Passed {
    pub served: Served,
    pub tilt: Tilt,
}

// What was met now, or else what was met before.
fn latest(met: Tilt, before: Tilt) -> Tilt
    ensures { result ≡ latest met before }
{
    match met {
        Tilt::Unmet => before,
        _ => met,
    }
}

// A button's value through the deadzone.
fn value_sent(lent: &Serving<'_>, e: Event, place: usize) -> Event
    requires { place ≤ nowhere }
    ensures { let c = lent.now in
        result ≡ zoned_value (stored_at c.hasbutton.now c.hasaxis.now (buttons_of c.values.now c.times.now c.marks.now)
        (axes_of c.values.now c.times.now) place)
        (get_or (elements_of c.values.now c.marks.now) place past_element).threshold e }
{
    let own = cells::value_in(
        lent.hasbutton,
        lent.hasaxis,
        lent.values,
        lent.times,
        lent.marks,
        place,
    );
    let element = columns::element_at(lent.values, lent.marks, place);
    filters::zoned_value(own, element.threshold, e)
}

// What a hat that turns sees: whether its two directions, which stand at these places, are held.
fn hat_view(lent: &Serving<'_>, positive: usize, negative: usize) -> View
    requires { (positive ≤ nowhere) × (negative ≤ nowhere) }
    ensures { let c = lent.now in
        result ≡ directed_at c.hasbutton.now (buttons_of c.values.now c.times.now c.marks.now) positive negative }
{
    View {
        converts: true,
        positive: cells::held_in(
            lent.hasbutton,
            lent.values,
            lent.times,
            lent.marks,
            positive,
        ),
        negative: cells::held_in(
            lent.hasbutton,
            lent.values,
            lent.times,
            lent.marks,
            negative,
        ),
        stored: false,
        stick: 0.0,
        dead: false,
        threshold: 0.0,
        own: 0.0,
        partner: Partner {
            stands: false,
            code: 0,
            value: 0.0,
        },
        flags: Flags {
            own: false,
            partner: false,
        },
    }
}

// A hat's axis turned into presses and releases of its directions, which are pushed.
fn turn_hat(codes: &[u32; 208], lent: &mut Serving<'_>, head: u8, waiting: u8, e: Event) -> Served
    ensures turned { let c = lent.old in let d = lent.new in
        TurnedIs codes.now e (dpad_of (hat_view codes.now c.hasbutton.now (buttons_of c.values.now c.times.now c.marks.now) e) e).event
        (dpad_of (hat_view codes.now c.hasbutton.now (buttons_of c.values.now c.times.now c.marks.now) e) e).queued
        head waiting c.values.now c.times.now c.queuebytes.now c.queuecodes.now result
        d.values.now d.times.now d.queuebytes.now d.queuecodes.now }
    ensures alone { QueueAlone lent.old lent.new }
{
    let n = events::name_of(e);
    let plus = names::positive_code(n);
    let positive = pad::place_of(codes, e.pad, plus);
    let negative = pad::place_of(codes, e.pad, names::negative_code(n));
    let v = hat_view(lent, positive, negative);
    let g = filters::dpad::dpad(v, e);
    let mut all = waiting;
    for x in 0..usize::from(g.count) {
        let u = filters::dpad::queued(v, e, x);
        all = queueing::push(
            lent.values,
            lent.times,
            lent.queuebytes,
            lent.queuecodes,
            head,
            all,
            u,
        );
    }
    let z = g.event;
    Served {
        event: z,
        waiting: all,
        place: choices::chosen(events::code_of(z) == plus, positive, negative),
    }
}

// A stick's value through jitter and deadzone: the flags are set, and the event that clears the partner is pushed.
#[tactic(auto, unfolding(gather::specs::EventPlaces::event_places_at, gather::specs::EventPlaces::place_marks_of))]
fn pass_stick(
    listed: &Listing<'_>,
    renamed: &[bool; 4],
    lent: &mut Serving<'_>,
    flags: &mut [bool; 24],
    head: u8,
    waiting: u8,
    e: Event,
    place: usize,
    before: Tilt,
) -> Passed
    requires { place ≤ nowhere }
    ensures place { result.served.place ≡ place }
    ensures passed { let s = listed.now in let c = lent.old in let d = lent.new in
        StickIs (stick_zoned_of (view_at (seen_hub s.codes.now s.kinds.now s.names.now s.renames.now
        renamed.now [] [] c.hasbutton.now c.hasaxis.now (elements_of c.values.now c.marks.now)
        (buttons_of c.values.now c.times.now c.marks.now) (axes_of c.values.now c.times.now) flags.old)
        e.pad (name_of e) place) e) e flags.old head waiting
        c.values.now c.times.now c.queuebytes.now c.queuecodes.now result.served flags.new
        d.values.now d.times.now d.queuebytes.now d.queuecodes.now }
    ensures met { let s = listed.now in let c = lent.old in
        result.tilt ≡ latest (stick_met_of (view_at (seen_hub s.codes.now s.kinds.now s.names.now s.renames.now
        renamed.now [] [] c.hasbutton.now c.hasaxis.now (elements_of c.values.now c.marks.now)
        (buttons_of c.values.now c.times.now c.marks.now) (axes_of c.values.now c.times.now) flags.old)
        e.pad (name_of e) place) e) before }
    ensures alone { QueueAlone lent.old lent.new }
{
    let s = gather::stick_places(
        listed.codes,
        listed.kinds,
        listed.names,
        listed.renames,
        renamed,
        lent.hasbutton,
        lent.hasaxis,
        flags,
        e.pad,
        events::name_of(e),
        place,
    );
    let v = cells::view_in(lent.values, lent.times, lent.marks, s);
    let f = filters::unturned(v, e);
    let met = f.tilt;
    let zoned = f.zoned;
    let m = zoned.flags;
    pad::mark_flag(flags, s.flag, m.own);
    pad::mark_flag(flags, s.other, m.partner);
    let z = zoned.event;
    let tilt = latest(met, before);
    if zoned.clears {
        let more = queueing::push(
            lent.values,
            lent.times,
            lent.queuebytes,
            lent.queuecodes,
            head,
            waiting,
            zoned.clearing,
        );
        return Passed {
            served: Served {
                event: z,
                waiting: more,
                place,
            },
            tilt,
        };
    }
    Passed {
        served: Served {
            event: z,
            waiting: waiting,
            place,
        },
        tilt,
    }
}

// What its record queues is pushed, and the event passes the filters that look at it, each shown what it asks for; what they queue is pushed.
pub fn serve(
    listed: &Listing<'_>,
    renamed: &[bool; 4],
    converts: &[bool; 4],
    newconverts: &[bool; 4],
    lent: &mut Serving<'_>,
    flags: &mut [bool; 24],
    on: bool,
    t: Taken,
    before: Tilt,
) -> Passed
    requires { Placed listed.now.codes.now t.event.pad (code_of t.event) t.place }
    ensures sent { SentIs listed.now.codes.now on result.served }
    ensures served { let s = listed.now in let c = lent.old in let d = lent.new in
        ServedIs on (view_of (seen_hub s.codes.now s.kinds.now s.names.now s.renames.now
        renamed.now converts.now newconverts.now c.hasbutton.now c.hasaxis.now
        (elements_of c.values.now c.marks.now) (buttons_of c.values.now c.times.now c.marks.now)
        (axes_of c.values.now c.times.now) flags.old) t.event) (gives_of t) flags.old t.head t.waiting
        c.values.now c.times.now c.queuebytes.now c.queuecodes.now result.served flags.new
        d.values.now d.times.now d.queuebytes.now d.queuecodes.now }
    ensures met { let s = listed.now in let c = lent.old in
        result.tilt ≡ latest (met_of on (view_of (seen_hub s.codes.now s.kinds.now s.names.now s.renames.now
        renamed.now converts.now newconverts.now c.hasbutton.now c.hasaxis.now
        (elements_of c.values.now c.marks.now) (buttons_of c.values.now c.times.now c.marks.now)
        (axes_of c.values.now c.times.now) flags.old) t.event) t.event) before }
    ensures alone { QueueAlone lent.old lent.new }
{
    let more = push_next(lent, t);
    let e = t.event;
    let place = t.place;
    let lane = lanes::lane_of(listed.kinds, renamed, converts, newconverts, on, e, place);
    match lane {
        Lane::None => Passed {
            served: Served {
                event: e,
                waiting: more,
                place,
            },
            tilt: before,
        },
        Lane::Value => Passed {
            served: Served {
                event: value_sent(lent, e, place),
                waiting: more,
                place,
            },
            tilt: before,
        },
        Lane::Hat => Passed {
            served: turn_hat(listed.codes, lent, t.head, more, e),
            tilt: before,
        },
        Lane::Stick => pass_stick(listed, renamed, lent, flags, t.head, more, e, place, before),
    }
}
