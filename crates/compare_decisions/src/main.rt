// Plays a stored list of cases, a decision's inputs and what gilrs did with them, against the proved functions, and prints for each kind of case
// how many were played and how many came out wrong.
#![tactic(auto)]

ghost use Rattle.std.specs.Prelude.{◌+◌, ◌≤◌};

use compare_cases::{
    GIVEN, OUT, QUEUED, agree, event, long, mark, same, value, waits, whole, word,
};
use filters::dpad;
use rules::{AxisData, ButtonData, Event, EventType, Flags, Partner, RawRecord, View};
use std::io;
use std::io::{Print, Read};

// how many cases the list has of each kind
const CASES: u64 = 2000;

// where the name of the event given stands among the bytes
const GIVEN_NAME: usize = 26;

// the deadzone flag of an axis that has none
const NO_FLAG: u8 = 6;

// ---- the filters

fn view(case: &[u8; 104]) -> View {
    let marks = case[1];
    View {
        converts: mark(marks, 1),
        positive: mark(marks, 2),
        negative: mark(marks, 4),
        stored: mark(marks, 8),
        stick: value(case, 1),
        dead: mark(marks, 16),
        threshold: value(case, 2),
        own: value(case, 3),
        partner: Partner {
            stands: mark(marks, 32),
            code: word(case, 4),
            value: value(case, 5),
        },
        flags: Flags {
            own: mark(marks, 64),
            partner: mark(marks, 128),
        },
    }
}

// the flags after; an axis that has none is left out, since the pump keeps none for it
fn flagged(f: Flags, case: &[u8; 104]) -> bool {
    let after = case[2];
    names::flag_of(case[GIVEN_NAME]) == NO_FLAG
        || agree(f.own, mark(after, 1)) && agree(f.partner, mark(after, 2))
}

// Whether the case has this event and this number of events queued behind it.
fn sends(sent: Event, count: u8, case: &[u8; 104]) -> bool {
    count == case[3] && count <= 3 && same(sent, case, OUT)
}

// Whether the events that are queued, of three, are those of the case.
fn queues(count: u8, first: Event, second: Event, third: Event, case: &[u8; 104]) -> bool {
    waits(0 < count, first, case, QUEUED)
        && waits(1 < count, second, case, QUEUED + 4)
        && waits(2 < count, third, case, QUEUED + 8)
}

// What waits at a place behind an event: the hat's events, then the one that clears the partner.
fn behind(v: View, e: Event, hats: u8, clearing: Event, at: u8) -> Event {
    if at < hats {
        dpad::queued(v, e, usize::from(at))
    } else {
        clearing
    }
}

// Whether a button's value comes out so, which the pump sends to the deadzone with its own value and threshold alone.
fn valued(v: View, e: Event, case: &[u8; 104]) -> bool {
    if !v.dead || !matches!(e.event, EventType::Changed(..)) {
        return true;
    }
    same(filters::zoned_value(v.own, v.threshold, e), case, OUT)
}

// Whether the three filters make of the case's event what the case says, by the functions that the pump calls: what passes, and then the events behind it one
// by one.
fn filtered(case: &[u8; 104]) -> bool {
    let v = view(case);
    let e = event(case, GIVEN);
    let g = dpad::dpad(v, e);
    let hats = g.count;
    let z = filters::unturned(v, g.event).zoned;
    let count = if z.clears { hats + 1 } else { hats };
    let first = behind(v, e, hats, z.clearing, 0);
    let second = behind(v, e, hats, z.clearing, 1);
    let third = behind(v, e, hats, z.clearing, 2);
    sends(z.event, count, case)
        && queues(count, first, second, third, case)
        && flagged(z.flags, case)
        && valued(v, e, case)
}

// Whether with the filters off the case's event passes as it is.
fn passed(case: &[u8; 104]) -> bool {
    sends(event(case, GIVEN), 0, case) && flagged(view(case).flags, case)
}

// Whether the dpad filter alone does.
fn hat_alone(case: &[u8; 104]) -> bool {
    let v = view(case);
    let e = event(case, GIVEN);
    let g = dpad::dpad(v, e);
    let first = dpad::queued(v, e, 0);
    let second = dpad::queued(v, e, 1);
    let third = dpad::queued(v, e, 2);
    sends(g.event, g.count, case) && queues(g.count, first, second, third, case)
}

// Whether the jitter filter alone does.
fn jitter_alone(case: &[u8; 104]) -> bool {
    case[3] == 0 && same(filters::jittered(view(case), event(case, GIVEN)), case, OUT)
}

// Whether the deadzone filter alone does.
fn deadzone_alone(case: &[u8; 104]) -> bool {
    let z = filters::deadzoned(view(case), event(case, GIVEN)).zoned;
    same(z.event, case, OUT)
        && agree(z.clears, case[3] == 1)
        && waits(z.clears, z.clearing, case, QUEUED)
        && flagged(z.flags, case)
}

// ---- dispatch

// Whether dispatch makes of the case's record what the case says.
fn dispatched(case: &[u8; 104]) -> bool {
    let raw = whole(case, 7);
    if !scale::within(raw) {
        return false;
    }
    let marks = case[1];
    let r = RawRecord {
        kind: case[2],
        pad: 0,
        code: word(case, 6),
        value: raw,
        time: long(case, 8),
    };
    let d = dispatch::dispatch(
        r,
        case[3],
        compare_cases::element(whole(case, 3), whole(case, 4)),
        mark(marks, 1),
        value(case, 1),
        value(case, 2),
        mark(marks, 2),
    );
    same(d.event, case, OUT)
        && agree(d.follows, mark(marks, 4))
        && waits(d.follows, d.next, case, QUEUED)
}

// ---- state

fn button(case: &[u8; 104], marks: u8, n: usize) -> ButtonData
    requires { n + 3 ≤ 26 }
{
    ButtonData {
        value: value(case, n),
        stamp: long(case, n + 1),
        counter: long(case, n + 2),
        pressed: mark(marks, 2),
        repeating: mark(marks, 4),
        since: 0,
    }
}

fn axis(case: &[u8; 104], n: usize) -> AxisData
    requires { n + 3 ≤ 26 }
{
    AxisData {
        value: value(case, n),
        stamp: long(case, n + 1),
        counter: long(case, n + 2),
    }
}

// Two records are the same with their values bit for bit, as a derived `==` would not have it: -0.0 is not 0.0, and a NaN is a NaN.
fn same_button(a: ButtonData, b: ButtonData) -> bool {
    binary32::bits_of(a.value) == binary32::bits_of(b.value)
        && a.stamp == b.stamp
        && a.counter == b.counter
        && a.pressed == b.pressed
        && a.repeating == b.repeating
}

fn same_axis(a: AxisData, b: AxisData) -> bool {
    binary32::bits_of(a.value) == binary32::bits_of(b.value)
        && a.stamp == b.stamp
        && a.counter == b.counter
}

fn written(case: &[u8; 104]) -> bool {
    let before = case[1];
    let after = case[2];
    let e = event(case, GIVEN);
    let counter = long(case, 22);
    let known = mark(before, 1);
    let hasaxis = mark(before, 8);
    let b = state::button_after(e, known, button(case, before, 10), counter);
    let a = state::axis_after(e, axis(case, 13), counter);
    agree(known || state::writes_button(e), mark(after, 1))
        && agree(hasaxis || state::writes_axis(e), mark(after, 8))
        && same_button(b, button(case, after, 16))
        && same_axis(a, axis(case, 19))
}

// Whether the state reads, and is written by the case's event, as the case says.
fn stored(case: &[u8; 104]) -> bool {
    let before = case[1];
    let known = mark(before, 1);
    let b = button(case, before, 10);
    let read = state::read_value(mark(before, 8), axis(case, 13), known, b);
    agree(state::read_pressed(known, b), case[3] == 1)
        && binary32::bits_of(read) == word(case, 23)
        && written(case)
}

// ---- repeat

// Whether the case's button is due, and gives the event, as the case says.
fn repeated(case: &[u8; 104]) -> bool {
    let marks = case[1];
    let known = mark(marks, 1);
    let b = ButtonData {
        value: 0.0,
        stamp: long(case, 1),
        counter: 0,
        pressed: mark(marks, 2),
        repeating: mark(marks, 4),
        since: 0,
    };
    let after = long(case, 2);
    let every = long(case, 3);
    let clock = long(case, 4);
    if !repeat::due(b, known, after, every, clock) {
        return !mark(marks, 8);
    }
    let e = repeat::repeated(0, case[3], word(case, 5), b, known, after, every, clock);
    mark(marks, 8) && same(e, case, OUT)
}

// ---- the list

// How many cases of a kind, whose number stands first in them, come out otherwise than they say.
fn faults<F: Fn(&[u8; 104]) -> bool>(input: &mut impl Read, kind: u8, right: F) -> io::Result<u64>
    requires { F.IsAlwaysCallable right }
{
    compare_cases::faults(input, CASES, 26, |case| case[0] == kind && right(case))
}

fn report(out: &impl Print, name: &str, wrong: u64) -> io::Result<()> {
    println!(out; "{name} {CASES} {wrong} wrong")
}

fn main(rt: HostRuntime) -> io::Result<()> {
    let mut input = rt.stdin();
    let out = rt.stdout();
    report(&out, "filters", faults(&mut input, 1, filtered)?)?;
    report(&out, "dpad", faults(&mut input, 2, hat_alone)?)?;
    report(&out, "jitter", faults(&mut input, 3, jitter_alone)?)?;
    report(&out, "deadzone", faults(&mut input, 4, deadzone_alone)?)?;
    report(&out, "filters off", faults(&mut input, 5, passed)?)?;
    report(&out, "dispatch", faults(&mut input, 6, dispatched)?)?;
    report(&out, "state", faults(&mut input, 7, stored)?)?;
    report(&out, "repeat", faults(&mut input, 8, repeated)?)
}
