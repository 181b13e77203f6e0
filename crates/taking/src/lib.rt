// What a step takes, behind one gate: the queue's front where something waits, else the record at the place, looked at, judged and dispatched. The gate stands
// inside a function that is lent the arrays, and not in the pump's loop, where a branch that falls through would cost a join of all that is lent.
#![tactic(auto)]

ghost use Rattle.std.specs.Prelude.{◌≡◌};
ghost use Rattle.columns.specs.Columns.{elements_of, buttons_of, slots_of};
ghost use Rattle.taking.specs.Taking.{taking_hub, TakenIs};

use hub::{Listing, Seen};
use rules::{Event, EventType, RECORD_SIZE};

// What a step takes: the record's refusal, 0 where there is none; the record's pad and kind, blank for the queue's front; the event, the place of its code, and
// what the record queues behind it; and where batch and queue stand once it is taken. No Result and no Option: `gives_of` and the laws of specs/Taking.antt name each field.
#[derive(Clone, Copy)]
pub struct Taken {
    pub number: u8,
    pub pad: u8,
    pub kind: u8,
    pub place: usize,
    pub event: Event,
    pub follows: bool,
    pub next: Event,
    pub at: usize,
    pub head: u8,
    pub waiting: u8,
}

// A record that is refused gives nothing.
fn refused(number: u8) -> Taken
    ensures { result.number ≡ number }
{
    let none = EventType::Dropped;
    let e = Event {
        pad: 0,
        time: 0,
        event: none,
    };
    Taken {
        number: number,
        pad: 0,
        kind: 0,
        place: 0,
        event: e,
        follows: false,
        next: e,
        at: 0,
        head: 0,
        waiting: 0,
    }
}

// Where something waits no record is looked at.
#[tactic(auto, unfolding(rules::specs::Calls::fresh_hub))]
pub fn take(
    listed: &Listing<'_>,
    renamed: &[bool; 4],
    lent: &Seen<'_>,
    batch: &[u8],
    at: usize,
    waiting: u8,
    head: u8,
    pads: u8,
    pressed: f32,
    released: f32,
    reversed: bool,
) -> Taken
    ensures { let s = listed.now in let c = lent.now in
        TakenIs (taking_hub s.codes.now s.kinds.now s.names.now s.renames.now renamed.now
        c.hasbutton.now (elements_of c.values.now c.marks.now)
        (buttons_of c.values.now c.times.now c.marks.now)
        (slots_of c.values.now c.times.now c.queuebytes.now c.queuecodes.now)
        pads pressed released reversed head waiting) batch.now at result }
{
    if 0 < waiting {
        let front = turn::front(head);
        let slot = columns::slot_at(
            lent.values,
            lent.times,
            lent.queuebytes,
            lent.queuecodes,
            front,
        );
        let e = events::event_of(slot);
        let code = events::code_of(e);
        return Taken {
            number: 0,
            pad: 0,
            kind: 0,
            place: pad::place_of(listed.codes, e.pad, code),
            event: e,
            follows: false,
            next: e,
            at: at,
            head: turn::head_after(head, waiting),
            waiting: turn::fewer(waiting),
        };
    }
    let l = wire::next_record(batch, at, waiting);
    let raw = l.raw;
    let found = gather::find(
        listed.codes,
        listed.kinds,
        listed.names,
        listed.renames,
        renamed,
        lent.hasbutton,
        raw.pad,
        raw.code,
    );
    let number = refusals::record_refusal(l, pads, found.kind);
    if 0 < number {
        return refused(number);
    }
    let place = found.place;
    let element = columns::element_at(lent.values, lent.marks, place);
    let b = columns::button_at(lent.values, lent.times, lent.marks, place);
    let held = state::read_pressed(found.hasbutton, b);
    let d = dispatch::dispatch(raw, found.name, element, held, pressed, released, reversed);
    let e = d.event;
    let next = d.next;
    let after = at + RECORD_SIZE;
    Taken {
        number: 0,
        pad: raw.pad,
        kind: raw.kind,
        place: place,
        event: e,
        follows: d.follows,
        next: next,
        at: after,
        head: head,
        waiting: waiting,
    }
}
