// The calls of document 01 that go by time, on a hub that is lent: the counter, which stands in the head, so that no array is lent, and Repeat with the clock as
// input, which is lent the arrays that it reads. Each answers what its definition in the law book says, at the hub that head and arrays stand for, for any
// numbers and whatever the arrays hold that it is not lent.
#![tactic(auto)]

ghost use Rattle.std.specs.Prelude.{◌≡◌, Bool, false, List, ℕ, ◌+◌, ◌*◌, ◌≤◌, ◌<◌, get_or, unwrap_or, IfSome};
ghost use Rattle.rules.specs.Names.{nowhere};
ghost use Rattle.rules.specs.Hub.{past_button};
ghost use Rattle.rules.specs.Calls.{inc_of, reset_of, blank_button};
ghost use Rattle.rules.specs.Repeat.{first_due, repeat_of};
ghost use Rattle.columns.specs.Columns.{buttons_of};
ghost use Rattle.hub.specs.Lent.{Listed, Columns, listed, columns, hub_of};
ghost use Rattle.clock.specs.Runs.{record_of, Gathered};

use hub::{Buttons, Head};
use rules::{ButtonData, Event, PLACES_PER_PAD, Refusal};

const PADS: usize = 4;

// ---- the counter: "The counter goes from 2^62-1 to 0"

// The hub with its counter one up: gilrs's `Gilrs::inc`.
#[tactic(auto, unfolding(rules::specs::Calls::inc_of, rules::specs::Calls::counted_at))]
pub fn inc(head: Head) -> Head
    ensures { (s : Listed) (t : Columns) → hub_of result s t ≡ inc_of (hub_of head s t) }
{
    let mut h = head;
    h.counter = state::next_counter(head.counter);
    h
}

// The counter: gilrs's `Gilrs::counter`.
pub fn counter(head: Head) -> u64
    ensures { (s : Listed) (t : Columns) → result ≡ (hub_of head s t).counter }
{
    head.counter
}

// The hub with its counter at 0: gilrs's `Gilrs::reset_counter`.
#[tactic(auto, unfolding(rules::specs::Calls::reset_of, rules::specs::Calls::counted_at))]
pub fn reset_counter(head: Head) -> Head
    ensures { (s : Listed) (t : Columns) → hub_of result s t ≡ reset_of (hub_of head s t) }
{
    let mut h = head;
    h.counter = 0;
    h
}

// ---- repeat: 15, 12

fn blank() -> ButtonData
    ensures { result ≡ blank_button }
{
    ButtonData {
        value: 0.0,
        stamp: 0,
        counter: 0,
        pressed: false,
        repeating: false,
        since: 0,
    }
}

// A place's record for its pad's run: blank where it has none, and a blank record is never due.
fn record_at(buttons: &Buttons<'_>, place: usize) -> ButtonData
    requires { place ≤ nowhere }
    ensures { let b = buttons.now in
        result ≡ record_of (get_or b.hasbutton.now place false)
        (get_or (buttons_of b.values.now b.times.now b.marks.now) place past_button) }
{
    if pad::bool_at(buttons.hasbutton, place) {
        columns::button_at(buttons.values, buttons.times, buttons.marks, place)
    } else {
        blank()
    }
}

// A pad's records, in place order: its places begin at `start`.
fn gather_run(buttons: &Buttons<'_>, start: usize) -> [ButtonData; 52]
    requires { start + 52 ≤ nowhere }
    ensures { let b = buttons.now in
        Gathered b.hasbutton.now (buttons_of b.values.now b.times.now b.marks.now) start result }
{
    let mut run = [blank(); 52];
    for index in 0..PLACES_PER_PAD {
        run[index] = record_at(buttons, start + index);
    }
    run
}

// The first due place of pad p's: of a pad that is not connected none is.
fn first_on(
    connected: &[bool; 4],
    buttons: &Buttons<'_>,
    p: usize,
    after: u64,
    every: u64,
    clock: u64,
) -> Option<usize>
    requires { p < 4 }
    ensures { let b = buttons.now in
        (unwrap_or result nowhere ≡ first_due connected.now b.hasbutton.now
        (buttons_of b.values.now b.times.now b.marks.now) after every clock 52 (52 * p))
        × IfSome result (λ place. place < nowhere) }
{
    if !connected[p] {
        return None;
    }
    let start = PLACES_PER_PAD * p;
    let run = gather_run(buttons, start);
    let index = repeat::first_of_pad(run, after, every, clock);
    if PLACES_PER_PAD <= index {
        return None;
    }
    Some(start + index)
}

// "Connected pads by number, codes rising; the first due button": its place, where one is due.
fn first_place(
    connected: &[bool; 4],
    buttons: &Buttons<'_>,
    after: u64,
    every: u64,
    clock: u64,
) -> Option<usize>
    ensures { let b = buttons.now in
        (unwrap_or result nowhere ≡ first_due connected.now b.hasbutton.now
        (buttons_of b.values.now b.times.now b.marks.now) after every clock nowhere 0)
        × IfSome result (λ place. place < nowhere) }
{
    for p in 0..PADS {
        let due = first_on(connected, buttons, p, after, every, clock);
        if let Some(place) = due {
            return Some(place);
        }
    }
    None
}

// The first due button of the connected pads, with the clock as input: gilrs's `Repeat`.
#[tactic(auto, unfolding(rules::specs::Repeat::due_place))]
pub fn repeat<'s>(
    head: Head,
    codes: &[u32; 208],
    names: &'s [u8; 208],
    renames: &'s [u8; 208],
    buttons: &Buttons<'_>,
    after: u64,
    every: u64,
    clock: u64,
) -> Result<Option<Event>, Refusal>
    ensures { (kinds queuebytes queuecodes : List ℕ) (hasaxis : List Bool) → let b = buttons.now in
        result ≡ repeat_of (hub_of head (listed codes.now kinds names.now renames.now)
        (columns b.hasbutton.now hasaxis b.values.now b.times.now b.marks.now queuebytes queuecodes))
        after every clock }
{
    refusals::repeat_refusal(after, every, clock)?;
    let due = first_place(&head.connected, buttons, after, every, clock);
    let Some(place) = due else {
        return Ok(None);
    };
    let p = (place / PLACES_PER_PAD) as u8;
    let name = gather::present_name(names, renames, &head.renamed, p, place);
    let code = pad::code_at(codes, place);
    let known = pad::bool_at(buttons.hasbutton, place);
    let b = columns::button_at(buttons.values, buttons.times, buttons.marks, place);
    let e = repeat::repeated(p, name, code, b, known, after, every, clock);
    Ok(Some(e))
}
