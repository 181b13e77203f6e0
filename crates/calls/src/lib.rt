// The calls of document 01 that take an event's bytes, on a hub that is lent: `update` gives it to the state, `insert_event` to the queue. Each is lent the arrays
// that it reads and changes, and answers what its definition in the law book says, at the hub that head and arrays stand for, whatever the others hold; a
// refusal leaves the hub as it was.
#![tactic(auto)]

ghost use Rattle.std.specs.Prelude.{◌≡◌, Bool, List, ℕ};
ghost use Rattle.rules.specs.Calls.{update_of, insert_of};
ghost use Rattle.pad.specs.Found.{Placed};
ghost use Rattle.hub.specs.Lent.{listed, columns, hub_of, answered};
ghost use Rattle.hub.specs.Holding.{columns_with, SameState};

use columns::{QueueBytes, QueueCodes, Times, Values};
use hub::{AnsweredHead, Head, State};
use rules::{MALFORMED, Refusal};

// ---- update: 8, 6, 9, 11, 12

// Where an event's code stands: a form of a kind that carries no code may hold one all the same.
fn event_place(codes: &[u32; 208], p: u8, code: u32, formcode: u32, place: usize) -> usize
    requires { Placed codes.now p formcode place }
    ensures { Placed codes.now p code result }
{
    if code == formcode {
        return place;
    }
    pad::place_of(codes, p, code)
}

// Settles an event in the state, or tells the first refusal. The place of the form's code is the event's too, but for kinds 6 to 8, which carry no code.
#[tactic(auto, unfolding(rules::specs::Events::form_event))]
fn settle_event(
    head: &mut Head,
    codes: &[u32; 208],
    kinds: &[u8; 208],
    state: &mut State<'_>,
    event: &[u8],
) -> Result<(), Refusal>
    ensures answered { (names renames queuebytes queuecodes : List ℕ) →
        answered head.new (listed codes.now kinds.now names renames)
        (columns_with state.new queuebytes queuecodes) result
        ≡ update_of (hub_of head.old (listed codes.now kinds.now names renames)
        (columns_with state.old queuebytes queuecodes)) event.now }
    ensures same { SameState state.old state.new }
{
    let Some(form) = wire::read_event(event) else {
        return Err(Refusal { number: MALFORMED });
    };
    let place = pad::place_of(codes, form.pad, form.code);
    refusals::form_refusal(form, head.pads, place)?;
    let e = events::form_event(form);
    let k = event_place(codes, e.pad, events::code_of(e), form.code, place);
    let change = cells::settle(state, true, e, head.counter, k);
    down::follow(
        kinds,
        &mut head.down,
        &mut head.held,
        &mut head.heldaxes,
        k,
        change,
    );
    Ok(())
}

// Gives an event to the state.
pub fn update<'s>(
    head: Head,
    codes: &'s [u32; 208],
    kinds: &'s [u8; 208],
    state: &mut State<'_>,
    event: &[u8],
) -> AnsweredHead
    ensures answered { (names renames queuebytes queuecodes : List ℕ) →
        answered result.head (listed codes.now kinds.now names renames)
        (columns_with state.new queuebytes queuecodes) result.answer
        ≡ update_of (hub_of head (listed codes.now kinds.now names renames)
        (columns_with state.old queuebytes queuecodes))
        event.now }
    ensures same { SameState state.old state.new }
{
    let mut settled = head;
    let answer = settle_event(&mut settled, codes, kinds, state, event);
    AnsweredHead {
        head: settled,
        answer,
    }
}

// ---- insert_event: the same, then 13

// Puts an event behind those that wait, or tells the first refusal.
fn queue_event(
    head: &mut Head,
    codes: &[u32; 208],
    values: &mut Values,
    times: &mut Times,
    queuebytes: &mut QueueBytes,
    queuecodes: &mut QueueCodes,
    event: &[u8],
) -> Result<(), Refusal>
    ensures { (kinds names renames : List ℕ) (hasbutton hasaxis marks : List Bool) →
        answered head.new (listed codes.now kinds names renames)
        (columns hasbutton hasaxis values.new times.new marks queuebytes.new queuecodes.new) result
        ≡ insert_of (hub_of head.old (listed codes.now kinds names renames)
        (columns hasbutton hasaxis values.old times.old marks queuebytes.old queuecodes.old))
        event.now }
{
    let Some(form) = wire::read_event(event) else {
        return Err(Refusal { number: MALFORMED });
    };
    let place = pad::place_of(codes, form.pad, form.code);
    refusals::insert_refusal(form, head.pads, place, head.waiting)?;
    let e = events::form_event(form);
    head.waiting = queueing::push(
        values,
        times,
        queuebytes,
        queuecodes,
        head.head,
        head.waiting,
        e,
    );
    Ok(())
}

// Lets an event wait.
pub fn insert_event(
    head: Head,
    codes: &[u32; 208],
    values: &mut Values,
    times: &mut Times,
    queuebytes: &mut QueueBytes,
    queuecodes: &mut QueueCodes,
    event: &[u8],
) -> AnsweredHead
    ensures { (kinds names renames : List ℕ) (hasbutton hasaxis marks : List Bool) →
        answered result.head (listed codes.now kinds names renames)
        (columns hasbutton hasaxis values.new times.new marks queuebytes.new queuecodes.new) result.answer
        ≡ insert_of (hub_of head (listed codes.now kinds names renames)
        (columns hasbutton hasaxis values.old times.old marks queuebytes.old queuecodes.old))
        event.now }
{
    let mut queued = head;
    let answer = queue_event(
        &mut queued,
        codes,
        values,
        times,
        queuebytes,
        queuecodes,
        event,
    );
    AnsweredHead {
        head: queued,
        answer,
    }
}
