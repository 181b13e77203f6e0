// The calls that set a desk up, on a hub that is lent: a fresh hub, a pad from its sheet, and new names for a pad. The head goes in and comes back by value,
// each array is lent by itself and changed where it stands. Each equals its definition in the law book for every input, at the hub that head and arrays stand
// for, whatever the arrays hold that it is not lent.
#![tactic(auto)]

ghost use Rattle.std.specs.Prelude.{◌≡◌, Bool, List, ℕ, ◌<◌, Float};
ghost use Rattle.rules.specs.Names.{pad_limit};
ghost use Rattle.rules.specs.Refusals.{judged};
ghost use Rattle.rules.specs.Calls.{new_of, register_refusal, register_as, rename_refusal, rename_of};
ghost use Rattle.hub.specs.Lent.{Listed, Columns, listed, columns, hub_of, answered, registered};
ghost use Rattle.hub.specs.Heads.{fresh_head};
ghost use Rattle.desk.specs.Heads.{registered_head, renamed_head};

use columns::{Marks, QueueBytes, QueueCodes, Times, Values};
use hub::{AnsweredHead, Head, RegisteredHead};
use rules::{COUNT_AT, FLAGS_PER_PAD, HATS_AT, NO_NAME, PADS, PLACES_PER_PAD, Refusal};

// ---- new

// The head of a hub with no pads, an empty queue and the counter at 0.
#[tactic(auto, unfolding(hub::specs::Heads::fresh_head))]
fn fresh(pressed: f32, released: f32, reversed: bool, filters: bool, updates: bool) -> Head
    ensures { result ≡ fresh_head pressed released reversed filters updates }
{
    Head {
        pressed,
        released,
        reversed,
        filters,
        updates,
        counter: 0,
        down: [0; 4],
        pads: 0,
        counts: [0; 4],
        connected: [false; 4],
        hats: [0; 4],
        converts: [false; 4],
        renamed: [false; 4],
        newhats: [0; 4],
        newconverts: [false; 4],
        held: [0; 4],
        heldaxes: [0; 4],
        flags: [false; 24],
        head: 0,
        waiting: 0,
    }
}

// A fresh hub with its thresholds and flags, whatever the arrays held; 1 for thresholds that are none.
pub fn new_hub(
    pressed: f32,
    released: f32,
    reversed: bool,
    filters: bool,
    updates: bool,
    codes: &mut [u32; 208],
    kinds: &mut [u8; 208],
    names: &mut [u8; 208],
    renames: &mut [u8; 208],
    hasbutton: &mut [bool; 208],
    hasaxis: &mut [bool; 208],
    values: &mut Values,
    times: &mut Times,
    marks: &mut Marks,
    queuebytes: &mut QueueBytes,
    queuecodes: &mut QueueCodes,
) -> AnsweredHead
    ensures { answered result.head (listed codes.new kinds.new names.new renames.new)
        (columns hasbutton.new hasaxis.new values.new times.new marks.new
        queuebytes.new queuecodes.new) result.answer
        ≡ new_of pressed released reversed filters updates }
{
    *codes = [0; 208];
    *kinds = [0; 208];
    *names = [NO_NAME; 208];
    *renames = [NO_NAME; 208];
    *hasbutton = [false; 208];
    *hasaxis = [false; 208];
    columns::blank(values, times, marks, queuebytes, queuecodes);
    if let Err(refusal) = refusals::thresholds_refusal(pressed, released) {
        return AnsweredHead {
            head: fresh(1.0, 0.0, false, false, false),
            answer: Err(refusal),
        };
    }
    AnsweredHead {
        head: fresh(pressed, released, reversed, filters, updates),
        answer: Ok(()),
    }
}

// ---- register

// The head with one pad more.
#[tactic(auto, unfolding(crate::specs::Heads::registered_head))]
fn with_pad(head: Head, p: u8, hats: u8, count: u8, converts: bool) -> Head
    requires { p < pad_limit }
    ensures { result ≡ registered_head head p hats count converts }
{
    let mut h = head;
    down::clear(&mut h.down, &mut h.held, &mut h.heldaxes, p);
    h.pads = p + 1;
    pad::set_pad(&mut h.counts, p, count);
    pad::mark_pad(&mut h.connected, p, true);
    pad::set_pad(&mut h.hats, p, hats);
    pad::mark_pad(&mut h.converts, p, converts);
    pad::mark_pad(&mut h.renamed, p, false);
    pad::clear_flags(&mut h.flags, FLAGS_PER_PAD * usize::from(p), FLAGS_PER_PAD);
    h
}

// The refusals of a registration: 2, where the four pads stand, then its sheet's.
#[tactic(auto, unfolding(rules::specs::Calls::register_refusal))]
fn register_refusal(archived: bool, pads: u8, sheet: &[u8]) -> Result<(), Refusal>
    ensures { result ≡ judged (register_refusal archived pads sheet.now) }
{
    refusals::refuse_unless(pads < PADS, 2)?;
    sheets::sheet_refusal(archived, sheet)
}

// A pad from its sheet: the pad's number, or 2, 3, 4, 29, 5 in this order. W-212's second call is the one with `archived`, which leaves 29 out.
#[tactic(auto, unfolding(rules::specs::Sheets::hats_of, rules::specs::Sheets::count_of))]
pub fn register(
    archived: bool,
    head: Head,
    codes: &mut [u32; 208],
    kinds: &mut [u8; 208],
    names: &mut [u8; 208],
    hasbutton: &mut [bool; 208],
    hasaxis: &mut [bool; 208],
    values: &mut Values,
    marks: &mut Marks,
    sheet: &[u8],
) -> RegisteredHead
    ensures { (renames times queuebytes queuecodes : List ℕ) →
        registered result (listed codes.new kinds.new names.new renames)
        (columns hasbutton.new hasaxis.new values.new times marks.new queuebytes queuecodes)
        ≡ register_as archived (hub_of head (listed codes.old kinds.old names.old renames)
        (columns hasbutton.old hasaxis.old values.old times marks.old queuebytes queuecodes))
        sheet.now }
{
    let p = head.pads;
    if let Err(refusal) = register_refusal(archived, p, sheet) {
        return RegisteredHead {
            head,
            answer: Err(refusal),
        };
    }
    let hats = sheet[HATS_AT];
    let count = sheet[COUNT_AT];
    let start = PLACES_PER_PAD * usize::from(p);
    layout::lay_in(codes, kinds, names, values, marks, start, sheet);
    pad::clear(hasbutton, start, PLACES_PER_PAD);
    pad::clear(hasaxis, start, PLACES_PER_PAD);
    let converts = pad::converts(hats, codes, names, p);
    RegisteredHead {
        head: with_pad(head, p, hats, count, converts),
        answer: Ok(p),
    }
}

// ---- rename

#[tactic(auto, unfolding(rules::specs::Calls::rename_refusal))]
fn rename_refusal(head: Head, p: u8, list: &[u8]) -> Result<(), Refusal>
    ensures { (s : Listed) (t : Columns) →
        result ≡ judged (rename_refusal (hub_of head s t) p list.now) }
{
    refusals::pad_refusal(head.pads, p)?;
    refusals::refuse_unless(pad::pad_bool(&head.connected, p), 7)?;
    sheets::rename_list_refusal(list, pad::pad_number(&head.counts, p))
}

// The head with a pad that goes by other names, and whose hats are 0.
#[tactic(auto, unfolding(crate::specs::Heads::renamed_head))]
fn with_names(head: Head, p: u8, converts: bool) -> Head
    ensures { result ≡ renamed_head head p converts }
{
    let mut h = head;
    pad::mark_pad(&mut h.renamed, p, true);
    pad::set_pad(&mut h.newhats, p, 0);
    pad::mark_pad(&mut h.newconverts, p, converts);
    h
}

// New names for a pad's elements, one for each in code order: 6, 7, 3, 4, 5 in this order.
pub fn rename<'s>(
    head: Head,
    codes: &'s [u32; 208],
    kinds: &'s [u8; 208],
    renames: &mut [u8; 208],
    p: u8,
    list: &[u8],
) -> AnsweredHead
    ensures { (names times queuebytes queuecodes : List ℕ) (hasbutton hasaxis marks : List Bool) (values : List Float) →
        answered result.head (listed codes.now kinds.now names renames.new)
        (columns hasbutton hasaxis values times marks queuebytes queuecodes) result.answer
        ≡ rename_of (hub_of head (listed codes.now kinds.now names renames.old)
        (columns hasbutton hasaxis values times marks queuebytes queuecodes)) p list.now }
{
    if let Err(refusal) = rename_refusal(head, p, list) {
        return AnsweredHead {
            head,
            answer: Err(refusal),
        };
    }
    layout::rename_in(renames, kinds, p, list);
    let converts = pad::converts(0, codes, renames, p);
    AnsweredHead {
        head: with_names(head, p, converts),
        answer: Ok(()),
    }
}
