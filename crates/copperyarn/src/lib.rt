// The hub for programs in C and Rust, every public call of it: they hold the head and the arrays, and lend what a call reads or writes; nothing of the hub is
// copied but the head's 120 bytes. `include/copperyarn.h` and `rust/` put one struct in front, whose fields they lend. Each export is proved to be the call: its
// contract is the law book's equation at the hub that head and arrays stand for, with the answer in the plain struct that crosses (`crossing`). It asks nothing.
#![tactic(auto)]

mod asking;

ghost use Rattle.std.specs.Prelude.{◌≡◌, Bool, List, ℕ, Float};
ghost use Rattle.rules.specs.Calls.{new_of, register_of, register_archived_of, rename_of, update_of, insert_of, inc_of, reset_of};
ghost use Rattle.numbers.specs.Tilt.{tilted_of};
ghost use Rattle.rules.specs.Pump.{pump_of};
ghost use Rattle.rules.specs.Tilt.{pump_tilt};
ghost use Rattle.rules.specs.Repeat.{repeat_of};
ghost use Rattle.hub.specs.Lent.{Listed, Columns, listed, columns, hub_of};
ghost use Rattle.crossing.specs.Crossing.{tilted_pair_of, due_of, due_bytes};
ghost use Rattle.copperyarn.specs.Exports.{done, done_of, enrolled, enrolled_of, reported, reported_of};

use columns::{Marks, QueueBytes, QueueCodes, Times, Values};
use crossing::{Done, Due, Pumped, Registered, TiltedPair};
use hub::{Buttons, Head, State};

// ---- setting a desk up

// A fresh hub with its thresholds and flags, whatever the arrays held. Refuses 1, and then leaves a hub with thresholds 1.0 and 0.0.
#[unsafe(no_mangle)]
pub extern "C" fn copperyarn_lent_new(
    pressed: f32,
    released: f32,
    reversed: bool,
    filters: bool,
    updates: bool,
    codes: &mut [u32; 208],
    kinds: &mut [u8; 208],
    names: &mut [u8; 208],
    renames: &mut [u8; 208],
    hasbutton: &mut [bool; 208],
    hasaxis: &mut [bool; 208],
    values: &mut Values,
    times: &mut Times,
    marks: &mut Marks,
    queuebytes: &mut QueueBytes,
    queuecodes: &mut QueueCodes,
) -> Done
    ensures { done result.head (listed codes.new kinds.new names.new renames.new)
        (columns hasbutton.new hasaxis.new values.new times.new marks.new queuebytes.new queuecodes.new) result.refusal
        ≡ done_of (new_of pressed released reversed filters updates) }
{
    let r = desk::new_hub(
        pressed, released, reversed, filters, updates, codes, kinds, names, renames, hasbutton,
        hasaxis, values, times, marks, queuebytes, queuecodes,
    );
    Done {
        head: r.head,
        refusal: crossing::refusal_of(r.answer),
    }
}

// A pad from its sheet: the pad's number. Refuses 2, 3, 4, 29, 5.
#[unsafe(no_mangle)]
pub extern "C" fn copperyarn_lent_register(
    head: Head,
    codes: &mut [u32; 208],
    kinds: &mut [u8; 208],
    names: &mut [u8; 208],
    hasbutton: &mut [bool; 208],
    hasaxis: &mut [bool; 208],
    values: &mut Values,
    marks: &mut Marks,
    sheet: &[u8],
) -> Registered
    ensures { (renames times queuebytes queuecodes : List ℕ) →
        enrolled result.head (listed codes.new kinds.new names.new renames)
        (columns hasbutton.new hasaxis.new values.new times marks.new queuebytes queuecodes) result.pad
        ≡ enrolled_of (register_of (hub_of head (listed codes.old kinds.old names.old renames)
        (columns hasbutton.old hasaxis.old values.old times marks.old queuebytes queuecodes))
        sheet.now) }
{
    let r = desk::register(
        false, head, codes, kinds, names, hasbutton, hasaxis, values, marks, sheet,
    );
    Registered {
        head: r.head,
        pad: crossing::pad_of(r.answer),
    }
}

// A pad from an archived sheet, whose hats may be partial: the pad's number. Refuses 2, 3, 4, 5.
#[unsafe(no_mangle)]
pub extern "C" fn copperyarn_lent_register_archived(
    head: Head,
    codes: &mut [u32; 208],
    kinds: &mut [u8; 208],
    names: &mut [u8; 208],
    hasbutton: &mut [bool; 208],
    hasaxis: &mut [bool; 208],
    values: &mut Values,
    marks: &mut Marks,
    sheet: &[u8],
) -> Registered
    ensures { (renames times queuebytes queuecodes : List ℕ) →
        enrolled result.head (listed codes.new kinds.new names.new renames)
        (columns hasbutton.new hasaxis.new values.new times marks.new queuebytes queuecodes) result.pad
        ≡ enrolled_of (register_archived_of (hub_of head (listed codes.old kinds.old names.old renames)
        (columns hasbutton.old hasaxis.old values.old times marks.old queuebytes queuecodes))
        sheet.now) }
{
    let r = desk::register(
        true, head, codes, kinds, names, hasbutton, hasaxis, values, marks, sheet,
    );
    Registered {
        head: r.head,
        pad: crossing::pad_of(r.answer),
    }
}

// New names for a pad's elements, one for each in code order. Refuses 6, 7, 3, 4, 5.
#[unsafe(no_mangle)]
pub extern "C" fn copperyarn_lent_rename<'s>(
    head: Head,
    codes: &'s [u32; 208],
    kinds: &'s [u8; 208],
    renames: &mut [u8; 208],
    p: u8,
    list: &[u8],
) -> Done
    ensures { (names times queuebytes queuecodes : List ℕ) (hasbutton hasaxis marks : List Bool) (values : List Float) →
        done result.head (listed codes.now kinds.now names renames.new)
        (columns hasbutton hasaxis values times marks queuebytes queuecodes) result.refusal
        ≡ done_of (rename_of (hub_of head (listed codes.now kinds.now names renames.old)
        (columns hasbutton hasaxis values times marks queuebytes queuecodes))
        p list.now) }
{
    let r = desk::rename(head, codes, kinds, renames, p, list);
    Done {
        head: r.head,
        refusal: crossing::refusal_of(r.answer),
    }
}

// ---- events

// Takes records and waiting events, and writes what is handed out, 22 bytes an event; every answer has the report beside it. Refuses 14 and 8 for the whole call, and a record by 8, 6, 9, 10, 11, 12.
#[unsafe(no_mangle)]
pub extern "C" fn copperyarn_lent_pump<'s>(
    head: Head,
    codes: &'s [u32; 208],
    kinds: &'s [u8; 208],
    names: &'s [u8; 208],
    renames: &'s [u8; 208],
    hasbutton: &mut [bool; 208],
    hasaxis: &mut [bool; 208],
    values: &mut Values,
    times: &mut Times,
    marks: &mut Marks,
    queuebytes: &mut QueueBytes,
    queuecodes: &mut QueueCodes,
    batch: &[u8],
    place: usize,
    out: &mut [u8],
    allowance: u16,
) -> Pumped
    ensures { reported result.head (listed codes.now kinds.now names.now renames.now)
        (columns hasbutton.new hasaxis.new values.new times.new marks.new queuebytes.new queuecodes.new) result.report out.new
        ≡ reported_of (pump_of (hub_of head (listed codes.now kinds.now names.now renames.now)
        (columns hasbutton.old hasaxis.old values.old times.old marks.old queuebytes.old queuecodes.old))
        batch.now place out.old allowance)
        (pump_tilt (hub_of head (listed codes.now kinds.now names.now renames.now)
        (columns hasbutton.old hasaxis.old values.old times.old marks.old queuebytes.old queuecodes.old))
        batch.now place out.old allowance) }
{
    let listed = hub::Listing {
        codes,
        kinds,
        names,
        renames,
    };
    let mut lent = hub::Store {
        hasbutton,
        hasaxis,
        values,
        times,
        marks,
        queuebytes,
        queuecodes,
    };
    let r = pump::pump(head, &listed, &mut lent, batch, place, out, allowance);
    Pumped {
        head: r.head,
        report: crossing::report_of(r.answer, r.tilt),
    }
}

// The deadzone calculation by itself, as a calibration screen asks it: the pair, and which of three it was. Refuses nothing.
#[unsafe(no_mangle)]
pub extern "C" fn copperyarn_deadzone(x: f32, y: f32, threshold: f32) -> TiltedPair
    ensures { result ≡ tilted_pair_of (tilted_of x y threshold) }
{
    crossing::tilted_of(scale::apply_deadzone(x, y, threshold))
}

// Gives an event's bytes to the state: the head after it, and the refusal's number, 0 where it was done. Refuses 8, 6, 9, 11, 12.
#[unsafe(no_mangle)]
pub extern "C" fn copperyarn_lent_update<'s>(
    head: Head,
    codes: &'s [u32; 208],
    kinds: &'s [u8; 208],
    hasbutton: &mut [bool; 208],
    hasaxis: &mut [bool; 208],
    values: &mut Values,
    times: &mut Times,
    marks: &mut Marks,
    event: &[u8],
) -> Done
    ensures { (names renames queuebytes queuecodes : List ℕ) →
        done result.head (listed codes.now kinds.now names renames)
        (columns hasbutton.new hasaxis.new values.new times.new marks.new queuebytes queuecodes) result.refusal
        ≡ done_of (update_of (hub_of head (listed codes.now kinds.now names renames)
        (columns hasbutton.old hasaxis.old values.old times.old marks.old queuebytes queuecodes))
        event.now) }
{
    let mut state = State {
        hasbutton,
        hasaxis,
        values,
        times,
        marks,
    };
    let r = calls::update(head, codes, kinds, &mut state, event);
    Done {
        head: r.head,
        refusal: crossing::refusal_of(r.answer),
    }
}

// Lets an event's bytes wait. Refuses 8, 6, 9, 11, 12, 13.
#[unsafe(no_mangle)]
pub extern "C" fn copperyarn_lent_insert_event(
    head: Head,
    codes: &[u32; 208],
    values: &mut Values,
    times: &mut Times,
    queuebytes: &mut QueueBytes,
    queuecodes: &mut QueueCodes,
    event: &[u8],
) -> Done
    ensures { (kinds names renames : List ℕ) (hasbutton hasaxis marks : List Bool) →
        done result.head (listed codes.now kinds names renames)
        (columns hasbutton hasaxis values.new times.new marks queuebytes.new queuecodes.new) result.refusal
        ≡ done_of (insert_of (hub_of head (listed codes.now kinds names renames)
        (columns hasbutton hasaxis values.old times.old marks queuebytes.old queuecodes.old))
        event.now) }
{
    let r = calls::insert_event(head, codes, values, times, queuebytes, queuecodes, event);
    Done {
        head: r.head,
        refusal: crossing::refusal_of(r.answer),
    }
}

// The repeat that is due at a time, its event's bytes in the lent buffer, which stays where none is. Refuses 15, 12.
#[unsafe(no_mangle)]
pub extern "C" fn copperyarn_lent_repeat<'s>(
    head: Head,
    codes: &[u32; 208],
    names: &'s [u8; 208],
    renames: &'s [u8; 208],
    hasbutton: &[bool; 208],
    values: &Values,
    times: &Times,
    marks: &Marks,
    after: u64,
    every: u64,
    clock: u64,
    event: &mut [u8; 22],
) -> Due
    ensures { (kinds queuebytes queuecodes : List ℕ) (hasaxis : List Bool) →
        (result ≡ due_of (repeat_of (hub_of head (listed codes.now kinds names.now renames.now)
        (columns hasbutton.now hasaxis values.now times.now marks.now queuebytes queuecodes))
        after every clock))
        × (event.new ≡ due_bytes (repeat_of (hub_of head (listed codes.now kinds names.now renames.now)
        (columns hasbutton.now hasaxis values.now times.now marks.now queuebytes queuecodes))
        after every clock) event.old) }
{
    let buttons = Buttons {
        hasbutton,
        values,
        times,
        marks,
    };
    let due = clock::repeat(head, codes, names, renames, &buttons, after, every, clock);
    crossing::due_of(due, event)
}

// ---- the counter

// The head with its counter one up, and 0 after its largest.
#[unsafe(no_mangle)]
pub extern "C" fn copperyarn_lent_inc(head: Head) -> Head
    ensures { (s : Listed) (t : Columns) → hub_of result s t ≡ inc_of (hub_of head s t) }
{
    clock::inc(head)
}

// The counter.
#[unsafe(no_mangle)]
pub extern "C" fn copperyarn_lent_counter(head: Head) -> u64
    ensures { (s : Listed) (t : Columns) → result ≡ (hub_of head s t).counter }
{
    clock::counter(head)
}

// The head with its counter at 0.
#[unsafe(no_mangle)]
pub extern "C" fn copperyarn_lent_reset_counter(head: Head) -> Head
    ensures { (s : Listed) (t : Columns) → hub_of result s t ≡ reset_of (hub_of head s t) }
{
    clock::reset_counter(head)
}
