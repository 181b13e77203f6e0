// The operations of the oracle's scenario form (`oracle/README.md`) that leave the hub as it is, on a hub that is lent: the queries and Repeat. Each answers what
// its row of the table says (specs/Asked.antt), for every opcode and payload, by the call's own contract: a function here picks the call and reads the payload.
#![tactic(auto)]

mod held;
mod old;
mod pressed;
mod tilt;
mod timed;

ghost use Rattle.std.specs.Prelude.{◌≡◌, List, ℕ};
ghost use Rattle.hub.specs.Lent.{Listed, Columns, listed, columns, hub_of};
ghost use Rattle.replay_queries.specs.Asked.{stands, of_head, by_pad, state_by_code, by_code, by_name, asked_of};

use columns::{Marks, Times, Values};
use hub::{Buttons, Head};
use replay_answers::Asked;

// the opcodes, in the order of `oracle/README.md`; no enum, since `asked_of` of specs/Asked.antt speaks of their numbers
const REPEAT: u8 = 7;

const COUNTER: u8 = 9;

const PRESSED_BY_CODE: u8 = 11;

const VALUE_BY_CODE: u8 = 12;

const PRESSED_BY_NAME: u8 = 13;

const VALUE_BY_NAME: u8 = 14;

const BUTTON_BY_CODE: u8 = 15;

const AXIS_BY_CODE: u8 = 16;

const BUTTON_BY_NAME: u8 = 17;

const AXIS_BY_NAME: u8 = 18;

const NAME_OF_CODE: u8 = 19;

const CODE_OF_NAME: u8 = 20;

const THRESHOLD: u8 = 21;

const STANDS: u8 = 22;

const WAITING: u8 = 23;

const DOWN: u8 = 38;

const LOWEST: u8 = 39;

const PAIR: u8 = 41;

const SINCE: u8 = 42;

const OLD: u8 = 44;

// how long the payloads are: pad 1 and code 4, pad 1 and name 1
const CODE_PAYLOAD: usize = 5;

const NAME_PAYLOAD: usize = 2;

// ---- by a code

// What the state has for a code.
#[tactic(auto, unfolding(crate::specs::Asked::state_by_code))]
fn state_by_code(
    head: Head,
    codes: &[u32; 208],
    hasbutton: &[bool; 208],
    hasaxis: &[bool; 208],
    values: &Values,
    times: &Times,
    marks: &Marks,
    opcode: u8,
    p: u8,
    code: u32,
) -> Asked
    ensures { (kinds names renames queuebytes queuecodes : List ℕ) →
        result ≡ state_by_code (hub_of head (listed codes.now kinds names renames)
        (columns hasbutton.now hasaxis.now values.now times.now marks.now queuebytes queuecodes))
        opcode p code }
{
    let buttons = Buttons {
        hasbutton,
        values,
        times,
        marks,
    };
    match opcode {
        PRESSED_BY_CODE => Asked::Truth(queries::is_pressed_by_code(
            head, codes, &buttons, p, code,
        )),
        VALUE_BY_CODE => Asked::Value(queries::value_by_code(
            head, codes, &buttons, hasaxis, p, code,
        )),
        BUTTON_BY_CODE => Asked::Button(queries::button_data_by_code(
            head, codes, &buttons, p, code,
        )),
        AXIS_BY_CODE => Asked::Axis(queries::axis_data_by_code(
            head, codes, hasaxis, values, times, p, code,
        )),
        _ => Asked::Nothing,
    }
}

// What the sheet has for a code, else what the state has.
#[tactic(auto, unfolding(crate::specs::Asked::by_code))]
fn by_code<'s>(
    head: Head,
    codes: &'s [u32; 208],
    kinds: &[u8; 208],
    names: &'s [u8; 208],
    renames: &'s [u8; 208],
    hasbutton: &[bool; 208],
    hasaxis: &[bool; 208],
    values: &Values,
    times: &Times,
    marks: &Marks,
    opcode: u8,
    p: u8,
    code: u32,
) -> Asked
    ensures { (queuebytes queuecodes : List ℕ) →
        result ≡ by_code (hub_of head (listed codes.now kinds.now names.now renames.now)
        (columns hasbutton.now hasaxis.now values.now times.now marks.now queuebytes queuecodes))
        opcode p code }
{
    match opcode {
        NAME_OF_CODE => {
            Asked::Name(queries::axis_or_btn_name(head, codes, names, renames, p, code))
        }
        THRESHOLD => Asked::Threshold(queries::deadzone_threshold(
            head, codes, kinds, values, marks, p, code,
        )),
        _ => state_by_code(
            head, codes, hasbutton, hasaxis, values, times, marks, opcode, p, code,
        ),
    }
}

// ---- by a name

#[tactic(auto, unfolding(crate::specs::Asked::by_name))]
fn by_name<'s>(
    head: Head,
    codes: &'s [u32; 208],
    names: &'s [u8; 208],
    renames: &'s [u8; 208],
    hasbutton: &[bool; 208],
    hasaxis: &[bool; 208],
    values: &Values,
    times: &Times,
    marks: &Marks,
    opcode: u8,
    p: u8,
    name: u8,
) -> Asked
    ensures { (kinds queuebytes queuecodes : List ℕ) →
        result ≡ by_name (hub_of head (listed codes.now kinds names.now renames.now)
        (columns hasbutton.now hasaxis.now values.now times.now marks.now queuebytes queuecodes))
        opcode p name }
{
    let buttons = Buttons {
        hasbutton,
        values,
        times,
        marks,
    };
    match opcode {
        PRESSED_BY_NAME => Asked::Truth(queries::is_pressed(
            head, codes, names, renames, &buttons, p, name,
        )),
        VALUE_BY_NAME => Asked::Value(queries::value(
            head, names, renames, &buttons, hasaxis, p, name,
        )),
        BUTTON_BY_NAME => Asked::Button(queries::button_data(
            head, names, renames, &buttons, p, name,
        )),
        AXIS_BY_NAME => Asked::Axis(queries::axis_data(
            head, names, renames, hasaxis, values, times, p, name,
        )),
        CODE_OF_NAME => Asked::Code(queries::code_of_name(head, codes, names, renames, p, name)),
        _ => Asked::Nothing,
    }
}

// ---- the head

// Whether a pad is connected.
#[tactic(auto, unfolding(crate::specs::Asked::stands))]
fn stands(head: Head, payload: &[u8]) -> Asked
    ensures { (s : Listed) (t : Columns) → result ≡ stands (hub_of head s t) payload.now }
{
    match payload {
        [p] => Asked::Stands(queries::is_connected(head, *p)),
        _ => Asked::Nothing,
    }
}

// What the head has, whatever the arrays hold.
#[tactic(auto, unfolding(crate::specs::Asked::of_head))]
fn of_head(head: Head, opcode: u8, payload: &[u8]) -> Asked
    ensures { (s : Listed) (t : Columns) → result ≡ of_head (hub_of head s t) opcode payload.now }
{
    match opcode {
        COUNTER => Asked::Counter(clock::counter(head)),
        STANDS => stands(head, payload),
        WAITING => Asked::Waiting(queries::waiting(head)),
        _ => Asked::Nothing,
    }
}

// What is down on a pad and whether it is old, else what the head has.
#[tactic(auto, unfolding(crate::specs::Asked::by_pad))]
fn by_pad(head: Head, codes: &[u32; 208], opcode: u8, payload: &[u8]) -> Asked
    ensures { (kinds names renames : List ℕ) (t : Columns) →
        result ≡ by_pad (hub_of head (listed codes.now kinds names renames) t) opcode payload.now }
{
    // if by if: as a `match`, the proof of the last arm did not close
    if opcode == DOWN {
        return pressed::down(head, payload);
    }
    if opcode == LOWEST {
        return pressed::lowest(head, codes, payload);
    }
    if opcode == OLD {
        return old::old(head, payload);
    }
    of_head(head, opcode, payload)
}

// ---- any operation that leaves the hub as it is

// The payload's length says whether a query goes by a code or by a name.
#[tactic(auto, unfolding(crate::specs::Asked::asked_of, crate::specs::Asked::queried))]
pub fn ask<'s>(
    head: Head,
    codes: &'s [u32; 208],
    kinds: &[u8; 208],
    names: &'s [u8; 208],
    renames: &'s [u8; 208],
    hasbutton: &[bool; 208],
    hasaxis: &[bool; 208],
    values: &Values,
    times: &Times,
    marks: &Marks,
    opcode: u8,
    payload: &[u8],
) -> Asked
    ensures { (queuebytes queuecodes : List ℕ) →
        result ≡ asked_of (hub_of head (listed codes.now kinds.now names.now renames.now)
        (columns hasbutton.now hasaxis.now values.now times.now marks.now queuebytes queuecodes))
        opcode payload.now }
{
    // if by if: as a `match`, the proof of the last arm did not close
    if opcode == REPEAT {
        return timed::repeat(
            head, codes, names, renames, hasbutton, values, times, marks, payload,
        );
    }
    if opcode == SINCE {
        return held::since(head, codes, hasbutton, values, times, marks, payload);
    }
    if opcode == PAIR {
        return tilt::pair(payload);
    }
    if opcode < PRESSED_BY_CODE {
        return by_pad(head, codes, opcode, payload);
    }
    if THRESHOLD < opcode {
        return by_pad(head, codes, opcode, payload);
    }
    if payload.len() == CODE_PAYLOAD {
        return by_code(
            head,
            codes,
            kinds,
            names,
            renames,
            hasbutton,
            hasaxis,
            values,
            times,
            marks,
            opcode,
            payload[0],
            wire::read4(payload, 1),
        );
    }
    if payload.len() == NAME_PAYLOAD {
        return by_name(
            head, codes, names, renames, hasbutton, hasaxis, values, times, marks, opcode,
            payload[0], payload[1],
        );
    }
    Asked::Nothing
}
