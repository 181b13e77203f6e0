// The queries of document 01, of W-212 and W-213, on a hub that is lent: each takes the head and the arrays that it reads, and changes nothing. "Query: 6, 16"; "A query by a code
// not known reads false or 0.0". Each answers what its definition in the law book says, at the hub that head and arrays stand for, for any numbers and whatever
// the arrays hold that it is not lent.
#![tactic(auto)]

mod reading;

ghost use Rattle.std.specs.Prelude.{◌≡◌, Bool, true, false, List, ℕ, ◌≤◌, Float};
ghost use Rattle.rules.specs.Names.{nowhere};
ghost use Rattle.rules.specs.Hub.{hats_now};
ghost use Rattle.rules.specs.Queries.{pressed_by_code, pressed_by_name, connected_of, value_by_code, value_by_name, threshold_by_code};
ghost use Rattle.rules.specs.Queries.{button_place_of, button_by_code, button_by_name, axis_by_code, axis_by_name, name_by_code, code_by_name, down_of, lowest_pressed, old_of};
ghost use Rattle.gather.specs.EventPlaces.{PlaceIs};
ghost use Rattle.hub.specs.Lent.{Listed, Columns, listed, columns, hub_of};

use columns::{Marks, Times, Values};
use hub::{Buttons, Head};
use rules::{
    AxisData, ButtonData, ELEMENT_AXIS, NO_NAME, NOWHERE, PLACES_PER_PAD, PadDown, Refusal,
};

// ---- pressed

// gilrs's `Gamepad::is_pressed` by a code: false for one that is not known. Refuses 6.
#[tactic(auto, unfolding(rules::specs::Queries::pressed_by_code, rules::specs::Hub::pressed_at))]
pub fn is_pressed_by_code(
    head: Head,
    codes: &[u32; 208],
    buttons: &Buttons<'_>,
    p: u8,
    code: u32,
) -> Result<bool, Refusal>
    ensures { (kinds names renames queuebytes queuecodes : List ℕ) (hasaxis : List Bool) → let b = buttons.now in
        result ≡ pressed_by_code (hub_of head (listed codes.now kinds names renames)
        (columns b.hasbutton.now hasaxis b.values.now b.times.now b.marks.now queuebytes queuecodes))
        p code }
{
    refusals::pad_refusal(head.pads, p)?; // 6, and not false
    let place = pad::place_of(codes, p, code);
    Ok(cells::held_in(
        buttons.hasbutton,
        buttons.values,
        buttons.times,
        buttons.marks,
        place,
    ))
}

// "`is_pressed` by a name that no element has falls back to `to_nec`"
#[tactic(auto, unfolding(rules::specs::Queries::button_place_of))]
fn button_place<'a>(
    codes: &'a [u32; 208],
    names: &'a [u8; 208],
    renames: &'a [u8; 208],
    renamed: &'a [bool; 4],
    p: u8,
    name: u8,
) -> usize
    ensures { PlaceIs (button_place_of codes.now names.now renames.now renamed.now p name) result }
{
    let place = gather::present_place(names, renames, renamed, p, name);
    if place < NOWHERE {
        place
    } else {
        pad::place_of(codes, p, names::to_nec(name))
    }
}

// The same by a button's name, or by `to_nec` where no element has it. Refuses 6, 16.
#[tactic(auto, unfolding(rules::specs::Queries::pressed_by_name, rules::specs::Queries::button_place_of, rules::specs::Hub::pressed_at))]
pub fn is_pressed<'s>(
    head: Head,
    codes: &'s [u32; 208],
    names: &'s [u8; 208],
    renames: &'s [u8; 208],
    buttons: &Buttons<'_>,
    p: u8,
    name: u8,
) -> Result<bool, Refusal>
    ensures { (kinds queuebytes queuecodes : List ℕ) (hasaxis : List Bool) → let b = buttons.now in
        result ≡ pressed_by_name (hub_of head (listed codes.now kinds names.now renames.now)
        (columns b.hasbutton.now hasaxis b.values.now b.times.now b.marks.now queuebytes queuecodes))
        p name }
{
    refusals::button_query_refusal(head.pads, p, name)?; // 6 or 16, and not false
    let place = button_place(codes, names, renames, &head.renamed, p, name);
    Ok(cells::held_in(
        buttons.hasbutton,
        buttons.values,
        buttons.times,
        buttons.marks,
        place,
    ))
}

// ---- value

// gilrs's `Gamepad::value` by a code: the axis record's, else the button record's, else 0.0. Refuses 6.
#[tactic(auto, unfolding(rules::specs::Queries::value_by_code, rules::specs::Hub::value_at))]
pub fn value_by_code(
    head: Head,
    codes: &[u32; 208],
    buttons: &Buttons<'_>,
    hasaxis: &[bool; 208],
    p: u8,
    code: u32,
) -> Result<Option<f32>, Refusal>
    ensures { (kinds names renames queuebytes queuecodes : List ℕ) → let b = buttons.now in
        result ≡ value_by_code (hub_of head (listed codes.now kinds names renames)
        (columns b.hasbutton.now hasaxis.now b.values.now b.times.now b.marks.now queuebytes queuecodes))
        p code }
{
    refusals::pad_refusal(head.pads, p)?;
    let place = pad::place_of(codes, p, code);
    let Buttons {
        hasbutton,
        values,
        times,
        marks,
    } = *buttons;
    let value = cells::value_in(hasbutton, hasaxis, values, times, marks, place);
    Ok(Some(value))
}

// The same by an axis's name. Refuses 6, 16.
#[tactic(auto, unfolding(rules::specs::Queries::value_by_name, rules::specs::Hub::value_at))]
pub fn value<'s>(
    head: Head,
    names: &'s [u8; 208],
    renames: &'s [u8; 208],
    buttons: &Buttons<'_>,
    hasaxis: &[bool; 208],
    p: u8,
    name: u8,
) -> Result<Option<f32>, Refusal>
    ensures { (codes kinds queuebytes queuecodes : List ℕ) → let b = buttons.now in
        result ≡ value_by_name (hub_of head (listed codes kinds names.now renames.now)
        (columns b.hasbutton.now hasaxis.now b.values.now b.times.now b.marks.now queuebytes queuecodes))
        p name }
{
    refusals::axis_query_refusal(head.pads, p, name)?;
    let place = gather::present_place(names, renames, &head.renamed, p, name);
    let Buttons {
        hasbutton,
        values,
        times,
        marks,
    } = *buttons;
    let axis = cells::value_in(hasbutton, hasaxis, values, times, marks, place);
    Ok(Some(axis))
}

// ---- records

// The button record of a code, or none. Refuses 6.
#[tactic(auto, unfolding(rules::specs::Queries::button_by_code))]
pub fn button_data_by_code(
    head: Head,
    codes: &[u32; 208],
    buttons: &Buttons<'_>,
    p: u8,
    code: u32,
) -> Result<Option<ButtonData>, Refusal>
    ensures { (kinds names renames queuebytes queuecodes : List ℕ) (hasaxis : List Bool) → let b = buttons.now in
        result ≡ button_by_code (hub_of head (listed codes.now kinds names renames)
        (columns b.hasbutton.now hasaxis b.values.now b.times.now b.marks.now queuebytes queuecodes))
        p code }
{
    refusals::pad_refusal(head.pads, p)?;
    let place = pad::place_of(codes, p, code);
    Ok(reading::button_at(buttons, place))
}

// The button record of a name, or none. Refuses 6, 16.
#[tactic(auto, unfolding(rules::specs::Queries::button_by_name))]
pub fn button_data<'s>(
    head: Head,
    names: &'s [u8; 208],
    renames: &'s [u8; 208],
    buttons: &Buttons<'_>,
    p: u8,
    name: u8,
) -> Result<Option<ButtonData>, Refusal>
    ensures { (codes kinds queuebytes queuecodes : List ℕ) (hasaxis : List Bool) → let b = buttons.now in
        result ≡ button_by_name (hub_of head (listed codes kinds names.now renames.now)
        (columns b.hasbutton.now hasaxis b.values.now b.times.now b.marks.now queuebytes queuecodes))
        p name }
{
    refusals::button_query_refusal(head.pads, p, name)?;
    let place = gather::present_place(names, renames, &head.renamed, p, name);
    Ok(reading::button_at(buttons, place))
}

// The axis record of a code, or none. Refuses 6.
#[tactic(auto, unfolding(rules::specs::Queries::axis_by_code))]
pub fn axis_data_by_code(
    head: Head,
    codes: &[u32; 208],
    hasaxis: &[bool; 208],
    values: &Values,
    times: &Times,
    p: u8,
    code: u32,
) -> Result<Option<AxisData>, Refusal>
    ensures { (kinds names renames queuebytes queuecodes : List ℕ) → (hasbutton marks : List Bool) →
        result ≡ axis_by_code (hub_of head (listed codes.now kinds names renames)
        (columns hasbutton hasaxis.now values.now times.now marks queuebytes queuecodes))
        p code }
{
    refusals::pad_refusal(head.pads, p)?;
    let place = pad::place_of(codes, p, code);
    Ok(reading::axis_at(hasaxis, values, times, place))
}

// The axis record of a name, or none. Refuses 6, 16.
#[tactic(auto, unfolding(rules::specs::Queries::axis_by_name))]
pub fn axis_data<'s>(
    head: Head,
    names: &'s [u8; 208],
    renames: &'s [u8; 208],
    hasaxis: &[bool; 208],
    values: &Values,
    times: &Times,
    p: u8,
    name: u8,
) -> Result<Option<AxisData>, Refusal>
    ensures { (codes kinds queuebytes queuecodes : List ℕ) → (hasbutton marks : List Bool) →
        result ≡ axis_by_name (hub_of head (listed codes kinds names.now renames.now)
        (columns hasbutton hasaxis.now values.now times.now marks queuebytes queuecodes))
        p name }
{
    refusals::axis_query_refusal(head.pads, p, name)?;
    let place = gather::present_place(names, renames, &head.renamed, p, name);
    Ok(reading::axis_at(hasaxis, values, times, place))
}

// ---- the sheet: thresholds, names and codes

// "Deadzone threshold. Axis elements only": gilrs's `Gamepad::deadzone`. Refuses 6.
#[tactic(auto, unfolding(rules::specs::Queries::threshold_by_code))]
pub fn deadzone_threshold(
    head: Head,
    codes: &[u32; 208],
    kinds: &[u8; 208],
    values: &Values,
    marks: &Marks,
    p: u8,
    code: u32,
) -> Result<Option<f32>, Refusal>
    ensures { (names renames times queuebytes queuecodes : List ℕ) → (hasbutton hasaxis : List Bool) →
        result ≡ threshold_by_code (hub_of head (listed codes.now kinds.now names renames)
        (columns hasbutton hasaxis values.now times marks.now queuebytes queuecodes))
        p code }
{
    refusals::pad_refusal(head.pads, p)?;
    let place = pad::place_of(codes, p, code);
    let kind = pad::kind_at(kinds, place);
    let element = columns::element_at(values, marks, place);
    Ok((kind == ELEMENT_AXIS).then_some(element.threshold))
}

// gilrs's `Gamepad::axis_or_btn_name`: the present name of a code, or none. Refuses 6.
#[tactic(auto, unfolding(rules::specs::Queries::name_by_code))]
pub fn axis_or_btn_name<'s>(
    head: Head,
    codes: &[u32; 208],
    names: &'s [u8; 208],
    renames: &'s [u8; 208],
    p: u8,
    code: u32,
) -> Result<Option<u32>, Refusal>
    ensures { (kinds times queuebytes queuecodes : List ℕ) → (hasbutton hasaxis marks : List Bool) (values : List Float) →
        result ≡ name_by_code (hub_of head (listed codes.now kinds names.now renames.now)
        (columns hasbutton hasaxis values times marks queuebytes queuecodes))
        p code }
{
    refusals::pad_refusal(head.pads, p)?;
    let place = pad::place_of(codes, p, code);
    let name = gather::present_name(names, renames, &head.renamed, p, place);
    Ok((name != NO_NAME).then_some(name as u32))
}

// gilrs's `button_code` and `axis_code`, the name's byte says which: the code that has a name at present, or none. Refuses 6, 16.
#[tactic(auto, unfolding(rules::specs::Queries::code_by_name))]
pub fn code_of_name<'s>(
    head: Head,
    codes: &[u32; 208],
    names: &'s [u8; 208],
    renames: &'s [u8; 208],
    p: u8,
    name: u8,
) -> Result<Option<u32>, Refusal>
    ensures { (kinds times queuebytes queuecodes : List ℕ) → (hasbutton hasaxis marks : List Bool) (values : List Float) →
        result ≡ code_by_name (hub_of head (listed codes.now kinds names.now renames.now)
        (columns hasbutton hasaxis values times marks queuebytes queuecodes))
        p name }
{
    refusals::name_query_refusal(head.pads, p, name)?;
    let place = gather::present_place(names, renames, &head.renamed, p, name);
    let code = pad::code_at(codes, place);
    Ok((place < NOWHERE).then_some(code))
}

// ---- what is down (W-213)

// How many button records of a pad are pressed, and whether an axis element's is. Refuses 6.
#[tactic(auto, unfolding(rules::specs::Queries::down_of))]
pub fn down(head: Head, p: u8) -> Result<PadDown, Refusal>
    ensures { (s : Listed) (t : Columns) → result ≡ down_of (hub_of head s t) p }
{
    refusals::pad_refusal(head.pads, p)?;
    let count = pad::pad_number(&head.held, p);
    Ok(PadDown {
        count,
        axis: 0 < pad::pad_number(&head.heldaxes, p),
    })
}

// The lowest code of a pad whose button record is pressed, or none. Refuses 6.
#[tactic(auto, unfolding(rules::specs::Queries::lowest_pressed))]
pub fn lowest_pressed(head: Head, codes: &[u32; 208], p: u8) -> Result<Option<u32>, Refusal>
    ensures { (kinds names renames : List ℕ) (t : Columns) → result ≡ lowest_pressed (hub_of head (listed codes.now kinds names renames) t) p }
{
    refusals::pad_refusal(head.pads, p)?;
    let lowest = down::lowest(&head.down, p);
    let code = pad::code_at(codes, PLACES_PER_PAD * usize::from(p) + lowest);
    Ok((lowest < PLACES_PER_PAD).then_some(code))
}

// ---- the head

// "connected but from a taken Disconnected record to the next Connected"
#[tactic(auto, unfolding(rules::specs::Queries::connected_of))]
pub fn is_connected(head: Head, p: u8) -> Result<bool, Refusal>
    ensures { (s : Listed) (t : Columns) → result ≡ connected_of (hub_of head s t) p }
{
    refusals::pad_refusal(head.pads, p)?; // 6, and not that it is gone
    Ok(pad::pad_bool(&head.connected, p))
}

// The present hats: a rename's until the next Connected.
#[tactic(auto, unfolding(rules::specs::Hub::hats_now))]
pub fn hats_now(head: Head, p: u8) -> u8
    ensures { (s : Listed) (t : Columns) → result ≡ hats_now (hub_of head s t) p }
{
    if pad::pad_bool(&head.renamed, p) {
        return pad::pad_number(&head.newhats, p);
    }
    pad::pad_number(&head.hats, p)
}

// W-212: whether one to three hat directions are mapped, as an archived sheet may have them. Refuses 6.
#[tactic(auto, unfolding(rules::specs::Queries::old_of))]
pub fn is_old(head: Head, p: u8) -> Result<bool, Refusal>
    ensures { (s : Listed) (t : Columns) → result ≡ old_of (hub_of head s t) p }
{
    refusals::pad_refusal(head.pads, p)?; // 6, and not that it is new
    Ok(refusals::partial_hats(hats_now(head, p)))
}

// How many events wait.
pub fn waiting(head: Head) -> u8
    ensures { (s : Listed) (t : Columns) → result ≡ (hub_of head s t).waiting }
{
    head.waiting
}
