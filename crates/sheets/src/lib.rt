// Pad sheets and rename lists read from lent bytes: the sheet's hats and elements, or the refusals 3, 4, 29 and 5 in that order.
#![tactic(auto)]

ghost use Rattle.std.specs.Prelude.{◌≡◌, ◌+◌, ◌-◌, ◌*◌, ◌≤◌, ◌<◌, length};
ghost use Rattle.rules.specs.Names.{name_allowed};
ghost use Rattle.rules.specs.Refusals.{judged};
ghost use Rattle.sheets.specs.Spread.{Spread, occurs_again};
ghost use Rattle.rules.specs.Sheets.{element_fields, element_of, sheet_fits, is_zero, button_fits, axis_fits, element_fits, rises, elements_fit, occurs_in, occurs_twice, sheet_refusal, names_fit, rename_list_refusal};

use refusals::{hats_refusal, refuse_unless};
use rules::{
    COUNT_AT, ELEMENT_AXIS, ELEMENT_BUTTON, ELEMENT_SIZE, HATS_AT, LAST_HATS, NO_NAME, Refusal,
    SHEET_OPENING, SheetElement,
};

// ---- sizes, kinds and limits

// where in an element its name stands
const NAME_OFFSET: usize = 5;

// "Elements per pad 0..48"
const ELEMENT_LIMIT: u8 = 48;

// ---- elements

// The fields of an element at a place.
#[tactic(auto, unfolding(rules::specs::Sheets::element_fields))]
fn element_at(s: &[u8], at: usize) -> SheetElement
    requires { at + 18 ≤ length s.now }
    ensures { result ≡ element_fields s.now at }
{
    SheetElement {
        code: wire::read4(s, at),
        kind: s[at + 4],
        name: s[at + 5],
        min: wire::signed4(s, at + 6),
        max: wire::signed4(s, at + 10),
        deadzone: wire::read4(s, at + 14),
    }
}

// The sheet's i-th element.
#[tactic(auto, unfolding(rules::specs::Sheets::element_of))]
pub fn element(s: &[u8], i: usize) -> SheetElement
    requires { 5 + 18 * i + 18 ≤ length s.now }
    ensures { result ≡ element_of s.now i }
{
    element_at(s, SHEET_OPENING + ELEMENT_SIZE * i)
}

// ---- 4: "an element breaks a rule"

// "Names 1..19, 33..40 or 255"
#[tactic(auto, unfolding(rules::specs::Names::name_allowed))]
pub fn name_allowed(name: u8) -> bool
    ensures { result ≡ name_allowed name }
{
    names::names_button(name) || names::names_axis(name) || name == NO_NAME
}

// "For a button min, max and deadzone are 0"
#[tactic(auto, unfolding(rules::specs::Sheets::button_fits))]
fn button_fits(e: SheetElement) -> bool
    ensures { result ≡ button_fits e }
{
    e.min == 0 && e.max == 0 && e.deadzone == 0
}

// "Axis min < max, and min, max and raw values in -8,388,608..8,388,607"; "Deadzone 0..16,777,215 or absent"
#[tactic(auto, unfolding(rules::specs::Sheets::axis_fits))]
fn axis_fits(e: SheetElement) -> bool
    ensures { result ≡ axis_fits e }
{
    scale::within(e.min)
        && scale::within(e.max)
        && e.min < e.max
        && scale::deadzone_within(e.deadzone)
}

// Kind, name, and the limits of its kind.
#[tactic(auto, unfolding(rules::specs::Sheets::element_fits))]
fn element_fits(e: SheetElement) -> bool
    ensures { result ≡ element_fits e }
{
    name_allowed(e.name)
        && match e.kind {
            ELEMENT_BUTTON => button_fits(e),
            ELEMENT_AXIS => axis_fits(e),
            _ => false,
        }
}

// "Codes strictly rise": the i-th element's code is above that of the one before it.
#[tactic(auto, unfolding(rules::specs::Sheets::rises))]
fn rises_at(s: &[u8], i: usize) -> bool
    requires { 5 + 18 * i + 18 ≤ length s.now }
    ensures { result ≡ rises s.now i }
{
    i == 0 || element(s, i - 1).code < element(s, i).code
}

// Every one of the elements keeps to its rules.
fn elements_fit(s: &[u8], count: usize) -> bool
    requires { 5 + 18 * count ≤ length s.now }
    ensures { result ≡ elements_fit s.now count 0 }
{
    (0..count).all(|i| element_fits(element(s, i)) && rises_at(s, i))
}

// ---- 5: "a name stands twice"

// Whether a name is among those from the i-th on. Names stand every 18th byte in a sheet and every byte in a rename list: the first at `start`, the next `stride`
// further.
fn occurs_in(s: &[u8], start: usize, stride: usize, name: u8, first: usize, count: usize) -> bool
    requires { Spread s.now start stride count }
    ensures { result ≡ occurs_in s.now start stride name (count - first) first }
{
    (first..count).any(|i| s[start + stride * i] == name)
}

// The i-th name stands again behind it; "none but 255 twice".
#[tactic(auto, unfolding(crate::specs::Spread::occurs_again, rules::specs::Sheets::name_at))]
fn occurs_again(s: &[u8], start: usize, stride: usize, i: usize, count: usize) -> bool
    requires { (Spread s.now start stride count) × (i < count) }
    ensures { result ≡ occurs_again s.now start stride count i }
{
    let name = s[start + stride * i];
    name != NO_NAME && occurs_in(s, start, stride, name, i + 1, count)
}

#[tactic(auto, unfolding(crate::specs::Spread::occurs_again))]
fn occurs_twice(s: &[u8], start: usize, stride: usize, count: usize) -> bool
    requires { Spread s.now start stride count }
    ensures { result ≡ occurs_twice s.now start stride count 0 }
{
    (0..count).any(|i| occurs_again(s, start, stride, i, count))
}

// ---- sheets

// 3: "sheet's size, count, version or n wrong"
#[tactic(auto, unfolding(rules::specs::Sheets::sheet_fits, rules::specs::Sheets::count_of))]
fn sheet_fits(s: &[u8]) -> bool
    ensures { result ≡ sheet_fits s.now }
{
    if s.len() < SHEET_OPENING {
        return false;
    }
    let count = s[COUNT_AT];
    s.len() == SHEET_OPENING + ELEMENT_SIZE * usize::from(count)
        && wire::opens_as(s, 0, s.len())
        && count <= ELEMENT_LIMIT
}

// "Sheet order: 2, 3, 4, 5"; "29 partial hats, after 4 and before 5", but for an archived sheet. `Ok` where the sheet is good.
#[tactic(auto, unfolding(rules::specs::Sheets::count_of, rules::specs::Sheets::sheet_refusal, rules::specs::Sheets::hats_of))]
pub fn sheet_refusal(archived: bool, s: &[u8]) -> Result<(), Refusal>
    ensures { result ≡ judged (sheet_refusal archived s.now) }
{
    refuse_unless(sheet_fits(s), 3)?;
    let count = usize::from(s[COUNT_AT]);
    refuse_unless(s[HATS_AT] <= LAST_HATS, 4)?;
    refuse_unless(elements_fit(s, count), 4)?;
    hats_refusal(archived, s[HATS_AT])?;
    refuse_unless(
        !occurs_twice(s, SHEET_OPENING + NAME_OFFSET, ELEMENT_SIZE, count),
        5,
    )
}

// ---- rename lists

fn names_fit(s: &[u8]) -> bool
    ensures { result ≡ names_fit s.now (length s.now) 0 }
{
    s.iter().all(|&name| name_allowed(name))
}

// "rename list not one name per element" 3, a name that is none 4, a name twice 5; `Ok` where the list is good.
#[tactic(auto, unfolding(rules::specs::Sheets::rename_list_refusal))]
pub fn rename_list_refusal(s: &[u8], count: u8) -> Result<(), Refusal>
    ensures { result ≡ judged (rename_list_refusal s.now count) }
{
    let count = usize::from(count);
    refuse_unless(s.len() == count, 3)?;
    refuse_unless(names_fit(s), 4)?;
    refuse_unless(!occurs_twice(s, 0, 1, count), 5)
}
