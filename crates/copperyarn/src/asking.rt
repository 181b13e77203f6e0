// The queries for programs in C and Rust: each is the call of `queries`, its answer in the plain struct that crosses.
ghost use Rattle.std.specs.Prelude.{◌≡◌, Bool, List, ℕ, Float};
ghost use Rattle.rules.specs.Queries.{pressed_by_code, pressed_by_name, connected_of, value_by_code, value_by_name, threshold_by_code};
ghost use Rattle.rules.specs.Queries.{button_by_code, button_by_name, axis_by_code, axis_by_name, name_by_code, code_by_name, down_of, lowest_pressed, old_of};
ghost use Rattle.hub.specs.Lent.{Listed, Columns, listed, columns, hub_of};
ghost use Rattle.crossing.specs.Crossing.{truth_of, value_of, number_of, button_of, axis_of, down_of as crossedDown};

use columns::{Marks, Times, Values};
use crossing::{Axis, Button, Down, Number, Truth, Value};
use hub::{Buttons, Head};

// Whether a button is pressed, by a code: false for one that is not known. Refuses 6.
#[unsafe(no_mangle)]
pub extern "C" fn copperyarn_lent_is_pressed_by_code(
    head: Head,
    codes: &[u32; 208],
    hasbutton: &[bool; 208],
    values: &Values,
    times: &Times,
    marks: &Marks,
    p: u8,
    code: u32,
) -> Truth
    ensures { (kinds names renames queuebytes queuecodes : List ℕ) (hasaxis : List Bool) →
        result ≡ truth_of (pressed_by_code (hub_of head (listed codes.now kinds names renames)
        (columns hasbutton.now hasaxis values.now times.now marks.now queuebytes queuecodes)) p code) }
{
    let buttons = Buttons {
        hasbutton,
        values,
        times,
        marks,
    };
    crossing::truth_of(queries::is_pressed_by_code(head, codes, &buttons, p, code))
}

// The same by a button's name. Refuses 6, 16.
#[unsafe(no_mangle)]
pub extern "C" fn copperyarn_lent_is_pressed<'s>(
    head: Head,
    codes: &'s [u32; 208],
    names: &'s [u8; 208],
    renames: &'s [u8; 208],
    hasbutton: &[bool; 208],
    values: &Values,
    times: &Times,
    marks: &Marks,
    p: u8,
    name: u8,
) -> Truth
    ensures { (kinds queuebytes queuecodes : List ℕ) (hasaxis : List Bool) →
        result ≡ truth_of (pressed_by_name (hub_of head (listed codes.now kinds names.now renames.now)
        (columns hasbutton.now hasaxis values.now times.now marks.now queuebytes queuecodes)) p name) }
{
    let buttons = Buttons {
        hasbutton,
        values,
        times,
        marks,
    };
    crossing::truth_of(queries::is_pressed(head, codes, names, renames, &buttons, p, name))
}

// The value of a code: of the axis, else of the button, else 0.0. Refuses 6.
#[unsafe(no_mangle)]
pub extern "C" fn copperyarn_lent_value_by_code(
    head: Head,
    codes: &[u32; 208],
    hasbutton: &[bool; 208],
    hasaxis: &[bool; 208],
    values: &Values,
    times: &Times,
    marks: &Marks,
    p: u8,
    code: u32,
) -> Value
    ensures { (kinds names renames queuebytes queuecodes : List ℕ) →
        result ≡ value_of (value_by_code (hub_of head (listed codes.now kinds names renames)
        (columns hasbutton.now hasaxis.now values.now times.now marks.now queuebytes queuecodes)) p code) }
{
    let buttons = Buttons {
        hasbutton,
        values,
        times,
        marks,
    };
    crossing::value_of(queries::value_by_code(head, codes, &buttons, hasaxis, p, code))
}

// The same by an axis's name. Refuses 6, 16.
#[unsafe(no_mangle)]
pub extern "C" fn copperyarn_lent_value<'s>(
    head: Head,
    names: &'s [u8; 208],
    renames: &'s [u8; 208],
    hasbutton: &[bool; 208],
    hasaxis: &[bool; 208],
    values: &Values,
    times: &Times,
    marks: &Marks,
    p: u8,
    name: u8,
) -> Value
    ensures { (codes kinds queuebytes queuecodes : List ℕ) →
        result ≡ value_of (value_by_name (hub_of head (listed codes kinds names.now renames.now)
        (columns hasbutton.now hasaxis.now values.now times.now marks.now queuebytes queuecodes)) p name) }
{
    let buttons = Buttons {
        hasbutton,
        values,
        times,
        marks,
    };
    crossing::value_of(queries::value(head, names, renames, &buttons, hasaxis, p, name))
}

// The button record of a code. Refuses 6.
#[unsafe(no_mangle)]
pub extern "C" fn copperyarn_lent_button_data_by_code(
    head: Head,
    codes: &[u32; 208],
    hasbutton: &[bool; 208],
    values: &Values,
    times: &Times,
    marks: &Marks,
    p: u8,
    code: u32,
) -> Button
    ensures { (kinds names renames queuebytes queuecodes : List ℕ) (hasaxis : List Bool) →
        result ≡ button_of (button_by_code (hub_of head (listed codes.now kinds names renames)
        (columns hasbutton.now hasaxis values.now times.now marks.now queuebytes queuecodes)) p code) }
{
    let buttons = Buttons {
        hasbutton,
        values,
        times,
        marks,
    };
    crossing::button_of(queries::button_data_by_code(head, codes, &buttons, p, code))
}

// The button record of a name. Refuses 6, 16.
#[unsafe(no_mangle)]
pub extern "C" fn copperyarn_lent_button_data<'s>(
    head: Head,
    names: &'s [u8; 208],
    renames: &'s [u8; 208],
    hasbutton: &[bool; 208],
    values: &Values,
    times: &Times,
    marks: &Marks,
    p: u8,
    name: u8,
) -> Button
    ensures { (codes kinds queuebytes queuecodes : List ℕ) (hasaxis : List Bool) →
        result ≡ button_of (button_by_name (hub_of head (listed codes kinds names.now renames.now)
        (columns hasbutton.now hasaxis values.now times.now marks.now queuebytes queuecodes)) p name) }
{
    let buttons = Buttons {
        hasbutton,
        values,
        times,
        marks,
    };
    crossing::button_of(queries::button_data(head, names, renames, &buttons, p, name))
}

// The axis record of a code. Refuses 6.
#[unsafe(no_mangle)]
pub extern "C" fn copperyarn_lent_axis_data_by_code(
    head: Head,
    codes: &[u32; 208],
    hasaxis: &[bool; 208],
    values: &Values,
    times: &Times,
    p: u8,
    code: u32,
) -> Axis
    ensures { (kinds names renames queuebytes queuecodes : List ℕ) (hasbutton marks : List Bool) →
        result ≡ axis_of (axis_by_code (hub_of head (listed codes.now kinds names renames)
        (columns hasbutton hasaxis.now values.now times.now marks queuebytes queuecodes)) p code) }
{
    crossing::axis_of(queries::axis_data_by_code(head, codes, hasaxis, values, times, p, code))
}

// The axis record of a name. Refuses 6, 16.
#[unsafe(no_mangle)]
pub extern "C" fn copperyarn_lent_axis_data<'s>(
    head: Head,
    names: &'s [u8; 208],
    renames: &'s [u8; 208],
    hasaxis: &[bool; 208],
    values: &Values,
    times: &Times,
    p: u8,
    name: u8,
) -> Axis
    ensures { (codes kinds queuebytes queuecodes : List ℕ) (hasbutton marks : List Bool) →
        result ≡ axis_of (axis_by_name (hub_of head (listed codes kinds names.now renames.now)
        (columns hasbutton hasaxis.now values.now times.now marks queuebytes queuecodes)) p name) }
{
    crossing::axis_of(queries::axis_data(head, names, renames, hasaxis, values, times, p, name))
}

// The deadzone threshold of a code, of axis elements only. Refuses 6.
#[unsafe(no_mangle)]
pub extern "C" fn copperyarn_lent_deadzone_threshold(
    head: Head,
    codes: &[u32; 208],
    kinds: &[u8; 208],
    values: &Values,
    marks: &Marks,
    p: u8,
    code: u32,
) -> Value
    ensures { (names renames times queuebytes queuecodes : List ℕ) (hasbutton hasaxis : List Bool) →
        result ≡ value_of (threshold_by_code (hub_of head (listed codes.now kinds.now names renames)
        (columns hasbutton hasaxis values.now times marks.now queuebytes queuecodes)) p code) }
{
    crossing::value_of(queries::deadzone_threshold(head, codes, kinds, values, marks, p, code))
}

// The present name of a code. Refuses 6.
#[unsafe(no_mangle)]
pub extern "C" fn copperyarn_lent_axis_or_btn_name<'s>(
    head: Head,
    codes: &[u32; 208],
    names: &'s [u8; 208],
    renames: &'s [u8; 208],
    p: u8,
    code: u32,
) -> Number
    ensures { (kinds times queuebytes queuecodes : List ℕ) (hasbutton hasaxis marks : List Bool) (values : List Float) →
        result ≡ number_of (name_by_code (hub_of head (listed codes.now kinds names.now renames.now)
        (columns hasbutton hasaxis values times marks queuebytes queuecodes)) p code) }
{
    crossing::number_of(queries::axis_or_btn_name(head, codes, names, renames, p, code))
}

// The code that has a name at present. Refuses 6, 16.
#[unsafe(no_mangle)]
pub extern "C" fn copperyarn_lent_code_of_name<'s>(
    head: Head,
    codes: &[u32; 208],
    names: &'s [u8; 208],
    renames: &'s [u8; 208],
    p: u8,
    name: u8,
) -> Number
    ensures { (kinds times queuebytes queuecodes : List ℕ) (hasbutton hasaxis marks : List Bool) (values : List Float) →
        result ≡ number_of (code_by_name (hub_of head (listed codes.now kinds names.now renames.now)
        (columns hasbutton hasaxis values times marks queuebytes queuecodes)) p name) }
{
    crossing::number_of(queries::code_of_name(head, codes, names, renames, p, name))
}

// How many button records of a pad are pressed, and whether an axis element's is. Refuses 6.
#[unsafe(no_mangle)]
pub extern "C" fn copperyarn_lent_down(head: Head, p: u8) -> Down
    ensures { (s : Listed) (t : Columns) → result ≡ crossedDown (down_of (hub_of head s t) p) }
{
    crossing::down_of(queries::down(head, p))
}

// The lowest code of a pad whose button record is pressed; not known where none is. Refuses 6.
#[unsafe(no_mangle)]
pub extern "C" fn copperyarn_lent_lowest_pressed(head: Head, codes: &[u32; 208], p: u8) -> Number
    ensures { (kinds names renames : List ℕ) (t : Columns) →
        result ≡ number_of (lowest_pressed (hub_of head (listed codes.now kinds names renames) t) p) }
{
    crossing::number_of(queries::lowest_pressed(head, codes, p))
}

// Whether a pad is connected. Refuses 6.
#[unsafe(no_mangle)]
pub extern "C" fn copperyarn_lent_is_connected(head: Head, p: u8) -> Truth
    ensures { (s : Listed) (t : Columns) → result ≡ truth_of (connected_of (hub_of head s t) p) }
{
    crossing::truth_of(queries::is_connected(head, p))
}

// Whether a pad is old: whether its hats are partial at present. Refuses 6.
#[unsafe(no_mangle)]
pub extern "C" fn copperyarn_lent_is_old(head: Head, p: u8) -> Truth
    ensures { (s : Listed) (t : Columns) → result ≡ truth_of (old_of (hub_of head s t) p) }
{
    crossing::truth_of(queries::is_old(head, p))
}

// How many events wait.
#[unsafe(no_mangle)]
pub extern "C" fn copperyarn_lent_waiting(head: Head) -> u8
    ensures { (s : Listed) (t : Columns) → result ≡ (hub_of head s t).waiting }
{
    queries::waiting(head)
}
