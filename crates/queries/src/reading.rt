// The records that a query finds at a place.
ghost use Rattle.std.specs.Prelude.{◌≡◌, false, cond, ◌≤◌, get_or, Some, None};
ghost use Rattle.rules.specs.Names.{nowhere};
ghost use Rattle.rules.specs.Hub.{past_button, past_axis};
ghost use Rattle.columns.specs.Columns.{buttons_of, axes_of};

use columns::{Times, Values};
use hub::Buttons;
use rules::{AxisData, ButtonData};

// The button record of a place, where it has one.
pub fn button_at(buttons: &Buttons<'_>, place: usize) -> Option<ButtonData>
    requires { place ≤ nowhere }
    ensures { let b = buttons.now in
        result ≡ cond (get_or b.hasbutton.now place false)
        (Some (get_or (buttons_of b.values.now b.times.now b.marks.now) place past_button)) None }
{
    let known = pad::bool_at(buttons.hasbutton, place);
    known.then_some(columns::button_at(buttons.values, buttons.times, buttons.marks, place))
}

// The axis record of a place, where it has one.
pub fn axis_at(
    hasaxis: &[bool; 208],
    values: &Values,
    times: &Times,
    place: usize,
) -> Option<AxisData>
    requires { place ≤ nowhere }
    ensures { result ≡ cond (get_or hasaxis.now place false)
        (Some (get_or (axes_of values.now times.now) place past_axis)) None }
{
    let known = pad::bool_at(hasaxis, place);
    known.then_some(columns::axis_at(values, times, place))
}
