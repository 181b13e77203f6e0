// Which of the filters look at an event, told by what it is before anything is gathered for it.
ghost use Rattle.std.specs.Prelude.{◌≡◌, get_or, eqb};
ghost use Rattle.rules.specs.Sheets.{element_axis};
ghost use Rattle.rules.specs.Hub.{converts_in};
ghost use Rattle.filters.specs.Lanes.{lane_of};
ghost use Rattle.passing.specs.Lane.{lane_number};

use rules::{ELEMENT_AXIS, Event, EventType};

// Which filters look at an event: none, or those of a button's value, of a hat that turns, of a stick.
#[derive(Clone, Copy)]
pub enum Lane {
    None,
    Value,
    Hat,
    Stick,
}

// The lane of an event, whose code stands at the place.
#[tactic(auto, unfolding(filters::specs::Lanes::lane_of))]
pub fn lane_of<'a>(
    kinds: &'a [u8; 208],
    renamed: &'a [bool; 4],
    converts: &'a [bool; 4],
    newconverts: &'a [bool; 4],
    on: bool,
    e: Event,
    place: usize,
) -> Lane
    ensures { lane_number result ≡ lane_of on (converts_in renamed.now converts.now newconverts.now e.pad)
        (eqb (get_or kinds.now place 0) element_axis) e }
{
    if !on {
        return Lane::None;
    }
    match e.event {
        EventType::Axis(name, _, _)
            if names::is_hat(name) && gather::converts_now(renamed, converts, newconverts, e.pad) =>
            { Lane::Hat }
        EventType::Axis(_, _, _) => Lane::Stick,
        EventType::Changed(_, _, _) if pad::kind_at(kinds, place) == ELEMENT_AXIS => Lane::Value,
        _ => Lane::None,
    }
}
