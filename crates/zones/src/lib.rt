// Zone pads (W-203): the zone of a hat's value, and the zones that the hub keeps, one for each pad and each axis of its hat.
#![tactic(auto)]

ghost use Rattle.std.specs.Prelude.{◌≡◌, cond, eqb};
ghost use Rattle.rules.specs.Names.{dpad_x};
ghost use Rattle.rules.specs.Sheets.{zoned_of, hats_renamed};
ghost use Rattle.rules.specs.Zones.{in_plus, in_minus, zone_of, zone_place, centred_of};
ghost use Rattle.rules.specs.Hub.{zoned_in};
ghost use Rattle.rules.specs.Step.{zones_cleared};
ghost use Rattle.zones.specs.Kept.{KeptIs};

use rules::{KIND_CONNECTED, MIDDLE_ZONE, MINUS_ZONE, PLUS_ZONE, ZONE_MARK, ZONES_PER_PAD};

// ---- a value

// Whether a value presses the positive direction: on a zone pad 0.5 and above, on any other exactly 1.0.
#[tactic(auto, unfolding(rules::specs::Zones::in_plus))]
pub fn in_plus(zoned: bool, x: f32) -> bool
    ensures { result ≡ in_plus zoned x }
{
    if zoned { 0.5 <= x } else { x == 1.0 }
}

// Whether it presses the negative one: -0.5 and below, or exactly -1.0.
#[tactic(auto, unfolding(rules::specs::Zones::in_minus))]
pub fn in_minus(zoned: bool, x: f32) -> bool
    ensures { result ≡ in_minus zoned x }
{
    if zoned { x <= -0.5 } else { x == -1.0 }
}

// The zone of a value on a zone pad.
#[tactic(auto, unfolding(rules::specs::Zones::zone_of))]
pub fn zone_of(x: f32) -> u8
    ensures { result ≡ zone_of x }
{
    if in_plus(true, x) {
        PLUS_ZONE
    } else if in_minus(true, x) {
        MINUS_ZONE
    } else {
        MIDDLE_ZONE
    }
}

// ---- a pad

// Bit 7 of a hats byte.
#[tactic(auto, unfolding(rules::specs::Sheets::zoned_of))]
fn marked(hats: u8) -> bool
    ensures { result ≡ zoned_of hats }
{
    hats / ZONE_MARK % 2 == 1
}

// Whether a pad is a zone pad, by its sheet's hats.
#[tactic(auto, unfolding(rules::specs::Hub::zoned_in))]
pub fn zoned(hats: &[u8; 4], pad: u8) -> bool
    ensures { result ≡ zoned_in hats.now pad }
{
    marked(pad::pad_number(hats, pad))
}

// What a rename makes of a sheet's hats: bit 7 stays.
#[tactic(auto, unfolding(rules::specs::Sheets::hats_renamed))]
pub fn hats_renamed(hats: u8) -> u8
    ensures { result ≡ hats_renamed hats }
{
    if marked(hats) { ZONE_MARK } else { 0 }
}

// ---- the zones that are kept

fn axis_of(name: u8) -> usize
    ensures { result ≡ cond (eqb name dpad_x) 0 1 }
{
    if name == names::DPAD_X { 0 } else { 1 }
}

// Where the zone of a pad's hat axis stands; past the end for a pad that is none.
#[tactic(auto, unfolding(rules::specs::Zones::zone_place))]
pub fn place(pad: u8, name: u8) -> usize
    ensures { result ≡ zone_place pad name }
{
    ZONES_PER_PAD * usize::from(pad) + axis_of(name)
}

// What a hat that turns sees: whether its pad is a zone pad, and the zone of its last converted value. No Option: `KeptIs` tells the zone of any pad.
#[derive(Clone, Copy)]
pub struct HatZone {
    pub zoned: bool,
    pub zone: u8,
}

// On a zone pad the zone of a value that is converted stands from now on; what stood before it.
pub fn turn(hats: &[u8; 4], zones: &mut [u8; 8], pad: u8, name: u8, x: f32) -> HatZone
    ensures { KeptIs hats.now zones.old pad name x result zones.new }
{
    let at = place(pad, name);
    let by_zones = zoned(hats, pad);
    let zone = pad::zone_at(zones, at);
    if by_zones {
        pad::set_zone(zones, at, zone_of(x));
    }
    HatZone {
        zoned: by_zones,
        zone,
    }
}

// Both of a pad's are the middle.
#[tactic(auto, unfolding(rules::specs::Zones::centred_of))]
pub fn centre(zones: &mut [u8; 8], pad: u8)
    ensures { zones.new ≡ centred_of zones.old pad }
{
    let first = ZONES_PER_PAD * usize::from(pad);
    pad::set_zone(zones, first, MIDDLE_ZONE);
    pad::set_zone(zones, first + 1, MIDDLE_ZONE);
}

// Both are the middle once a pad joins.
#[tactic(auto, unfolding(rules::specs::Step::zones_cleared))]
pub fn join(zones: &mut [u8; 8], pad: u8, kind: u8)
    ensures { zones.new ≡ zones_cleared zones.old pad kind }
{
    if kind == KIND_CONNECTED {
        centre(zones, pad);
    }
}
