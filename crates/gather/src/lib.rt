// What a step gathers: places, and what the hub's columns say of them. Each answer is the law book's, for any columns.
#![tactic(auto)]

ghost use Rattle.std.specs.Prelude.{◌≡◌, Bool, cond, ◌≤◌, get_or};
ghost use Rattle.rules.specs.Names.{no_name};
ghost use Rattle.rules.specs.Places.{present_names, named_of};
ghost use Rattle.rules.specs.Hub.{flag_place};
ghost use Rattle.rules.specs.Hub.{partner_place_of, converts_in};
ghost use Rattle.gather.specs.EventPlaces.{found_at, FoundIs, EventPlacesAre, PlaceIs, place_marks_of, view_by};

use rules::{
    AxisData, ButtonData, ELEMENT_AXIS, Element, FLAGS_PER_PAD, Flags, NOWHERE, PADS, Partner, View,
};

const NO_FLAG: usize = 24;

// ---- a record's element

// The place of a record's code, the kind and the present name of the element there, and whether it has a button record.
#[derive(Clone, Copy)]
pub struct Found {
    pub place: usize,
    pub kind: u8,
    pub name: u8,
    pub hasbutton: bool,
}

// The present name of a place: a rename's until the next Connected.
#[tactic(auto, unfolding(rules::specs::Places::present_names))]
pub fn present_name<'a>(
    names: &'a [u8; 208],
    renames: &'a [u8; 208],
    renamed: &'a [bool; 4],
    p: u8,
    place: usize,
) -> u8
    ensures { result ≡ get_or (present_names names.now renames.now renamed.now p) place no_name }
{
    if pad::pad_bool(renamed, p) {
        pad::name_at(renames, place)
    } else {
        pad::name_at(names, place)
    }
}

// What stands at a place.
#[tactic(auto, unfolding(crate::specs::EventPlaces::found_at))]
fn found_at<'a>(
    kinds: &'a [u8; 208],
    names: &'a [u8; 208],
    renames: &'a [u8; 208],
    renamed: &'a [bool; 4],
    hasbutton: &'a [bool; 208],
    p: u8,
    place: usize,
) -> Found
    ensures { result ≡ found_at kinds.now names.now renames.now renamed.now hasbutton.now p place }
{
    Found {
        place: place,
        kind: pad::kind_at(kinds, place),
        name: present_name(names, renames, renamed, p, place),
        hasbutton: pad::bool_at(hasbutton, place),
    }
}

// What stands at a record's code. A code that has no place is told first, so that no column makes its own test.
#[tactic(auto, unfolding(crate::specs::EventPlaces::found_at))]
pub fn find<'a>(
    codes: &'a [u32; 208],
    kinds: &'a [u8; 208],
    names: &'a [u8; 208],
    renames: &'a [u8; 208],
    renamed: &'a [bool; 4],
    hasbutton: &'a [bool; 208],
    p: u8,
    code: u32,
) -> Found
    ensures { FoundIs codes.now kinds.now names.now renames.now renamed.now hasbutton.now p code result }
{
    let place = pad::place_of(codes, p, code);
    if NOWHERE <= place {
        return found_at(kinds, names, renames, renamed, hasbutton, p, NOWHERE);
    }
    found_at(kinds, names, renames, renamed, hasbutton, p, place)
}

// ---- an event's places

// A place, and which records it has.
#[derive(Clone, Copy)]
pub struct PlaceMarks {
    pub place: usize,
    pub hasbutton: bool,
    pub hasaxis: bool,
}

// Which records a place has.
#[tactic(auto, unfolding(crate::specs::EventPlaces::place_marks_of))]
pub fn place_marks<'a>(
    hasbutton: &'a [bool; 208],
    hasaxis: &'a [bool; 208],
    place: usize,
) -> PlaceMarks
    ensures { result ≡ place_marks_of hasbutton.now hasaxis.now place }
{
    PlaceMarks {
        place: place,
        hasbutton: pad::bool_at(hasbutton, place),
        hasaxis: pad::bool_at(hasaxis, place),
    }
}

// The place of a present name.
#[tactic(auto, unfolding(rules::specs::Places::present_names))]
pub fn present_place<'a>(
    names: &'a [u8; 208],
    renames: &'a [u8; 208],
    renamed: &'a [bool; 4],
    p: u8,
    name: u8,
) -> usize
    ensures { PlaceIs (named_of (present_names names.now renames.now renamed.now p) p name) result }
{
    if pad::pad_bool(renamed, p) {
        pad::named(renames, p, name)
    } else {
        pad::named(names, p, name)
    }
}

// The place of the partner's present code.
#[tactic(auto, unfolding(rules::specs::Hub::partner_place_of))]
pub fn partner_place<'a>(
    names: &'a [u8; 208],
    renames: &'a [u8; 208],
    renamed: &'a [bool; 4],
    p: u8,
    name: u8,
) -> usize
    ensures { PlaceIs (partner_place_of names.now renames.now renamed.now p name) result }
{
    let partner = names::partner_of(name);
    if partner == 0 {
        NOWHERE
    } else {
        present_place(names, renames, renamed, p, partner)
    }
}

// Where an axis's deadzone flag stands.
#[tactic(auto, unfolding(rules::specs::Hub::flag_place))]
pub fn flag_place(p: u8, name: u8) -> usize
    ensures { result ≡ flag_place p name }
{
    let flag = names::flag_of(name) as usize;
    if PADS <= p {
        return NO_FLAG;
    }
    if flag < FLAGS_PER_PAD {
        FLAGS_PER_PAD * (p as usize) + flag
    } else {
        NO_FLAG
    }
}

// Whether a pad converts at present.
#[tactic(auto, unfolding(rules::specs::Hub::converts_in))]
pub fn converts_now<'a>(
    renamed: &'a [bool; 4],
    converts: &'a [bool; 4],
    newconverts: &'a [bool; 4],
    p: u8,
) -> bool
    ensures { result ≡ converts_in renamed.now converts.now newconverts.now p }
{
    if pad::pad_bool(renamed, p) {
        pad::pad_bool(newconverts, p)
    } else {
        pad::pad_bool(converts, p)
    }
}

// ---- what the filters see

// The places that the filters look at for a stick's event: its own and the partner's; and where the two flags stand.
#[derive(Clone, Copy)]
pub struct EventPlaces {
    pub own: PlaceMarks,
    pub partner: PlaceMarks,
    pub code: u32,
    pub dead: bool,
    pub flag: usize,
    pub other: usize,
    pub flags: Flags,
}

// What a step looks at for a stick's event, whose own place is known. No direction is asked for.
#[tactic(auto, unfolding(crate::specs::EventPlaces::event_places_at, crate::specs::EventPlaces::place_marks_of))]
pub fn stick_places<'a>(
    codes: &'a [u32; 208],
    kinds: &'a [u8; 208],
    names: &'a [u8; 208],
    renames: &'a [u8; 208],
    renamed: &'a [bool; 4],
    hasbutton: &'a [bool; 208],
    hasaxis: &'a [bool; 208],
    flags: &'a [bool; 24],
    p: u8,
    name: u8,
    own: usize,
) -> EventPlaces
    ensures { EventPlacesAre codes.now kinds.now names.now renames.now renamed.now
        hasbutton.now hasaxis.now flags.now p name own result }
{
    let partner = partner_place(names, renames, renamed, p, name);
    let flag = flag_place(p, name);
    let other = flag_place(p, names::partner_of(name));
    EventPlaces {
        own: place_marks(hasbutton, hasaxis, own),
        partner: place_marks(hasbutton, hasaxis, partner),
        code: pad::code_at(codes, partner),
        dead: pad::kind_at(kinds, own) == ELEMENT_AXIS,
        flag: flag,
        other: other,
        flags: Flags {
            own: pad::flag_at(flags, flag),
            partner: pad::flag_at(flags, other),
        },
    }
}

// The view, with what stands at the places: the own element and records, the partner's records.
#[tactic(auto, unfolding(crate::specs::EventPlaces::view_by))]
pub fn view_of(
    s: EventPlaces,
    element: Element,
    b: ButtonData,
    a: AxisData,
    partnerbutton: ButtonData,
    partneraxis: AxisData,
) -> View
    ensures { result ≡ view_by s element b a partnerbutton partneraxis }
{
    let own = s.own;
    let partner = s.partner;
    let flags = s.flags;
    View {
        converts: false,
        positive: false,
        negative: false,
        stored: own.hasaxis,
        stick: a.value,
        dead: s.dead,
        threshold: element.threshold,
        own: state::read_value(own.hasaxis, a, own.hasbutton, b),
        partner: Partner {
            stands: partner.place < NOWHERE,
            code: s.code,
            value: state::read_value(
                partner.hasaxis,
                partneraxis,
                partner.hasbutton,
                partnerbutton,
            ),
        },
        // field by field: a struct of two bytes that is copied whole is taken apart by shifts
        flags: Flags {
            own: flags.own,
            partner: flags.partner,
        },
    }
}
