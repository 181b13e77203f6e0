// The names of document 01's "Numbers" as tests and tables: the sort of a name, the partner and the flag of an axis, the two directions of a hat's
// axis, and the code that a button name falls back to. Each function answers what its definition in the law book says, for every byte.
#![tactic(auto)]

ghost use Rattle.std.specs.Prelude.{◌≡◌};
ghost use Rattle.rules.specs.Names.{is_button, is_axis, names_button, names_axis, is_y, is_hat, partner_of, flag_of};
ghost use Rattle.rules.specs.Names.{positive_name, negative_name, positive_code, negative_code, to_nec};

// ---- names that a rule speaks of: numbers, since sheets, lists and queries may give any byte, and the definitions of Names.antt speak of the number

pub const UNKNOWN_BUTTON: u8 = 0;

pub const FIRST_BUTTON: u8 = 1;

pub const DPAD_UP: u8 = 16;

pub const DPAD_DOWN: u8 = 17;

pub const DPAD_LEFT: u8 = 18;

pub const DPAD_RIGHT: u8 = 19;

pub const UNKNOWN_AXIS: u8 = 32;

pub const LEFT_STICK_X: u8 = 33;

pub const LEFT_STICK_Y: u8 = 34;

pub const RIGHT_STICK_X: u8 = 36;

pub const RIGHT_STICK_Y: u8 = 37;

pub const DPAD_X: u8 = 39;

pub const DPAD_Y: u8 = 40;

// ---- directions

pub const CODE_UP: u32 = 0x00010220;

pub const CODE_DOWN: u32 = 0x00010221;

pub const CODE_LEFT: u32 = 0x00010222;

pub const CODE_RIGHT: u32 = 0x00010223;

// ---- sorts of names

// A button's name, Unknown among them.
#[tactic(auto, unfolding(rules::specs::Names::is_button))]
pub fn is_button(name: u8) -> bool
    ensures { result ≡ is_button name }
{
    name <= DPAD_RIGHT
}

// An axis's name, Unknown among them.
#[tactic(auto, unfolding(rules::specs::Names::is_axis))]
pub fn is_axis(name: u8) -> bool
    ensures { result ≡ is_axis name }
{
    UNKNOWN_AXIS <= name && name <= DPAD_Y
}

// A button's name that a sheet, a rename list or a query may give.
#[tactic(auto, unfolding(rules::specs::Names::names_button))]
pub fn names_button(name: u8) -> bool
    ensures { result ≡ names_button name }
{
    FIRST_BUTTON <= name && name <= DPAD_RIGHT
}

// An axis's name that a sheet, a rename list or a query may give.
#[tactic(auto, unfolding(rules::specs::Names::names_axis))]
pub fn names_axis(name: u8) -> bool
    ensures { result ≡ names_axis name }
{
    LEFT_STICK_X <= name && name <= DPAD_Y
}

// "names 34, 37, 40 are negated if the hub says Y reversed"
#[tactic(auto, unfolding(rules::specs::Names::is_y))]
pub fn is_y(name: u8) -> bool
    ensures { result ≡ is_y name }
{
    matches!(name, LEFT_STICK_Y | RIGHT_STICK_Y | DPAD_Y)
}

// A hat's axis.
#[tactic(auto, unfolding(rules::specs::Names::is_hat))]
pub fn is_hat(name: u8) -> bool
    ensures { result ≡ is_hat name }
{
    matches!(name, DPAD_X | DPAD_Y)
}

// ---- axes in pairs

// The other axis of the pair (`second_axis`); 0 for none.
#[tactic(auto, unfolding(rules::specs::Names::partner_of))]
pub fn partner_of(name: u8) -> u8
    ensures { result ≡ partner_of name }
{
    match name {
        LEFT_STICK_X => LEFT_STICK_Y,
        LEFT_STICK_Y => LEFT_STICK_X,
        RIGHT_STICK_X => RIGHT_STICK_Y,
        RIGHT_STICK_Y => RIGHT_STICK_X,
        DPAD_X => DPAD_Y,
        DPAD_Y => DPAD_X,
        _ => 0,
    }
}

// Which of a pad's six deadzone flags is the axis's (`deadzone_nonzero_axis_idx`); 6 for none.
#[tactic(auto, unfolding(rules::specs::Names::flag_of))]
pub fn flag_of(name: u8) -> u8
    ensures { result ≡ flag_of name }
{
    match name {
        DPAD_X => 0,
        DPAD_Y => 1,
        LEFT_STICK_X => 2,
        LEFT_STICK_Y => 3,
        RIGHT_STICK_X => 4,
        RIGHT_STICK_Y => 5,
        _ => 6,
    }
}

// ---- the two directions of a hat's axis

// The direction that a hat's axis presses above 0: Right, Up.
#[tactic(auto, unfolding(rules::specs::Names::positive_name))]
pub fn positive_name(axis: u8) -> u8
    ensures { result ≡ positive_name axis }
{
    if axis == DPAD_X { DPAD_RIGHT } else { DPAD_UP }
}

// The direction that it presses below 0: Left, Down.
#[tactic(auto, unfolding(rules::specs::Names::negative_name))]
pub fn negative_name(axis: u8) -> u8
    ensures { result ≡ negative_name axis }
{
    if axis == DPAD_X { DPAD_LEFT } else { DPAD_DOWN }
}

// The code of that direction, for a hat's axis.
#[tactic(auto, unfolding(rules::specs::Names::positive_code))]
pub fn positive_code(axis: u8) -> u32
    ensures { result ≡ positive_code axis }
{
    if axis == DPAD_X { CODE_RIGHT } else { CODE_UP }
}

// The code of the direction below 0.
#[tactic(auto, unfolding(rules::specs::Names::negative_code))]
pub fn negative_code(axis: u8) -> u32
    ensures { result ≡ negative_code axis }
{
    if axis == DPAD_X { CODE_LEFT } else { CODE_DOWN }
}

// ---- `to_nec`

// The codes of the names 1 to 19; 0, which is no name, reads as 1 does, as in the definition.
const NECS: [u32; 20] = [
    0x00010130, 0x00010130, 0x00010131, 0x00010133, 0x00010134, 0x00010132, 0x00010135, 0x00010136,
    0x00010138, 0x00010137, 0x00010139, 0x0001013a, 0x0001013b, 0x0001013c, 0x0001013d, 0x0001013e,
    0x00010220, 0x00010221, 0x00010222, 0x00010223,
];

// The code that a button name falls back to.
#[tactic(auto, unfolding(rules::specs::Names::to_nec))]
pub fn to_nec(name: u8) -> u32
    ensures { result ≡ to_nec name }
{
    NECS.get(usize::from(name)).copied().unwrap_or(0x00010000)
}
