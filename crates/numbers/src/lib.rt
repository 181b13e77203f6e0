// The two values that the deadzone gives back for a stick: gilrs's pair `(f32, f32)` of `apply_deadzone`.
#![tactic(auto)]

#[derive(Clone, Copy)]
pub struct Pair {
    pub x: f32,
    pub y: f32,
}

// Why a stick went quiet, or did not: it was inside the dead zone, at full tilt, or in between; or no threshold was met. The numbers are 0 to 3 in this order.
#[derive(Clone, Copy)]
pub enum Tilt {
    Unmet,
    Inside,
    Between,
    Full,
}

// What the deadzone calculation answers: the pair, and which of the three it was, never `Unmet`.
#[derive(Clone, Copy)]
pub struct Tilted {
    pub pair: Pair,
    pub tilt: Tilt,
}
