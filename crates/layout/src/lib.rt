// How registration lays a sheet out: a pad has 52 places in code order, one for each element and, merged in, one for each of the four directions that the sheet does
// not list; places that are left over repeat the last code, so that codes never fall.
#![tactic(auto)]

ghost use Rattle.std.specs.Prelude.{◌≡◌, true, cond, not, ◌+◌, ◌*◌, ◌<◌, ◌≤◌, eqb, length, get_or};
ghost use Rattle.rules.specs.Sheets.{element_of, count_of, axis_fits, element_fits, sheet_refusal, sheet_opening, element_size};
ghost use Rattle.rules.specs.Places.{no_element, axis_element, listed_row, unlisted_row, element_next, direction_next, next_row, one_if, rows_of};
ghost use Rattle.rules.specs.Names.{no_name, places_per_pad, nowhere};
ghost use Rattle.rules.specs.Calls.{renames_after};
ghost use Rattle.layout.specs.Good.{Good};
ghost use Rattle.layout.specs.Laid.{LaidOut};
ghost use Rattle.layout.specs.Laying.{Steps};

use columns::{Marks, Values};
use rules::{
    COUNT_AT, ELEMENT_BUTTON, ELEMENT_SIZE, Element, NO_NAME, PADS, PLACES_PER_PAD, Row,
    SHEET_OPENING, SheetElement,
};

const DIRECTIONS: u32 = 4;

// ---- a row

// What the hub keeps of an axis element.
#[tactic(auto, unfolding(rules::specs::Places::axis_element))]
fn axis_element(e: SheetElement) -> Element
    requires { axis_fits e ≡ true }
    ensures { result ≡ axis_element e }
{
    Element {
        low: scale::low_of(e.min),
        range: scale::range_of(e.min, e.max),
        odd: scale::odd_of(e.min, e.max),
        threshold: scale::threshold_of(e.min, e.max, e.deadzone),
    }
}

// A button element, or a place with no element, keeps nothing.
fn no_element() -> Element
    ensures { result ≡ no_element }
{
    Element {
        low: 0.0,
        range: 0.0,
        odd: false,
        threshold: 0.0,
    }
}

// A listed element's row.
#[tactic(auto, using(crate::proofs::Fits::fits), unfolding(rules::specs::Places::listed_row))]
fn listed_row(e: SheetElement) -> Row
    requires { element_fits e ≡ true }
    ensures { result ≡ listed_row e }
{
    let element = match e.kind {
        ELEMENT_BUTTON => no_element(),
        _ => axis_element(e),
    };
    Row {
        code: e.code,
        kind: e.kind,
        name: e.name,
        element,
    }
}

// The row of a direction that the sheet does not list, or of a place past the last.
fn unlisted_row(code: u32) -> Row
    ensures { result ≡ unlisted_row code }
{
    Row {
        code,
        kind: 0,
        name: NO_NAME,
        element: no_element(),
    }
}

// ---- the next place: i of the sheet's n elements, and d of the four directions, have their places already

// The i-th element's code.
#[tactic(auto, unfolding(rules::specs::Sheets::element_of, rules::specs::Sheets::element_fields))]
fn code_of(s: &[u8], i: u32) -> u32
    requires { sheet_opening + element_size * i + element_size ≤ length s.now }
    ensures { result ≡ (element_of s.now i).code }
{
    wire::read4(s, SHEET_OPENING + ELEMENT_SIZE * i as usize)
}

// Whether the next place is the i-th element's: there is one, and no direction's code lies below its code.
#[tactic(auto, unfolding(rules::specs::Places::element_next))]
fn element_next(s: &[u8], n: u32, i: u32, d: u32) -> bool
    requires { length s.now ≡ sheet_opening + element_size * n }
    ensures { result ≡ element_next s.now n i d }
{
    i < n && (DIRECTIONS <= d || code_of(s, i) <= names::CODE_UP + d)
}

// Whether the next place's code is the d-th direction's, listed or not.
#[tactic(auto, unfolding(rules::specs::Places::direction_next))]
fn direction_next(s: &[u8], n: u32, i: u32, d: u32) -> bool
    requires { length s.now ≡ sheet_opening + element_size * n }
    ensures { result ≡ direction_next s.now n i d }
{
    d < DIRECTIONS && (n <= i || names::CODE_UP + d <= code_of(s, i))
}

// The next place's row: the element's, else the direction's, else the code before it once more.
#[tactic(auto, unfolding(rules::specs::Places::next_row))]
fn next_row(s: &[u8], n: u32, i: u32, d: u32, last: u32) -> Row
    requires { Good s.now n }
    ensures { result ≡ next_row s.now n i d last }
{
    if element_next(s, n, i, d) {
        listed_row(sheets::element(s, i as usize))
    } else if direction_next(s, n, i, d) {
        unlisted_row(names::CODE_UP + d)
    } else {
        unlisted_row(last)
    }
}

// So many of the elements and of the directions have their places, the last of them with this code.
#[derive(Default, Drop)]
struct Laying {
    elements: u32,
    directions: u32,
    code: u32,
}

impl Laying {
    // The next place's row.
    fn next(&mut self, s: &[u8], n: u32) -> Row
        requires { (Good s.now n) × (self.old.elements < places_per_pad) × (self.old.directions < places_per_pad) }
        ensures { Steps s.now n self.old result self.new }
    {
        let row = next_row(s, n, self.elements, self.directions, self.code);
        let element = element_next(s, n, self.elements, self.directions);
        let direction = direction_next(s, n, self.elements, self.directions);
        self.elements += u32::from(element);
        self.directions += u32::from(direction);
        self.code = row.code;
        row
    }
}

// ---- a pad's 52 places

// The 52 rows of a good sheet: its elements in code order, the unlisted directions among them.
#[tactic(auto, using(crate::specs::Good::good), unfolding(rules::specs::Sheets::count_of))]
pub fn rows_of(s: &[u8]) -> [Row; 52]
    requires { sheet_refusal true s.now ≡ 0 }
    ensures { result ≡ rows_of s.now (count_of s.now) }
{
    let n = s[COUNT_AT] as u32;
    let mut laying = Laying::default();
    let mut rows = [unlisted_row(0); 52];
    for row in &mut rows {
        *row = laying.next(s, n);
    }
    rows
}

// The same in place: the rows in the lent arrays, from `start` on.
#[tactic(auto, using(crate::specs::Good::good), unfolding(rules::specs::Sheets::count_of))]
pub fn lay_in(
    codes: &mut [u32; 208],
    kinds: &mut [u8; 208],
    names: &mut [u8; 208],
    values: &mut Values,
    marks: &mut Marks,
    start: usize,
    s: &[u8],
)
    requires { (start + places_per_pad ≤ nowhere) × (sheet_refusal true s.now ≡ 0) }
    ensures { LaidOut codes.old kinds.old names.old values.old marks.old start
        (rows_of s.now (count_of s.now))
        codes.new kinds.new names.new values.new marks.new }
{
    let n = s[COUNT_AT] as u32;
    let mut laying = Laying::default();
    for k in 0..PLACES_PER_PAD {
        let row = laying.next(s, n);
        let place = start + k;
        codes[place] = row.code;
        kinds[place] = row.kind;
        names[place] = row.name;
        columns::put_element(values, marks, place, row.element);
    }
}

// ---- a rename list

// The name that a place gets: the list's i-th where the sheet lists the place, else none.
fn name_given(kind: u8, list: &[u8], i: usize) -> u8
    ensures { result ≡ cond (eqb kind 0) no_name (get_or list.now i 0) }
{
    match kind {
        0 => NO_NAME,
        _ => list.get(i).copied().unwrap_or(0),
    }
}

// The names of a pad's places by a rename list, in the lent array; for a pad that is none nothing changes.
pub fn rename_in(renames: &mut [u8; 208], kinds: &[u8; 208], pad: u8, list: &[u8])
    ensures { renames.new
        ≡ renames_after renames.old kinds.now list.now places_per_pad (places_per_pad * pad) 0 }
{
    if PADS <= pad {
        return;
    }
    let start = PLACES_PER_PAD * pad as usize;
    let mut i: usize = 0;
    for place in start..start + PLACES_PER_PAD {
        let kind = kinds[place];
        renames[place] = name_given(kind, list, i);
        i += usize::from(kind != 0);
    }
}
