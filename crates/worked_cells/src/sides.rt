// The kinds of type that are tried on either side of unify.
use crate::vars::{definition, float_var, int_var, never, primitive, row, unit, var};

// A type row that holds a variable, and two that hold none.
pub const HOLDING: usize = 5;

const EXPLICIT: u32 = 6;

const ROW: u32 = 7;

// How many kinds are tried.
pub const KINDS: usize = 12;

// A type of each kind, with these variables: never, unit, String, i64, f64, a row that is an explicit variable, another row,
// any-variable, integer variable, float variable, definition, a row that holds a variable.
pub(crate) fn types_with(any: u32, int: u32, float: u32) -> [u32; KINDS] {
    [
        never(),
        unit(),
        primitive(0),
        primitive(11),
        primitive(17),
        row(EXPLICIT),
        row(ROW),
        var(any),
        int_var(int),
        float_var(float),
        definition(0),
        row(HOLDING as u32),
    ]
}
