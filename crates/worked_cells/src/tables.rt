// The cases of unify: each kind of type on either side, with what is wanted of each pair.
use crate::pairs::{Pair, unifies, unifies_after};
use crate::sides::{KINDS, types_with};
use crate::vars::{float_var, int_var, primitive, var};
use crate::wants::Want;
use stdio::Tally;

// How many primitives there are; 6 and 7 name none.
const PRIMITIVES: usize = 18;

// Whether a pair is unified as a letter wants.
fn is_as(letter: u8, left: u32, right: u32) -> bool {
    match Want::of(letter) {
        Some(want) => unifies(Pair::new(left, right), want),
        None => false,
    }
}

// The table. A row for each kind on the left, a column for each on the right, both in the order of `types_with`.
const TABLE: [&[u8; KINDS]; KINDS] = [
    // never
    b"=......>....",
    // unit
    b".=.....>....",
    // String
    b"..=....>....",
    // i64
    b"...=...>>...",
    // f64
    b"....=..>.>..",
    // a row that is an explicit variable
    b".....=.>....",
    // another row
    b"......=>....",
    // any-variable
    b"<<<<<<<<<<<.",
    // integer variable
    b"...<...><...",
    // float variable
    b"....<..>.<..",
    // definition
    b".......>..=.",
    // a row that holds a variable
    b"...........=",
];

// The variables on the left are not those on the right.
pub(crate) fn kinds() -> Tally {
    let lefts = types_with(0, 2, 4);
    let rights = types_with(1, 3, 5);
    let mut tally = Tally::none();
    for (left, letters) in lefts.iter().zip(TABLE) {
        for (right, letter) in rights.iter().zip(letters) {
            tally.count(is_as(*letter, *left, *right));
        }
    }
    tally
}

// A type on the left beside each primitive on the right, and the other way round.
fn primitives(x: u32, lefts: &[u8; PRIMITIVES], rights: &[u8; PRIMITIVES], tally: &mut Tally) {
    for (k, (left, right)) in (0..).zip(lefts.iter().zip(rights)) {
        tally.count(is_as(*left, x, primitive(k)));
        tally.count(is_as(*right, primitive(k), x));
    }
}

// An integer variable takes 8 to 15, a float variable 16 and 17, and an any-variable all.
pub(crate) fn numbers() -> Tally {
    let mut tally = Tally::none();
    primitives(
        int_var(2),
        b"........<<<<<<<<..",
        b"........>>>>>>>>..",
        &mut tally,
    );
    primitives(
        float_var(4),
        b"................<<",
        b"................>>",
        &mut tally,
    );
    primitives(
        var(0),
        b"<<<<<<<<<<<<<<<<<<",
        b">>>>>>>>>>>>>>>>>>",
        &mut tally,
    );
    tally
}

// A variable beside itself.
pub(crate) fn selves() -> Tally {
    let mut tally = Tally::none();
    for x in [var(0), int_var(2), float_var(4)] {
        tally.count(unifies(Pair::new(x, x), Want::Same));
    }
    tally
}

// Two that are unified first, the pair that is then asked for, what is wanted of it, and what its sides then stand for.
type Link = ((u32, u32), (u32, u32), Want, (u32, u32));

// Sides that are resolved first: any-variables 0 and 1, integer variables 2 and 3.
pub(crate) fn links() -> Tally {
    let v0 = var(0);
    let v1 = var(1);
    let i2 = int_var(2);
    let i3 = int_var(3);
    let i64 = primitive(11);
    let f64 = primitive(17);
    let string = primitive(0);
    let cases: [Link; 11] = [
        // the end of the link is set, and not the variable that is named
        ((v0, v1), (v0, i64), Want::Left, (i64, i64)),
        ((v0, v1), (i64, v0), Want::Right, (i64, i64)),
        ((i2, i3), (i2, i64), Want::Left, (i64, i64)),
        // both sides have the same end
        ((v0, v1), (v1, v0), Want::Same, (v1, v1)),
        // a variable that is set is what it is set to
        ((v0, i64), (v0, string), Want::Clash, (i64, string)),
        ((v0, i64), (i2, v0), Want::Left, (i64, i64)),
        ((v0, i64), (v0, i2), Want::Right, (i64, i64)),
        ((v0, i64), (v0, i64), Want::Same, (i64, i64)),
        // an any-variable that is set to an integer variable takes no float
        ((v0, i2), (v0, f64), Want::Clash, (i2, f64)),
        ((v0, i2), (f64, v0), Want::Clash, (f64, i2)),
        ((v0, i2), (v1, v0), Want::Left, (i2, i2)),
    ];
    let mut tally = Tally::none();
    for (first, pair, want, after) in cases {
        tally.count(unifies_after(
            Pair::new(first.0, first.1),
            Pair::new(pair.0, pair.1),
            want,
            Pair::new(after.0, after.1),
        ));
    }
    tally
}
