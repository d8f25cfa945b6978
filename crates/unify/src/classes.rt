// The classes of resolved types that module 2 tells apart: numbers, and what a variable may be let to.
ghost use Rattle.std.specs.Prelude.{◌≡◌};
ghost use Rattle.unify.specs.Classes.{primitive_in, is_int, is_float, is_numeric, takes};

use unionfind::{Tag, number_of, tag_of};

// A primitive from low to high.
#[tactic(auto, unfolding(crate::specs::Classes::primitive_in))]
fn primitive_in(x: u32, low: u32, high: u32) -> bool
    ensures { result ≡ primitive_in low high x }
{
    let k = number_of(x);
    tag_of(x) == Tag::PRIMITIVE && (low <= k && k <= high)
}

// Of a resolved type: an integer variable, or a primitive i8 to u64.
#[tactic(auto, unfolding(crate::specs::Classes::is_int))]
pub fn is_int_type(x: u32) -> bool
    ensures { result ≡ is_int x }
{
    tag_of(x) == Tag::INT_VAR || primitive_in(x, 8, 15)
}

// A float variable, f32 or f64.
#[tactic(auto, unfolding(crate::specs::Classes::is_float))]
fn is_float_type(x: u32) -> bool
    ensures { result ≡ is_float x }
{
    tag_of(x) == Tag::FLOAT_VAR || primitive_in(x, 16, 17)
}

// Of a resolved type: integer or float.
#[tactic(auto, unfolding(crate::specs::Classes::is_numeric))]
pub fn is_numeric_type(x: u32) -> bool
    ensures { result ≡ is_numeric x }
{
    is_int_type(x) || is_float_type(x)
}

// Whether a is an integer or float variable that b may be let to.
#[tactic(auto, unfolding(crate::specs::Classes::takes))]
pub fn takes_type(a: u32, b: u32) -> bool
    ensures { result ≡ takes a b }
{
    (tag_of(a) == Tag::INT_VAR && is_int_type(b))
        || (tag_of(a) == Tag::FLOAT_VAR && is_float_type(b))
}
