// A type as a number: its tag and, below it, a number.
ghost use Rattle.std.specs.Prelude.{◌≡◌, ◌<◌};
ghost use Rattle.laws.specs.Bounded.{Reads};
ghost use Rattle.unionfind.specs.Cells.{capacity};
ghost use Rattle.unionfind.specs.Codes.{numbers, code, tag, number, is_var, tag_for, own_code};

#[derive(Clone, Copy)]
pub struct Tag {
    pub tag: u32,
}

impl Tag {
    // How many numbers a tag has.
    pub const NUMBERS: u32 = 16384;

    pub const NEVER: u32 = 0;

    pub const UNIT: u32 = 1;

    pub const PRIMITIVE: u32 = 2;

    pub const ROW: u32 = 3;

    pub const VAR: u32 = 4;

    pub const INT_VAR: u32 = 5;

    pub const FLOAT_VAR: u32 = 6;

    pub const DEFINITION: u32 = 7;
}

// The kinds of variable that are made: 7, 8 and 9 of a type row.
#[derive(Clone, Copy)]
pub enum Kind {
    Var,
    IntVar,
    FloatVar,
}

pub fn code_of(tag: u32, number: u32) -> u32
    requires { (tag < 8) × (number < numbers) }
    ensures { result ≡ code tag number }
{
    tag * Tag::NUMBERS + number
}

pub fn tag_of(x: u32) -> u32
    ensures { result ≡ tag x }
{
    x / Tag::NUMBERS
}

pub fn number_of(x: u32) -> u32
    ensures { result ≡ number x }
{
    x % Tag::NUMBERS
}

// A variable's code, of whatever kind.
#[tactic(auto, unfolding(crate::specs::Codes::is_var))]
pub fn is_var(x: u32) -> bool
    ensures { result ≡ is_var x }
{
    let tag = tag_of(x);
    tag == Tag::VAR || tag == Tag::INT_VAR || tag == Tag::FLOAT_VAR
}

fn tag_for(kind: Kind) -> u32
    ensures { Reads result (tag_for kind) 7 }
{
    match kind {
        Kind::Var => Tag::VAR,
        Kind::IntVar => Tag::INT_VAR,
        Kind::FloatVar => Tag::FLOAT_VAR,
    }
}

// The code of variable n while it is unset.
pub fn own_code(kind: Kind, n: u32) -> u32
    requires { n < capacity }
    ensures { result ≡ own_code (tag_for kind) n }
{
    code_of(tag_for(kind), n)
}
