// The names that document 01 gives to primitives, operators and calls.
ghost use Rattle.std.specs.Prelude.{◌≡◌, ◌<◌};
ghost use Rattle.unionfind.specs.Codes.{numbers};
ghost use Rattle.operators.specs.Names.{primitive_number, op_of, call_number};
ghost use Rattle.operators.specs.Operators.{primitive_code};

use unionfind::{Tag, code_of};

// The primitive types, by their numbers.
#[derive(Clone, Copy)]
pub enum Primitive {
    String = 0,
    Char = 1,
    Asn = 2,
    IpAddr = 3,
    Bool = 4,
    Prefix = 5,
    I8 = 8,
    I16 = 9,
    I32 = 10,
    I64 = 11,
    U8 = 12,
    U16 = 13,
    U32 = 14,
    U64 = 15,
    F32 = 16,
    F64 = 17,
}

impl Primitive {
    pub fn code(self) -> u32
        ensures { result ≡ primitive_code (primitive_number self) }
    {
        primitive_code(self as u32)
    }
}

// The operators, by their numbers.
#[derive(Clone, Copy)]
pub enum Op {
    And = 0,
    Or = 1,
    Lt = 2,
    Le = 3,
    Gt = 4,
    Ge = 5,
    Eq = 6,
    Ne = 7,
    Add = 8,
    Sub = 9,
    Mul = 10,
    Div = 11,
    Mod = 12,
    Exp = 13,
}

impl Op {
    // The operator of that number; no well-formed pack has one past Exp, which it is taken for.
    pub fn of(op: u32) -> Self
        ensures { result ≡ op_of op }
    {
        match op {
            0 => Self::And,
            1 => Self::Or,
            2 => Self::Lt,
            3 => Self::Le,
            4 => Self::Gt,
            5 => Self::Ge,
            6 => Self::Eq,
            7 => Self::Ne,
            8 => Self::Add,
            9 => Self::Sub,
            10 => Self::Mul,
            11 => Self::Div,
            12 => Self::Mod,
            _ => Self::Exp,
        }
    }
}

// The calls that a word records, by their numbers; 0 is none.
#[derive(Clone, Copy)]
pub enum Call {
    PrefixNew = 1,
    StringAppend = 2,
    ListConcat = 3,
}

// What a word records of a call.
pub fn call_number(call: Option<Call>) -> u32
    ensures { result ≡ call_number call }
{
    match call {
        None => 0,
        Some(call) => call as u32,
    }
}

// The code of the primitive type of that number.
pub fn primitive_code(k: u32) -> u32
    requires { k < numbers }
    ensures { result ≡ primitive_code k }
{
    code_of(Tag::PRIMITIVE, k)
}
