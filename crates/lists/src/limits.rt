// The numbers that fields and items stay below.
ghost use Rattle.std.specs.Prelude.{◌≡◌};
ghost use Rattle.lists.specs.Limits.{optional_below};

// Names are numbers 0 to 16,382; in an arm 16,383 stands for `_`.
pub const NAMES: u32 = 16383;

pub const WILD: u32 = 16383;

pub const SLOTS: u32 = 256;

pub const EXPLICITS: u32 = 16;

pub const VARIABLES: u32 = 2048;

pub const LITERALS: u32 = 18;

pub const OPERATORS: u32 = 14;

// Of what is stored as x+1, or 0 for none: whether x is below the limit.
pub fn optional_below(stored: u32, limit: u32) -> bool
    ensures { result ≡ optional_below limit stored }
{
    stored <= limit
}
