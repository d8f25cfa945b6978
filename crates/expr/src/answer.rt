// The answers of module 4: a step of a rule, and a type to check against.
ghost use Rattle.std.specs.Prelude.{◌≡◌};
ghost use Rattle.expr.specs.State.{outcome};

use laws::Refusal;

// A node or a part of a rule that is accepted: whether it diverges, the call that its operator chose, and how many variables are in use.
#[derive(Clone, Copy)]
pub struct Outcome {
    pub diverges: bool,
    pub call: u32,
    pub vars: u32,
}

// A type's code to check against, and how many variables are in use with it.
#[derive(Clone, Copy)]
pub struct Expected {
    pub code: u32,
    pub vars: u32,
}

pub fn done(diverges: bool, call: u32, vars: u32) -> Result<Outcome, Refusal>
    ensures { result ≡ Ok (outcome diverges call vars) }
{
    Ok(Outcome {
        diverges,
        call,
        vars,
    })
}
