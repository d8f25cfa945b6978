// The forms of items. What is asked of an item differs by its form, so each form has leaves of its own in the tree.
ghost use Rattle.std.specs.Prelude.{◌≡◌};
ghost use Rattle.lists.specs.Forms.{stride, number, form_at};

#[derive(Clone, Copy)]
pub enum Form {
    // An item that is one id.
    Id,
    // A word of a pair.
    Word,
    // A name, and where a list of field types starts.
    Variant,
    // The four words of an arm.
    Arm,
    // The name of a pair.
    Name,
    // A reference, beside the next one.
    Reference,
}

impl Form {
    // How many forms there are.
    pub const COUNT: u32 = 6;

    // The form with that number; past the last, the last.
    pub fn at(number: u32) -> Form
        ensures { result ≡ form_at number }
    {
        match number {
            0 => Form::Id,
            1 => Form::Word,
            2 => Form::Variant,
            3 => Form::Arm,
            4 => Form::Name,
            _ => Form::Reference,
        }
    }

    // The number of the form, in the order above.
    pub fn number(self) -> u32
        ensures { result ≡ number self }
    {
        self as u32
    }

    // How many words an item takes.
    pub fn stride(self) -> u32
        ensures { result ≡ stride self }
    {
        match self {
            Form::Id => 1,
            Form::Word => 2,
            Form::Variant => 2,
            Form::Arm => 4,
            Form::Name => 2,
            Form::Reference => 1,
        }
    }
}
