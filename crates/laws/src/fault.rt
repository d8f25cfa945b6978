// What a pack is refused for. The numbers are document 01's, and a variant's words are its.
ghost use Rattle.std.specs.Prelude.{◌≡◌};
ghost use Rattle.laws.specs.Faults.{number_of};

#[derive(Clone, Copy, Debug, PartialEq, Eq)]
pub enum Fault {
    // Under 16 bytes.
    TooShort = 1,
    // Letters or edition wrong.
    WrongStart = 2,
    // A count over its limit.
    OverLimit = 3,
    // Length not exact.
    WrongLength = 4,
    // Root number not below the count of roots.
    NoSuchRoot = 5,
    // Result area too short.
    AreaTooShort = 6,
    // Unknown kind, op or primitive, unused field or bits not zero.
    UnknownRow = 10,
    // Id, variable, slot, name, list or argument count out of range.
    OutOfRange = 11,
    // Expression whose uses as child and as root body are not exactly one.
    NotUsedOnce = 12,
    // Depth over 64.
    TooDeep = 13,
    // A value's references not strictly rising, or a name repeated.
    NotDistinct = 14,
    // Let that isn't a block statement.
    StrayLet = 15,
    // Types don't unify.
    Mismatch = 20,
    // Left operand not numeric.
    NotNumeric = 21,
    // Left operand not integer.
    NotInteger = 22,
    // Examinee diverges.
    ExamineeDiverges = 23,
    // Examinee isn't an enum.
    NotAnEnum = 24,
    // Arm after an unguarded `_`.
    ArmAfterAny = 25,
    // No such variant.
    NoSuchVariant = 26,
    // Payload on a variant without fields.
    PayloadGiven = 27,
    // Payload missing.
    PayloadMissing = 28,
    // Payload of a wrong number.
    PayloadLength = 29,
    // Not exhaustive.
    NotExhaustive = 30,
    // Record fields wrong.
    WrongFields = 31,
    // No such field.
    NoSuchField = 32,
    // Slot not open.
    SlotNotOpen = 33,
    // Slot bound before in this root.
    SlotBoundBefore = 34,
    // A type that holds a variable.
    HoldsVariable = 35,
    // Definition with parameters, or record of a non-record.
    NotPlain = 36,
    // Variable 2,049 of a root asked for.
    NoRoom = 37,
    // Unknown variable.
    UnknownVariable = 38,
    // A set that would close a loop.
    ClosesLoop = 39,
    // Unresolved variable in a definition.
    Unresolved = 40,
    // Type cycle.
    TypeCycle = 41,
    // Constant references itself.
    ReferencesItself = 50,
    // Constant lies on a longer cycle.
    OnLongerCycle = 51,
    // Constant reaches a context value.
    ReachesContext = 52,
}

impl Fault {
    // Document 01's number.
    pub fn number(self) -> u32
        ensures { result ≡ number_of self }
    {
        self as u32
    }
}
