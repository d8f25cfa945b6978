// The kinds of rows, by document 01's names. A row has its kind as a number, which may be none of these.
ghost use Rattle.pack.specs.Kinds.{TypeKindOf, DefinitionKindOf, NodeKindOf, ValueKindOf};

// A number that no row of a table has as its kind.
#[derive(Clone, Copy, Debug, PartialEq, Eq)]
pub struct UnknownKind(pub u32);

// A type row's kind.
#[derive(Clone, Copy, Debug, PartialEq, Eq)]
pub enum TypeKind {
    Never = 0,
    Unit = 1,
    Primitive = 2,
    Explicit = 3,
    Named = 4,
    Record = 5,
    Function = 6,
    Var = 7,
    IntVar = 8,
    FloatVar = 9,
    RecordVar = 10,
}

impl TryFrom<u32> for TypeKind {
    type Error = UnknownKind;

    ghost try_from_gives = { TypeKindOf };

    fn try_from(number: u32) -> Result<Self, UnknownKind> {
        match number {
            0 => Ok(TypeKind::Never),
            1 => Ok(TypeKind::Unit),
            2 => Ok(TypeKind::Primitive),
            3 => Ok(TypeKind::Explicit),
            4 => Ok(TypeKind::Named),
            5 => Ok(TypeKind::Record),
            6 => Ok(TypeKind::Function),
            7 => Ok(TypeKind::Var),
            8 => Ok(TypeKind::IntVar),
            9 => Ok(TypeKind::FloatVar),
            10 => Ok(TypeKind::RecordVar),
            _ => Err(UnknownKind(number)),
        }
    }
}

// A definition row's kind.
#[derive(Clone, Copy, Debug, PartialEq, Eq)]
pub enum DefinitionKind {
    Enum = 0,
    Record = 1,
    Runtime = 2,
    List = 3,
}

impl TryFrom<u32> for DefinitionKind {
    type Error = UnknownKind;

    ghost try_from_gives = { DefinitionKindOf };

    fn try_from(number: u32) -> Result<Self, UnknownKind> {
        match number {
            0 => Ok(DefinitionKind::Enum),
            1 => Ok(DefinitionKind::Record),
            2 => Ok(DefinitionKind::Runtime),
            3 => Ok(DefinitionKind::List),
            _ => Err(UnknownKind(number)),
        }
    }
}

// An expression row's kind.
#[derive(Clone, Copy, Debug, PartialEq, Eq)]
pub enum NodeKind {
    Literal = 0,
    Slot = 1,
    Block = 2,
    Let = 3,
    Match = 4,
    Operator = 5,
    Record = 6,
    Field = 7,
    Return = 8,
}

impl TryFrom<u32> for NodeKind {
    type Error = UnknownKind;

    ghost try_from_gives = { NodeKindOf };

    fn try_from(number: u32) -> Result<Self, UnknownKind> {
        match number {
            0 => Ok(NodeKind::Literal),
            1 => Ok(NodeKind::Slot),
            2 => Ok(NodeKind::Block),
            3 => Ok(NodeKind::Let),
            4 => Ok(NodeKind::Match),
            5 => Ok(NodeKind::Operator),
            6 => Ok(NodeKind::Record),
            7 => Ok(NodeKind::Field),
            8 => Ok(NodeKind::Return),
            _ => Err(UnknownKind(number)),
        }
    }
}

// A value row's kind.
#[derive(Clone, Copy, Debug, PartialEq, Eq)]
pub enum ValueKind {
    Constant = 0,
    Function = 1,
    Context = 2,
    Other = 3,
}

impl TryFrom<u32> for ValueKind {
    type Error = UnknownKind;

    ghost try_from_gives = { ValueKindOf };

    fn try_from(number: u32) -> Result<Self, UnknownKind> {
        match number {
            0 => Ok(ValueKind::Constant),
            1 => Ok(ValueKind::Function),
            2 => Ok(ValueKind::Context),
            3 => Ok(ValueKind::Other),
            _ => Err(UnknownKind(number)),
        }
    }
}
