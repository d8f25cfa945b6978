// The rule pack as bytes: what stands in its header, in a row and in a list, and refusals 1 to 4.
// Every reader is total: past the end of the bytes it reads 0, so no caller has to show that a row is there.
#![tactic(auto)]

mod bytes;
mod counts;
mod head;
mod kinds;
mod lists;
mod rows;

pub use counts::Counts;
pub use head::header;
pub use kinds::{DefinitionKind, NodeKind, TypeKind, UnknownKind, ValueKind};
pub use lists::{list_item, list_len};
pub use rows::{
    DefinitionRow, ExpressionRow, RootRow, TypeRow, ValueRow, definition_row, expression_row,
    root_row, type_row, value_row,
};
