// What a resolved type names: the definition of a named type.
ghost use Rattle.std.specs.Prelude.{◌≡◌};
ghost use Rattle.pack.specs.Kinds.{type_number};
ghost use Rattle.members.specs.Types.{is_row, named_by, is_list};

use pack::{Counts, DefinitionKind, TypeKind, definition_row, type_row};
use unionfind::{Tag, number_of, tag_of};

// Whether a type is a type row of that kind.
#[tactic(auto, unfolding(crate::specs::Types::is_row))]
pub fn is_row(pack: &[u8], kind: TypeKind, x: u32) -> bool
    ensures { result ≡ is_row pack.now (type_number kind) x }
{
    let row = type_row(pack, number_of(x));
    tag_of(x) == Tag::ROW && row.kind == kind as u32
}

// The definition of a named type; none of any other type.
#[tactic(auto, unfolding(crate::specs::Types::named_by, laws::specs::Choice::pick))]
pub fn named(pack: &[u8], x: u32) -> Option<u32>
    ensures { result ≡ named_by pack.now x }
{
    if tag_of(x) == Tag::DEFINITION {
        Some(number_of(x))
    } else if is_row(pack, TypeKind::Named, x) {
        let row = type_row(pack, number_of(x));
        Some(row.a)
    } else {
        None
    }
}

// Whether a type is one of a list definition, with arguments or without.
#[tactic(auto, unfolding(crate::specs::Types::is_list))]
pub fn is_list(pack: &[u8], c: Counts, x: u32) -> bool
    ensures { result ≡ is_list pack.now c x }
{
    match named(pack, x) {
        None => false,
        Some(definition) => {
            let row = definition_row(pack, c, definition);
            row.kind == DefinitionKind::List as u32
        }
    }
}
