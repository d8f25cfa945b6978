// The parts of a case.
ghost use Rattle.std.specs.Prelude.{◌<◌, length, IfSome};

// What was asked.
#[derive(Clone, Copy)]
pub enum Asks {
    Types,
    Root(u64),
    Order,
}

#[derive(Clone, Copy, PartialEq)]
pub struct Answer {
    pub number: u32,
    pub place: u32,
    pub detail: u64,
}

#[derive(Clone, Copy)]
pub struct Case<'a> {
    pub asks: Asks,
    pub answer: Answer,
    // The bytes of the result area.
    pub room: usize,
    pub pack: &'a [u8],
    // Four bytes for each place of the area that is written.
    pub writes: &'a [u8],
}

// The first two bytes as a number, and the bytes after them.
fn word(bytes: &[u8]) -> Option<(u16, &[u8])>
    ensures { IfSome result (λ r. length r.1.now < length bytes.now) }
{
    let (first, rest) = bytes.split_first_chunk::<2>()?;
    Some((u16::from_be_bytes(*first), rest))
}

// The first case of these bytes, and the bytes after it; none where it is cut.
pub(crate) fn first_case(bytes: &[u8]) -> Option<(Case<'_>, &[u8])>
    ensures { IfSome result (λ r. length r.1.now < length bytes.now) }
{
    let (head, rest) = bytes.split_first_chunk::<3>()?;
    let [entry, root, number] = *head;
    let (place, rest) = word(rest)?;
    let (detail, rest) = rest.split_first_chunk::<6>()?;
    let [a, b, c, d, e, f] = *detail;
    let (room, rest) = word(rest)?;
    let (size, rest) = word(rest)?;
    let (pack, rest) = rest.split_at_checked(size as usize)?;
    let (places, rest) = word(rest)?;
    let (writes, rest) = rest.split_at_checked(4 * (places as usize))?;
    let case = Case {
        asks: match entry {
            0 => Asks::Types,
            1 => Asks::Root(root as u64),
            _ => Asks::Order,
        },
        answer: Answer {
            number: number as u32,
            place: place as u32,
            detail: u64::from_be_bytes([0, 0, a, b, c, d, e, f]),
        },
        room: room as usize,
        pack,
        writes,
    };
    Some((case, rest))
}
