// What a word of bytes says, and the bytes themselves.
use stdio::{Buffer, hex_digit};

// The most bytes of a row that rises.
const MAX_ROW: usize = 16;

// What a word says comes.
#[derive(Clone, Copy)]
pub enum Bytes<'a> {
    // The bytes of these digits, so many times.
    Same(u64, &'a [u8]),
    // A row of that many bytes, so many times, each time by the step more, as one number.
    Rising {
        times: u64,
        size: usize,
        row: u128,
        step: u128,
    },
}

// From this number on a further digit changes nothing. No number of document 01 is so long.
const LONG: u64 = 1000000000000000000;

// A decimal number, of digits alone.
pub(crate) fn number(word: &[u8]) -> Option<u64> {
    if word.is_empty() {
        return None;
    }
    let mut n = 0u64;
    for b in word {
        if !b.is_ascii_digit() {
            return None;
        }
        if n < LONG {
            n = n * 10 + (*b - b'0') as u64;
        }
    }
    Some(n)
}

// Whether these are bytes in hexadecimal digits.
fn is_hex(word: &[u8]) -> bool {
    !word.is_empty() && word.len() % 2 == 0 && word.iter().all(|b| hex_digit(*b).is_some())
}

// The number of these digits, or of the last 32 where there are more.
fn hex_number(digits: &[u8]) -> Option<u128> {
    let mut n = 0u128;
    for b in digits {
        n = (n << 4) | hex_digit(*b)? as u128;
    }
    Some(n)
}

fn same_of(times: u64, digits: &[u8]) -> Option<Bytes<'_>> {
    if is_hex(digits) {
        Some(Bytes::Same(times, digits))
    } else {
        None
    }
}

// A row and its step are as many bytes, and not too many.
fn rising_of<'a>(times: u64, row: &'a [u8], step: &'a [u8]) -> Option<Bytes<'a>> {
    if !is_hex(row) || !is_hex(step) || row.len() != step.len() || row.len() > 2 * MAX_ROW {
        return None;
    }
    Some(Bytes::Rising {
        times: times,
        size: row.len() / 2,
        row: hex_number(row)?,
        step: hex_number(step)?,
    })
}

// What stands before the first such byte, and what after it, if there is one.
fn split_once(word: &[u8], byte: u8) -> Option<(&[u8], &[u8])> {
    let mut parts = word.splitn(2, |b| *b == byte);
    Some((parts.next()?, parts.next()?))
}

// What a word says comes, if it is one of bytes.
pub(crate) fn bytes_of(word: &[u8]) -> Option<Bytes<'_>> {
    match split_once(word, b'*') {
        None => same_of(1, word),
        Some((times, what)) => match split_once(what, b'+') {
            None => same_of(number(times)?, what),
            Some((row, step)) => rising_of(number(times)?, row, step),
        },
    }
}

// The byte of two digits.
fn byte_of(high: u8, low: u8) -> Option<u8> {
    Some(hex_digit(high)? * 16 + hex_digit(low)?)
}

// Writes the bytes that the digits stand for.
fn put_hex<const N: usize>(digits: &[u8], buffer: &mut Buffer<N>) {
    for pair in digits.as_chunks::<2>().0 {
        if let Some(byte) = byte_of(pair[0], pair[1]) {
            buffer.push(byte);
        }
    }
}

// Writes the last bytes of a number.
fn put_row<const N: usize>(row: u128, size: usize, buffer: &mut Buffer<N>) {
    for k in (0..size.min(MAX_ROW)).rev() {
        buffer.push(((row >> (8 * k)) & 0xff) as u8);
    }
}

// Writes what a word said comes, as much of it as there is room for.
#[inline(never)]
pub(crate) fn put<const N: usize>(bytes: Bytes<'_>, buffer: &mut Buffer<N>) {
    match bytes {
        Bytes::Same(times, digits) => {
            for _ in 0..times {
                if buffer.is_full() {
                    return;
                }
                put_hex(digits, buffer);
            }
        }
        Bytes::Rising {
            times,
            size,
            row,
            step,
        } => {
            let mut next = row;
            for _ in 0..times {
                if buffer.is_full() {
                    return;
                }
                put_row(next, size, buffer);
                next = next.wrapping_add(step);
            }
        }
    }
}
