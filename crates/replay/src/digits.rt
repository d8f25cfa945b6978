// From digits to bytes.
use stdio::{Buffer, hex_digit};

// Puts the bytes that the digits of a text stand for, two digits each, where a comment has none. What is no digit is passed over.
pub(crate) fn decode<const N: usize>(text: &[u8], bytes: &mut Buffer<N>) {
    let mut high = None;
    for line in text.split(|b| *b == b'\n') {
        for b in line.iter().take_while(|b| **b != b'#') {
            if let Some(digit) = hex_digit(*b) {
                high = match high {
                    None => Some(digit),
                    Some(first) => {
                        bytes.push((first << 4) | digit);
                        None
                    }
                };
            }
        }
    }
}
