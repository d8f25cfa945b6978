// Numbers read from bytes, most significant byte first, 0 past the end.
ghost use Rattle.std.specs.Prelude.{◌≡◌, ◌+◌, ◌<◌, length};
ghost use Rattle.pack.specs.Read.{byte_at, word_at, row32, row64, starts_with};
ghost use Rattle.laws.specs.Bounded.{Reads};

// The byte at i.
pub fn byte_at(pack: &[u8], i: usize) -> u32
    ensures { Reads result (byte_at pack.now i) 256 }
{
    if i < pack.len() {
        u32::from(pack[i])
    } else {
        0
    }
}

// A word, a row of 32 bits and one of 64 that lie in the pack: read with no test of its end, so that their bytes are loaded together.
fn word_inside(pack: &[u8], i: usize) -> u32
    requires { i + 1 < length pack.now }
    ensures { Reads result (word_at pack.now i) 65536 }
{
    let first = u32::from(pack[i]);
    let second = u32::from(pack[i + 1]);
    first * 256 + second
}

fn row_32_inside(pack: &[u8], i: usize) -> u32
    requires { i + 3 < length pack.now }
    ensures { result ≡ row32 pack.now i }
{
    word_inside(pack, i) * 65536 + word_inside(pack, i + 2)
}

fn row_64_inside(pack: &[u8], i: usize) -> u64
    requires { i + 7 < length pack.now }
    ensures { result ≡ row64 pack.now i }
{
    let high = row_32_inside(pack, i) as u64;
    let low = row_32_inside(pack, i + 4) as u64;
    high * 4294967296 + low
}

// The word of 16 bits at i.
pub fn word_at(pack: &[u8], i: usize) -> u32
    ensures { Reads result (word_at pack.now i) 65536 }
{
    if i < pack.len() {
        if 1 < pack.len() - i {
            word_inside(pack, i)
        } else {
            byte_at(pack, i) * 256 + byte_at(pack, i + 1)
        }
    } else {
        0
    }
}

// The row of 32 bits at i.
pub fn row_32(pack: &[u8], i: usize) -> u32
    ensures { result ≡ row32 pack.now i }
{
    if i < pack.len() {
        if 3 < pack.len() - i {
            row_32_inside(pack, i)
        } else {
            word_at(pack, i) * 65536 + word_at(pack, i + 2)
        }
    } else {
        0
    }
}

// The row of 64 bits at i.
pub fn row_64(pack: &[u8], i: usize) -> u64
    ensures { result ≡ row64 pack.now i }
{
    if i < pack.len() {
        if 7 < pack.len() - i {
            row_64_inside(pack, i)
        } else {
            let high = row_32(pack, i) as u64;
            let low = row_32(pack, i + 4) as u64;
            high * 4294967296 + low
        }
    } else {
        0
    }
}

// Whether the bytes start with those of `with`.
pub fn starts_with(pack: &[u8], with: &[u8]) -> bool
    ensures { result ≡ starts_with pack.now with.now }
{
    for i in 0..with.len() {
        if byte_at(pack, i) != byte_at(with, i) {
            return false;
        }
    }
    true
}
