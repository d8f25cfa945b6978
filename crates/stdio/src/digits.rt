// Hexadecimal digits.
ghost use Rattle.std.specs.Prelude.{◌≡◌, ◌-◌, ◌<◌, ◌≤◌, ◌⊎◌, IfSome, None, Some};

// What a digit stands for; the letters are capitals.
pub fn hex_digit(b: u8) -> Option<u8>
    ensures small { IfSome result (λ d. d < 16) }
    ensures number { (48 ≤ b) × (b ≤ 57) → result ≡ Some (b - 48) }
    ensures letter { (65 ≤ b) × (b ≤ 70) → result ≡ Some (b - 55) }
    ensures other { ((b < 48) ⊎ ((57 < b) × (b < 65)) ⊎ (70 < b)) → result ≡ None }
{
    match b {
        b'0'..=b'9' => Some(b - b'0'),
        b'A'..=b'F' => Some(b - b'A' + 10),
        _ => None,
    }
}
