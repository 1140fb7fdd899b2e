// Digits, hex and decimal: written and read, one at a time, and the writer of fields.
#![tactic(auto)]

ghost use Rattle.std.specs.Prelude.{◌≡◌, ◌≤◌};
ghost use Rattle.files.specs.Words.{Bounded};
ghost use Rattle.digits.specs.Digits.{hex_digit, value, hex_pair};

pub mod page;

pub const TAB: u8 = b'\t';

pub const NEWLINE: u8 = b'\n';

// A digit below 16.
#[tactic(auto, unfolding(crate::specs::Digits::hex_digit))]
fn hex_digit(n: u8) -> u8
    requires { n ≤ 15 }
    ensures { result ≡ hex_digit n }
{
    if n < 10 { b'0' + n } else { b'A' + (n - 10) }
}

// What a digit stands for; 16 for any other byte.
#[tactic(auto, unfolding(crate::specs::Digits::value))]
pub fn value(b: u8) -> u8
    ensures { Bounded 16 (value b) result }
{
    match b {
        b'0'..=b'9' => b - b'0',
        b'A'..=b'F' => b - b'A' + 10,
        _ => 16,
    }
}

// Two hex digits; the byte is cut to size where they are none.
pub fn hex_byte(a: u8, b: u8) -> u8
    ensures { result ≡ hex_pair a b }
{
    value(a).wrapping_mul(16).wrapping_add(value(b))
}
