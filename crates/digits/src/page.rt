// A text put down byte by byte, as long as the buffer has room. Each function returns where the next byte goes.
ghost use Rattle.std.specs.Prelude.{◌≡◌, [], ◌∷◌};
ghost use Rattle.digits.specs.Digits.{ended, last_digit, decimal, hex_of, or_dash};
ghost use Rattle.digits.specs.Page.{Draws};

use crate::hex_digit;

pub fn put(out: &mut [u8], at: usize, b: u8) -> usize
    ensures { Draws (b ∷ []) out.old at result out.new }
{
    if at < out.len() {
        out[at] = b;
        at + 1
    } else {
        at
    }
}

pub fn put_all(out: &mut [u8], at: usize, text: &[u8]) -> usize
    ensures { Draws text.now out.old at result out.new }
{
    let mut q = at;
    for b in text {
        q = put(out, q, *b);
    }
    q
}

fn last_digit(n: u32) -> u8
    ensures { result ≡ last_digit n }
{
    b'0' + (n % 10) as u8
}

// A number without leading zeros: no number of 32 bits has more than ten digits, which are found from the last to the first.
fn put_number(out: &mut [u8], at: usize, n: u32) -> usize
    ensures { Draws (decimal n) out.old at result out.new }
{
    let mut digits = [0u8; 10];
    let mut from: usize = 9;
    let mut tens = n;
    while tens > 9 {
        digits[from] = last_digit(tens);
        tens /= 10;
        from -= 1;
    }
    digits[from] = last_digit(tens);
    put_all(out, at, &digits[from..])
}

pub fn put_hex(out: &mut [u8], at: usize, bytes: &[u8]) -> usize
    ensures { Draws (hex_of bytes.now) out.old at result out.new }
{
    let mut q = at;
    for b in bytes {
        let middle = put(out, q, hex_digit(*b / 16));
        q = put(out, middle, hex_digit(*b % 16));
    }
    q
}

// Upper-case hex, or - for none.
fn put_or_dash(out: &mut [u8], at: usize, bytes: &[u8]) -> usize
    ensures { Draws (or_dash bytes.now) out.old at result out.new }
{
    if bytes.is_empty() {
        put(out, at, b'-')
    } else {
        put_hex(out, at, bytes)
    }
}

// A field, and the byte that ends it.
pub fn number_field(out: &mut [u8], at: usize, n: u32, end: u8) -> usize
    ensures { Draws (ended end (decimal n)) out.old at result out.new }
{
    let q = put_number(out, at, n);
    put(out, q, end)
}

pub fn hex_field(out: &mut [u8], at: usize, bytes: &[u8], end: u8) -> usize
    ensures { Draws (ended end (or_dash bytes.now)) out.old at result out.new }
{
    let q = put_or_dash(out, at, bytes);
    put(out, q, end)
}
