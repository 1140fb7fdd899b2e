// AES-128 of one block (FIPS 197), encryption. The state is two words of two columns each, and a column four bytes.
#![tactic(auto)]

ghost use Rattle.std.specs.Prelude.{◌≡◌, ◌+◌, ◌/◌, ◌%◌, ◌≤◌, [], ◌∷◌, eqb, length, get_or};
ghost use Rattle.cipher.specs.Field.{xtime};
ghost use Rattle.cipher.specs.ShiftRows.{shift_rows};
ghost use Rattle.cipher.specs.AddRoundKey.{add_round_key};
ghost use Rattle.cipher.specs.KeyExpansion.{xor_word, sub_word, rot_word};
ghost use Rattle.cipher.specs.Cipher.{aes128};
ghost use Rattle.cipher.specs.Call.{Enciphered};
ghost use Rattle.cipher.specs.Words.{bytes, columns, state, NextKey, OnHalves, merge, mix_unless};

mod circuit;
mod word;

use circuit::sub_triple;
use word::{high_half, joined, low_half, mixed, turned};

// Document 01's numbers: a served call, and a buffer that is not 16 bytes.
const SERVED: u8 = 0;

const BAD_LENGTH: u8 = 6;

// Four columns, two in a word: a state, or a round key.
#[derive(Clone, Copy)]
struct Block {
    lo: u64,
    hi: u64,
}

// MixColumns in all of ten rounds but the last, n = 9.
fn mixed_but_last(s: Block, n: usize) -> Block
    ensures { OnHalves (mix_unless (eqb n 9)) s.lo result.lo × OnHalves (mix_unless (eqb n 9)) s.hi result.hi }
{
    if n != 9 {
        let lo = mixed(s.lo);
        let hi = mixed(s.hi);
        Block { lo, hi }
    } else {
        s
    }
}

// The bits of b where m has a 1, and else those of a.
fn merged(a: u64, b: u64, m: u64) -> u64
    ensures { result ≡ merge a b m }
{
    a ^ ((a ^ b) & m)
}

// The second column of a, and the first of b.
fn between(a: u64, b: u64) -> u64
    ensures { (result % 4294967296 ≡ a / 4294967296) × (result / 4294967296 ≡ b % 4294967296) }
{
    joined(high_half(a), low_half(b))
}

// ShiftRows: the rows 2 and 3 go two columns, then the rows 1 and 3 one.
fn shifted(s: Block) -> Block
    ensures { state (columns result) ≡ shift_rows (state (columns s)) }
{
    let a = merged(s.lo, s.hi, 0xffff0000ffff0000);
    let b = merged(s.hi, s.lo, 0xffff0000ffff0000);
    let lo = merged(a, between(a, b), 0xff00ff00ff00ff00);
    let hi = merged(b, between(b, a), 0xff00ff00ff00ff00);
    Block { lo, hi }
}

fn add_key(s: Block, k: Block) -> Block
    ensures { state (columns result) ≡ add_round_key (state (columns s)) (state (columns k)) }
{
    Block {
        lo: s.lo ^ k.lo,
        hi: s.hi ^ k.hi,
    }
}

// What is added to the first column of a round key, from t, whose first column is the S-box at the last one.
fn key_core(t: u64, rc: u8) -> u32
    ensures { bytes result ≡ xor_word (rot_word (bytes (t % 4294967296))) (rc ∷ 0 ∷ 0 ∷ 0 ∷ []) }
{
    low_half(turned(t)) ^ u32::from(rc)
}

fn next_key(k: Block, t: u64, rc: u8) -> Block
    requires { OnHalves sub_word (k.hi / 4294967296) t }
    ensures { NextKey rc (columns k) (columns result) }
{
    let l = k.lo ^ u64::from(key_core(t, rc));
    let lo = l ^ (l << 32);
    let h = k.hi ^ (lo >> 32);
    let hi = h ^ (h << 32);
    Block { lo, hi }
}

// The next round constant.
fn times_x(x: u8) -> u8
    ensures { result ≡ xtime x }
{
    (x << 1) ^ ((x >> 7) * 0x1b)
}

// A round runs the circuit once: at the state and, for the next round key, at the last column of this one.
fn enciphered(key: Block, block: Block) -> Block
    ensures { state (columns result) ≡ aes128 (state (columns key)) (state (columns block)) }
{
    let mut s = add_key(block, key);
    let mut k = key;
    let mut rc: u8 = 1;
    for n in 0usize..10 {
        let t = shifted(s);
        let x = sub_triple(t.lo, t.hi, k.hi >> 32);
        k = next_key(k, x.c, rc);
        s = add_key(mixed_but_last(Block { lo: x.a, hi: x.b }, n), k);
        rc = times_x(rc);
    }
    s
}

fn loaded(s: &[u8]) -> Block
    requires { length s.now ≡ 16 }
    ensures { state (columns result) ≡ s.now }
{
    let (lo, hi) = s.split_at(8);
    Block {
        lo: u64::from_le_bytes(lo.try_into().unwrap()),
        hi: u64::from_le_bytes(hi.try_into().unwrap()),
    }
}

fn bytes_of(s: Block) -> [u8; 16]
    ensures { result ≡ state (columns s) }
{
    let [a, b, c, d, e, f, g, h] = s.lo.to_le_bytes();
    let [i, j, k, l, m, n, o, p] = s.hi.to_le_bytes();
    [a, b, c, d, e, f, g, h, i, j, k, l, m, n, o, p]
}

fn block_of(key: &[u8], block: &[u8]) -> [u8; 16]
    requires { (length key.now ≡ 16) × (length block.now ≡ 16) }
    ensures { result ≡ aes128 key.now block.now }
{
    bytes_of(enciphered(loaded(key), loaded(block)))
}

// The block enciphered under the key, by value.
pub fn aes128(key: [u8; 16], block: [u8; 16]) -> [u8; 16]
    ensures { result ≡ aes128 key block }
{
    block_of(&key, &block)
}

// By hand: copy_from_slice compares addresses in 64 bits, and the compiler refuses that for a processor of 32.
fn store(out: &mut [u8], bytes: [u8; 16])
    requires { length out.old ≡ 16 }
    ensures { out.new ≡ bytes }
{
    for (i, byte) in bytes.iter().enumerate() {
        out[i] = *byte;
    }
}

// The block enciphered under the key, into out: 0. Where key, block or out is not 16 bytes: 6, and out stays as it was.
pub fn encipher(key: &[u8], block: &[u8], out: &mut [u8]) -> u8
    ensures { Enciphered key.now block.now out.old result out.new }
{
    if key.len() != 16 || block.len() != 16 || out.len() != 16 {
        return BAD_LENGTH;
    }
    store(out, block_of(key, block));
    SERVED
}
