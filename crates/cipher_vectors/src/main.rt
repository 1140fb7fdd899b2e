// Prints the ciphertexts of known cases, a line each. `tests/cipher-vectors` has openssl work out what they must be.
#![tactic(auto)]

ghost use Rattle.std.specs.Prelude.{◌≤◌};

use cipher::aes128;
use std::fmt::Display;

// FIPS 197, appendix C.1
const KEY_C1: [u8; 16] = [
    0x00, 0x01, 0x02, 0x03, 0x04, 0x05, 0x06, 0x07, 0x08, 0x09, 0x0A, 0x0B, 0x0C, 0x0D, 0x0E, 0x0F,
];

const BLOCK_C1: [u8; 16] = [
    0x00, 0x11, 0x22, 0x33, 0x44, 0x55, 0x66, 0x77, 0x88, 0x99, 0xAA, 0xBB, 0xCC, 0xDD, 0xEE, 0xFF,
];

// FIPS 197, appendix B
const KEY_B: [u8; 16] = [
    0x2B, 0x7E, 0x15, 0x16, 0x28, 0xAE, 0xD2, 0xA6, 0xAB, 0xF7, 0x15, 0x88, 0x09, 0xCF, 0x4F, 0x3C,
];

const BLOCK_B: [u8; 16] = [
    0x32, 0x43, 0xF6, 0xA8, 0x88, 0x5A, 0x30, 0x8D, 0x31, 0x31, 0x98, 0xA2, 0xE0, 0x37, 0x07, 0x34,
];

// A block whose first n bits are set.
fn first_bits(n: u32) -> [u8; 16]
    requires { (1 ≤ n) × (n ≤ 128) }
{
    (u128::MAX << (128 - n)).to_be_bytes()
}

// The last of n blocks, each the next one's input.
fn chained(n: usize) -> [u8; 16] {
    let mut block = BLOCK_C1;
    for _ in 0..n {
        // Named first: the check does not cover a call whose array goes straight into a variable that it reads.
        let next = aes128(KEY_C1, block);
        block = next;
    }
    block
}

// One write each. A piece that cannot be written is passed over, and what is behind it is tried all the same.
fn put<T: Display + Drop>(rt: &impl Print, piece: T) {
    let _ = print!(rt; "{piece}");
}

fn put_block(rt: &impl Print, block: [u8; 16]) {
    let _ = println!(rt; "{:032X}", u128::from_be_bytes(block));
}

fn print_case(rt: &impl Print, name: &str, n: u32, block: [u8; 16]) {
    put(rt, name);
    put(rt, n);
    put(rt, " ");
    put_block(rt, block);
}

fn main(rt: HostRuntime) {
    put(&rt, "C.1 ");
    put_block(&rt, aes128(KEY_C1, BLOCK_C1));
    put(&rt, "B ");
    put_block(&rt, aes128(KEY_B, BLOCK_B));
    for n in 1..=128 {
        print_case(&rt, "VarTxt ", n, aes128([0; 16], first_bits(n)));
    }
    for n in 1..=128 {
        print_case(&rt, "VarKey ", n, aes128(first_bits(n), [0; 16]));
    }
    put(&rt, "chain ");
    put_block(&rt, chained(10000));
}
