// A card written as lines, and read from them: request R-4; the form without directories, and its conversion: R-8.
#![tactic(auto)]

mod load; // load.rt: what a text says
mod scan; // scan.rt: digits and fields read
mod text; // text.rt: the lines of a card
pub mod calls; // calls.rt: the writer and the reader

// The longest text that a sound card has.
pub const TEXT_SIZE: usize = 9559;

// The two forms of a text: with directories, and without.
#[derive(Clone, Copy)]
enum Form {
    New,
    Old,
}
