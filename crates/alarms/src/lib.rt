// Alarms of many boxes: read from lines of text, summed at most 1,000 at a time, and told as a table (R-12). A public function has no requirement.
#![tactic(auto)]

use sums::{Alarm, Totals};

pub mod scanning; // scanning.rt: a line of text, byte by byte
pub mod feeding; // feeding.rt: a text in pieces
pub mod telling; // telling.rt: what is told

// How far a line is read, the value of its digits so far, the lines read, and the refusal or 0.
#[derive(Clone, Copy)]
pub struct Scan {
    pub at: u8,
    pub word: u64,
    pub lines: u32,
    pub refusal: u8,
}

// A text read so far: the alarms that are held, and the totals of those before them.
#[derive(Clone, Copy)]
pub struct Feed {
    pub scan: Scan,
    pub held: usize,
    pub batch: [Alarm; 1000],
    pub totals: Totals,
}

// No text that is told is longer.
pub const OUT_SIZE: usize = 16384;
