// Power lost during a command (R-10): what a command stores and in which order, and what recovery makes of a card. All of it is definitions in specs/ and laws;
// the code that hands a store over is in the crate `stores`, that of recovery in `card`.

// A store by its number: is there one, where it goes, and the byte.
#![tactic(auto)]

#[derive(Clone, Copy)]
pub struct Numbered {
    pub there: bool,
    pub at: usize,
    pub byte: u8,
}
