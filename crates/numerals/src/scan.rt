// What the bytes of a numeral so far have made.
#![tactic(auto)]

ghost use Rattle.numerals.specs.Fits.{FitsIn, FitsIn-prop};

// The part of a numeral that its next byte may go on with.
#[derive(Clone, Copy)]
pub enum Part {
    Start,
    Whole,
    Decimals,
}

// What the bytes so far have made: the digits of this part, and the number that all digits make. Where they have made no beginning of a numeral, there is no scan.
#[derive(Clone, Copy)]
pub struct Scan {
    pub part: Part,
    pub minus: bool,
    pub count: usize,
    pub number: usize,
    pub ghost fits: { FitsIn part count number } by { FitsIn-prop part count number },
}
