// What is asked of most bytes, white space or digit, is one comparison: white space stands before all other classes, and digits
// behind them.
pub const BLANK: u8 = 0;

pub const RETURN: u8 = 1;

pub const NEWLINE: u8 = 2;

pub const MINUS: u8 = 3;

pub const LETTER_C: u8 = 4;

pub const LETTER_F: u8 = 5;

pub const LETTER_N: u8 = 6;

pub const LETTER_P: u8 = 7;

pub const REST: u8 = 8;

pub const NOUGHT: u8 = 9;

pub const DIGIT: u8 = 10;

// The class of each byte, from byte 0 on.
pub const CLASSES: [u8; 256] = [
    REST, REST, REST, REST, REST, REST, REST, REST, REST, BLANK, // tab
    NEWLINE, // LF
    REST, // VT
    REST, // FF
    RETURN, // CR
    REST, REST, REST, REST, REST, REST, REST, REST, REST, REST, REST, REST, REST, REST, REST, REST,
    REST, REST, BLANK, // space
    REST, REST, REST, REST, REST, REST, REST, REST, REST, REST, REST, // `+`
    REST, MINUS, // `-`
    REST, REST, NOUGHT, // `0`
    DIGIT, // `1`
    DIGIT, // `2`
    DIGIT, // `3`
    DIGIT, // `4`
    DIGIT, // `5`
    DIGIT, // `6`
    DIGIT, // `7`
    DIGIT, // `8`
    DIGIT, // `9`
    REST, REST, REST, REST, REST, REST, REST, REST, REST, REST, REST, REST, REST, REST, REST, REST,
    REST, REST, REST, REST, REST, REST, REST, REST, REST, REST, REST, REST, REST, REST, REST, REST,
    REST, REST, REST, REST, REST, REST, REST, REST, REST, LETTER_C, // `c`
    REST, REST, LETTER_F, // `f`
    REST, REST, REST, REST, REST, REST, REST, LETTER_N, // `n`
    REST, LETTER_P, // `p`
    REST, REST, REST, REST, REST, REST, REST, REST, REST, REST, REST, REST, REST, REST, REST, REST, // byte 128
    REST, REST, REST, REST, REST, REST, REST, REST, REST, REST, REST, REST, REST, REST, REST, REST,
    REST, REST, REST, REST, REST, REST, REST, REST, REST, REST, REST, REST, REST, REST, REST, REST,
    REST, REST, REST, REST, REST, REST, REST, REST, REST, REST, REST, REST, REST, REST, REST, REST,
    REST, REST, REST, REST, REST, REST, REST, REST, REST, REST, REST, REST, REST, REST, REST, REST,
    REST, REST, REST, REST, REST, REST, REST, REST, REST, REST, REST, REST, REST, REST, REST, REST,
    REST, REST, REST, REST, REST, REST, REST, REST, REST, REST, REST, REST, REST, REST, REST, REST,
    REST, REST, REST, REST, REST, REST, REST, REST, REST, REST, REST, REST, REST, REST, REST, REST,
    REST, REST, REST, REST, REST, REST, REST, REST, REST, REST, REST, REST, REST, REST, REST,
];
