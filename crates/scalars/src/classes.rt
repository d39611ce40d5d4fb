// The class of each byte of a number: a table, and its rule.
ghost use Rattle.std.specs.Prelude.{◌≡◌};
ghost use Rattle.scalars.specs.Class.{class_of};

/// The class of the underscore.
pub const UNDERSCORE: u8 = 16;

// The class of each byte, at its place; 255 where no comment names the byte.
// By a rule of the project these are numbers in a constant table of 256 entries, and one test over all bytes that proves their rule.
const CLASSES: [u8; 256] = [
    255, 255, 255, 255, 255, 255, 255, 255, 255, 255, 255, 255, 255, 255, 255, 255, 255, 255, 255,
    255, 255, 255, 255, 255, 255, 255, 255, 255, 255, 255, 255, 255, 255, 255, 255, 255, 255, 255,
    255, 255, 255, 255, 255, 255, 255, 255, 255, 255, 0, // '0'
    1, // '1'
    2, // '2'
    3, // '3'
    4, // '4'
    5, // '5'
    6, // '6'
    7, // '7'
    8, // '8'
    9, // '9'
    255, 255, 255, 255, 255, 255, 255, 10, // 'A'
    11, // 'B'
    12, // 'C'
    13, // 'D'
    14, // 'E'
    15, // 'F'
    255, 255, 255, 255, 255, 255, 255, 255, 255, 255, 255, 255, 255, 255, 255, 255, 255, 255, 255,
    255, 255, 255, 255, 255, 16, // '_'
    255, 10, // 'a'
    11, // 'b'
    12, // 'c'
    13, // 'd'
    14, // 'e'
    15, // 'f'
    255, 255, 255, 255, 255, 255, 255, 255, 255, 255, 255, 255, 255, 255, 255, 255, 255, 255, 255,
    255, 255, 255, 255, 255, 255, 255, 255, 255, 255, 255, 255, 255, 255, 255, 255, 255, 255, 255,
    255, 255, 255, 255, 255, 255, 255, 255, 255, 255, 255, 255, 255, 255, 255, 255, 255, 255, 255,
    255, 255, 255, 255, 255, 255, 255, 255, 255, 255, 255, 255, 255, 255, 255, 255, 255, 255, 255,
    255, 255, 255, 255, 255, 255, 255, 255, 255, 255, 255, 255, 255, 255, 255, 255, 255, 255, 255,
    255, 255, 255, 255, 255, 255, 255, 255, 255, 255, 255, 255, 255, 255, 255, 255, 255, 255, 255,
    255, 255, 255, 255, 255, 255, 255, 255, 255, 255, 255, 255, 255, 255, 255, 255, 255, 255, 255,
    255, 255, 255, 255, 255, 255, 255, 255, 255, 255, 255, 255, 255, 255, 255, 255, 255, 255, 255,
    255,
];

// By the same rule a number: 255 is below no radix, so that one comparison refuses it as a digit.
/// What a byte is in a number: its value as a digit, 0 to 15, `UNDERSCORE`, or 255 for any other byte.
pub fn class_of(b: u8) -> u8
    ensures { result ≡ class_of b }
{
    CLASSES[b as usize]
}
