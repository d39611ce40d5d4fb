// The tape file: a record of a tape on each line, written and read.
//
// A line has words with one blank between two of them, and none at the ends:
//
//     LOCATION ORIGIN EVENT
//     LOCATION  LINE COLUMN SOURCE
//     ORIGIN    direct | alias LOCATION | merge LOCATION
//     EVENT     scalar ANCHOR TAG RAW STYLE PLACE | seq ANCHOR TAG RAW | endseq | map ANCHOR TAG RAW | endmap | alias ANCHOR
//     RAW       - | raw PLACE
//     PLACE     START LENGTH
//     TAG       none int float bool null seq map timestamp binary string merge value nonspecific include degrees radians other
//     STYLE     plain single double literal folded
//
// The other words are decimal numbers below 2^32, with no sign and no leading zero.
#![tactic(auto)]

pub mod fault;
mod head;
pub mod line;
pub mod read;
pub mod round_trip;
mod spelled;
mod spelling;
mod words;
