//! The meaning of each byte of a solution, in tables.
ghost use Rattle.std.specs.Prelude.{◌≡◌};
ghost use Rattle.play.specs.Letter.{IsRead, IsAdded};

// A byte of a solution, its kind, and what it adds to the player's place.
#[derive(Clone, Copy)]
pub(crate) struct Letter {
    pub(crate) byte: u8,
    pub(crate) step: u16,
    pub(crate) kind: u8,
}

// The kind of small letters and of blanks. A blank is a step of 0 onto the player's own cell.
pub(crate) const WALK: u8 = 0;

// The kind of capitals.
pub(crate) const PUSH: u8 = 1;

// The kind of all other bytes.
pub(crate) const FOREIGN: u8 = 2;

// What each byte adds to a place. Places have 16 bits, so a column back is 65,535 and a row back is 65,280.
static STEPS: [u16; 256] = [
    0, 0, 0, 0, 0, 0, 0, 0, 0, 0, 0, 0, 0, 0, 0, 0, 0, 0, 0, 0, 0, 0, 0, 0, 0, 0, 0, 0, 0, 0, 0, 0,
    0, 0, 0, 0, 0, 0, 0, 0, 0, 0, 0, 0, 0, 0, 0, 0, 0, 0, 0, 0, 0, 0, 0, 0, 0, 0, 0, 0, 0, 0, 0, 0,
    0, 0, 0, 0, 256, 0, 0, 0, 0, 0, 0, 0, 65535, 0, 0, 0, 0, 0, 1, 0, 0, 65280, 0, 0, 0, 0, 0, 0,
    0, 0, 0, 0, 0, 0, 0, 0, 256, 0, 0, 0, 0, 0, 0, 0, 65535, 0, 0, 0, 0, 0, 1, 0, 0, 65280, 0, 0,
    0, 0, 0, 0, 0, 0, 0, 0, 0, 0, 0, 0, 0, 0, 0, 0, 0, 0, 0, 0, 0, 0, 0, 0, 0, 0, 0, 0, 0, 0, 0, 0,
    0, 0, 0, 0, 0, 0, 0, 0, 0, 0, 0, 0, 0, 0, 0, 0, 0, 0, 0, 0, 0, 0, 0, 0, 0, 0, 0, 0, 0, 0, 0, 0,
    0, 0, 0, 0, 0, 0, 0, 0, 0, 0, 0, 0, 0, 0, 0, 0, 0, 0, 0, 0, 0, 0, 0, 0, 0, 0, 0, 0, 0, 0, 0, 0,
    0, 0, 0, 0, 0, 0, 0, 0, 0, 0, 0, 0, 0, 0, 0, 0, 0, 0, 0, 0, 0, 0, 0, 0, 0, 0, 0, 0, 0, 0, 0, 0,
    0, 0, 0, 0, 0, 0, 0, 0,
];

static KINDS: [u8; 256] = [
    2, 2, 2, 2, 2, 2, 2, 2, 2, 0, 0, 2, 2, 0, 2, 2, 2, 2, 2, 2, 2, 2, 2, 2, 2, 2, 2, 2, 2, 2, 2, 2,
    0, 2, 2, 2, 2, 2, 2, 2, 2, 2, 2, 2, 2, 2, 2, 2, 2, 2, 2, 2, 2, 2, 2, 2, 2, 2, 2, 2, 2, 2, 2, 2,
    2, 2, 2, 2, 1, 2, 2, 2, 2, 2, 2, 2, 1, 2, 2, 2, 2, 2, 1, 2, 2, 1, 2, 2, 2, 2, 2, 2, 2, 2, 2, 2,
    2, 2, 2, 2, 0, 2, 2, 2, 2, 2, 2, 2, 0, 2, 2, 2, 2, 2, 0, 2, 2, 0, 2, 2, 2, 2, 2, 2, 2, 2, 2, 2,
    2, 2, 2, 2, 2, 2, 2, 2, 2, 2, 2, 2, 2, 2, 2, 2, 2, 2, 2, 2, 2, 2, 2, 2, 2, 2, 2, 2, 2, 2, 2, 2,
    2, 2, 2, 2, 2, 2, 2, 2, 2, 2, 2, 2, 2, 2, 2, 2, 2, 2, 2, 2, 2, 2, 2, 2, 2, 2, 2, 2, 2, 2, 2, 2,
    2, 2, 2, 2, 2, 2, 2, 2, 2, 2, 2, 2, 2, 2, 2, 2, 2, 2, 2, 2, 2, 2, 2, 2, 2, 2, 2, 2, 2, 2, 2, 2,
    2, 2, 2, 2, 2, 2, 2, 2, 2, 2, 2, 2, 2, 2, 2, 2, 2, 2, 2, 2, 2, 2, 2, 2, 2, 2, 2, 2, 2, 2, 2, 2,
];

// Looks up a byte.
#[inline]
pub(crate) fn read(byte: u8) -> Letter
    ensures byte { result.byte ≡ byte }
    ensures read { IsRead result }
{
    Letter {
        byte,
        step: STEPS[byte as usize],
        kind: KINDS[byte as usize],
    }
}

// One letter in a sum of places and letters. The places of a chunk stay below it.
pub(crate) const LETTER: u32 = 0x100000;

// What any byte but a small letter or a blank adds to such a sum: more than a chunk of letters can.
pub(crate) const NO_WALK: u32 = 0x1000000;

const LEFT: u32 = LETTER + 65535;

const UP: u32 = LETTER + 65280;

const RIGHT: u32 = LETTER + 1;

const DOWN: u32 = LETTER + 256;

// What each byte adds to a sum of places and letters.
static ADDED: [u32; 256] = [
    NO_WALK, NO_WALK, NO_WALK, NO_WALK, NO_WALK, NO_WALK, NO_WALK, NO_WALK, NO_WALK, 0, 0, NO_WALK,
    NO_WALK, 0, NO_WALK, NO_WALK, NO_WALK, NO_WALK, NO_WALK, NO_WALK, NO_WALK, NO_WALK, NO_WALK,
    NO_WALK, NO_WALK, NO_WALK, NO_WALK, NO_WALK, NO_WALK, NO_WALK, NO_WALK, NO_WALK, 0, NO_WALK,
    NO_WALK, NO_WALK, NO_WALK, NO_WALK, NO_WALK, NO_WALK, NO_WALK, NO_WALK, NO_WALK, NO_WALK,
    NO_WALK, NO_WALK, NO_WALK, NO_WALK, NO_WALK, NO_WALK, NO_WALK, NO_WALK, NO_WALK, NO_WALK,
    NO_WALK, NO_WALK, NO_WALK, NO_WALK, NO_WALK, NO_WALK, NO_WALK, NO_WALK, NO_WALK, NO_WALK,
    NO_WALK, NO_WALK, NO_WALK, NO_WALK, NO_WALK, NO_WALK, NO_WALK, NO_WALK, NO_WALK, NO_WALK,
    NO_WALK, NO_WALK, NO_WALK, NO_WALK, NO_WALK, NO_WALK, NO_WALK, NO_WALK, NO_WALK, NO_WALK,
    NO_WALK, NO_WALK, NO_WALK, NO_WALK, NO_WALK, NO_WALK, NO_WALK, NO_WALK, NO_WALK, NO_WALK,
    NO_WALK, NO_WALK, NO_WALK, NO_WALK, NO_WALK, NO_WALK, DOWN, NO_WALK, NO_WALK, NO_WALK, NO_WALK,
    NO_WALK, NO_WALK, NO_WALK, LEFT, NO_WALK, NO_WALK, NO_WALK, NO_WALK, NO_WALK, RIGHT, NO_WALK,
    NO_WALK, UP, NO_WALK, NO_WALK, NO_WALK, NO_WALK, NO_WALK, NO_WALK, NO_WALK, NO_WALK, NO_WALK,
    NO_WALK, NO_WALK, NO_WALK, NO_WALK, NO_WALK, NO_WALK, NO_WALK, NO_WALK, NO_WALK, NO_WALK,
    NO_WALK, NO_WALK, NO_WALK, NO_WALK, NO_WALK, NO_WALK, NO_WALK, NO_WALK, NO_WALK, NO_WALK,
    NO_WALK, NO_WALK, NO_WALK, NO_WALK, NO_WALK, NO_WALK, NO_WALK, NO_WALK, NO_WALK, NO_WALK,
    NO_WALK, NO_WALK, NO_WALK, NO_WALK, NO_WALK, NO_WALK, NO_WALK, NO_WALK, NO_WALK, NO_WALK,
    NO_WALK, NO_WALK, NO_WALK, NO_WALK, NO_WALK, NO_WALK, NO_WALK, NO_WALK, NO_WALK, NO_WALK,
    NO_WALK, NO_WALK, NO_WALK, NO_WALK, NO_WALK, NO_WALK, NO_WALK, NO_WALK, NO_WALK, NO_WALK,
    NO_WALK, NO_WALK, NO_WALK, NO_WALK, NO_WALK, NO_WALK, NO_WALK, NO_WALK, NO_WALK, NO_WALK,
    NO_WALK, NO_WALK, NO_WALK, NO_WALK, NO_WALK, NO_WALK, NO_WALK, NO_WALK, NO_WALK, NO_WALK,
    NO_WALK, NO_WALK, NO_WALK, NO_WALK, NO_WALK, NO_WALK, NO_WALK, NO_WALK, NO_WALK, NO_WALK,
    NO_WALK, NO_WALK, NO_WALK, NO_WALK, NO_WALK, NO_WALK, NO_WALK, NO_WALK, NO_WALK, NO_WALK,
    NO_WALK, NO_WALK, NO_WALK, NO_WALK, NO_WALK, NO_WALK, NO_WALK, NO_WALK, NO_WALK, NO_WALK,
    NO_WALK, NO_WALK, NO_WALK, NO_WALK, NO_WALK, NO_WALK, NO_WALK, NO_WALK, NO_WALK, NO_WALK,
    NO_WALK, NO_WALK, NO_WALK, NO_WALK, NO_WALK, NO_WALK, NO_WALK, NO_WALK, NO_WALK,
];

// Looks up what a byte adds to a sum of places and letters.
#[inline]
pub(crate) fn added(byte: u8) -> u32
    ensures { IsAdded byte result }
{
    ADDED[byte as usize]
}
