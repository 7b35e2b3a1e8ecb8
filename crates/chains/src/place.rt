// Where in a chain of conditions a sequence of pieces has come to, and what may follow there (specs/Places.antt).
ghost use Rattle.std.specs.Prelude.{◌≡◌, eqb};
ghost use Rattle.text.specs.Choice.{pick};
ghost use Rattle.chains.specs.Places.{step, lengths, may_end};
ghost use Rattle.chains.specs.declared.place.Place.TheVariants.{Start, LampClosed, Compared, Sign, ReadLevel};

use crate::MOST_PIECES;

// Behind which pieces; a condition begins at Start, and another piece than those that may stand there leads Nowhere. `lamp` is read in two places: Lamp and
// those after it begin a condition, Read and those after it the value that it is compared with.
#[derive(Clone, Copy)]
pub enum Place {
    Start,
    Sun,
    SunIs,
    Time,
    TimeIn,
    TimeFrom,
    TimePoints,
    Lamp,
    LampOpen,
    LampId,
    LampClosed,
    LampIs,
    LampPoint,
    LampLevel,
    Compared,
    Sign,
    Read,
    ReadOpen,
    ReadId,
    ReadClosed,
    ReadPoint,
    ReadLevel,
    End,
    Nowhere,
}

// The pieces by name: each is its place in the vocabulary (specs/Vocabulary.antt). They are numbers, since C hands them over
// (enum tergyosul_piece).
const LAMP: u8 = 0;

const SUN: u8 = 1;

const TIME: u8 = 2;

const IS: u8 = 3;

const IN: u8 = 4;

const ON: u8 = 5;

const OFF: u8 = 6;

const UP: u8 = 7;

const DOWN: u8 = 8;

const SUNRISE: u8 = 9;

const SUNSET: u8 = 10;

const LEVEL: u8 = 11;

const AND: u8 = 12;

const ZERO: u8 = 13;

const SIXTY_THREE: u8 = 14;

const SIXTY_FOUR: u8 = 15;

const OPEN: u8 = 16;

const CLOSE: u8 = 17;

const POINT: u8 = 18;

const POINTS: u8 = 19;

const EQUAL: u8 = 20;

const PLUS: u8 = 21;

const MINUS: u8 = 22;

// How many there are.
pub const PIECE_COUNT: u8 = 23;

// The place behind a piece that may stand there, and else another.
fn one(piece: u8, wanted: u8, to: Place, other: Place) -> Place
    ensures { result ≡ pick (eqb piece wanted) to other }
{
    if piece == wanted { to } else { other }
}

fn two(piece: u8, first: u8, second: u8, to: Place, other: Place) -> Place
    ensures { result ≡ pick (eqb piece first) to (pick (eqb piece second) to other) }
{
    if piece == first || piece == second {
        to
    } else {
        other
    }
}

// A condition begins.
#[tactic(auto, unfolding(crate::specs::Places::moved))]
fn begun(piece: u8) -> Place
    ensures { result ≡ step Start piece }
{
    let time = one(piece, TIME, Place::Time, Place::Nowhere);
    let sun = one(piece, SUN, Place::Sun, time);
    one(piece, LAMP, Place::Lamp, sun)
}

// Behind a lamp: its state, or its level.
#[tactic(auto, unfolding(crate::specs::Places::moved))]
fn closed(piece: u8) -> Place
    ensures { result ≡ step LampClosed piece }
{
    let point = one(piece, POINT, Place::LampPoint, Place::Nowhere);
    one(piece, IS, Place::LampIs, point)
}

// A value begins: a number with perhaps a sign, or a lamp's level.
#[tactic(auto, unfolding(crate::specs::Places::moved))]
fn compared(piece: u8) -> Place
    ensures { result ≡ step Compared piece }
{
    let sign = two(piece, PLUS, MINUS, Place::Sign, Place::Nowhere);
    let last = one(piece, SIXTY_FOUR, Place::End, sign);
    let number = two(piece, ZERO, SIXTY_THREE, Place::End, last);
    one(piece, LAMP, Place::Read, number)
}

// Behind a sign.
#[tactic(auto, unfolding(crate::specs::Places::moved))]
fn signed(piece: u8) -> Place
    ensures { result ≡ step Sign piece }
{
    let last = one(piece, SIXTY_FOUR, Place::End, Place::Nowhere);
    two(piece, ZERO, SIXTY_THREE, Place::End, last)
}

// Behind a lamp's level that is a value.
#[tactic(auto, unfolding(crate::specs::Places::moved))]
fn behind_level(piece: u8) -> Place
    ensures { result ≡ step ReadLevel piece }
{
    let sign = two(piece, PLUS, MINUS, Place::Sign, Place::Nowhere);
    one(piece, AND, Place::Start, sign)
}

// Where a piece leads: one match on the place, as the definition has it.
#[tactic(auto, unfolding(crate::specs::Places::moved))]
pub fn step(place: Place, piece: u8) -> Place
    ensures { result ≡ step place piece }
{
    match place {
        Place::Start => begun(piece),
        Place::Sun => one(piece, IS, Place::SunIs, Place::Nowhere),
        Place::SunIs => two(piece, UP, DOWN, Place::End, Place::Nowhere),
        Place::Time => one(piece, IN, Place::TimeIn, Place::Nowhere),
        Place::TimeIn => two(piece, SUNRISE, SUNSET, Place::TimeFrom, Place::Nowhere),
        Place::TimeFrom => one(piece, POINTS, Place::TimePoints, Place::Nowhere),
        Place::TimePoints => two(piece, SUNRISE, SUNSET, Place::End, Place::Nowhere),
        Place::Lamp => one(piece, OPEN, Place::LampOpen, Place::Nowhere),
        Place::LampOpen => two(piece, ZERO, SIXTY_THREE, Place::LampId, Place::Nowhere),
        Place::LampId => one(piece, CLOSE, Place::LampClosed, Place::Nowhere),
        Place::LampClosed => closed(piece),
        Place::LampIs => two(piece, ON, OFF, Place::End, Place::Nowhere),
        Place::LampPoint => one(piece, LEVEL, Place::LampLevel, Place::Nowhere),
        Place::LampLevel => one(piece, EQUAL, Place::Compared, Place::Nowhere),
        Place::Compared => compared(piece),
        Place::Sign => signed(piece),
        Place::Read => one(piece, OPEN, Place::ReadOpen, Place::Nowhere),
        Place::ReadOpen => two(piece, ZERO, SIXTY_THREE, Place::ReadId, Place::Nowhere),
        Place::ReadId => one(piece, CLOSE, Place::ReadClosed, Place::Nowhere),
        Place::ReadClosed => one(piece, POINT, Place::ReadPoint, Place::Nowhere),
        Place::ReadPoint => one(piece, LEVEL, Place::ReadLevel, Place::Nowhere),
        Place::ReadLevel => behind_level(piece),
        Place::End => one(piece, AND, Place::Start, Place::Nowhere),
        Place::Nowhere => Place::Nowhere,
    }
}

// How many pieces may follow up to the end of a chain: bit n is set if n may.
fn lengths(place: Place) -> u32
    ensures { result ≡ lengths place }
{
    match place {
        Place::Start => 0b1111_1111_1110_1000,
        Place::Sun => 0b1111_1111_0100_0100,
        Place::SunIs => 0b1111_1111_1010_0010,
        Place::Time => 0b1111_1101_0001_0000,
        Place::TimeIn => 0b1111_1110_1000_1000,
        Place::TimeFrom => 0b1111_1111_0100_0100,
        Place::TimePoints => 0b1111_1111_1010_0010,
        Place::Lamp => 0b1111_1011_1010_0000,
        Place::LampOpen => 0b1111_1101_1101_0000,
        Place::LampId => 0b1111_1110_1110_1000,
        Place::LampClosed => 0b1111_1111_0111_0100,
        Place::LampIs => 0b1111_1111_1010_0010,
        Place::LampPoint => 0b1111_1111_1001_1000,
        Place::LampLevel => 0b1111_1111_1100_1100,
        Place::Compared => 0b1111_1111_1110_0110,
        Place::Sign => 0b1111_1111_1010_0010,
        Place::Read => 0b1111_1010_1010_0000,
        Place::ReadOpen => 0b1111_1101_0101_0000,
        Place::ReadId => 0b1111_1110_1010_1000,
        Place::ReadClosed => 0b1111_1111_0101_0100,
        Place::ReadPoint => 0b1111_1111_1010_1010,
        Place::ReadLevel => 0b1111_1111_1101_0101,
        Place::End => 0b1111_1111_1101_0001,
        Place::Nowhere => 0,
    }
}

#[tactic(auto, unfolding(crate::specs::Places::may_end))]
pub fn may_end(place: Place, left: usize) -> bool
    ensures { result ≡ may_end place left }
{
    left <= MOST_PIECES && (lengths(place) >> left) % 2 == 1
}
