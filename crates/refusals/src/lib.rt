// Which number an operation answers: specs/ defines it over its list of numbered tests, and proofs/ has the laws. And why an operation refuses, each
// reason with its number.
#![tactic(auto)]

ghost use Rattle.std.specs.Prelude.{◌≡◌, ◌<◌};

// A number that the table has not, of whoever judges a canvas by tests that are not the library's.
#[derive(Clone, Copy, Debug, PartialEq, Eq, Hash)]
pub struct Beyond {
    pub number: u32,
    pub ghost past: { 14 < number },
}

// Why an operation refuses (01, "Numbers an operation may answer").
#[derive(Clone, Copy, Debug, PartialEq, Eq, Hash)]
pub enum Refusal {
    // The depth is none of 1, 2, 4, 8, 16, 24 and 32.
    BadDepth,
    // The width or the height of a frame is above 2,048.
    TooLarge,
    // The buffer is shorter than the frame needs.
    ShortBuffer,
    // The colour is 2 to the power of the depth, or more.
    BadColour,
    // A vertex, line end or circle top-left has a coordinate outside -131,072 to 131,071.
    OutOfBounds,
    // The box of a circle ends past 131,072.
    CircleTooFar,
    // A point of a line is asked at a step or an index past its last.
    PastLastStep,
    // A pixel is read outside the frame.
    OutsideFrame,
    // The output is shorter than what is written into it.
    ShortOutput,
    // The operation takes no frame of this depth, or none without pixels.
    UnfitFrame,
    // An image file does not begin with a header of the frame's format.
    BadHeader,
    // An image file has fewer bytes of pixels than its picture takes.
    ShortFile,
    // The picture of an image file is not as wide and as high as the frame.
    OtherSize,
    // The row distance of a frame is less than a row takes, or above 16,384.
    BadDistance,
    // What a number beyond the table stands for.
    Other(Beyond),
}

impl Refusal {
    ghost use Rattle.refusals.specs.Refusal.{number};

    // The number that stands for it where callers are handed numbers.
    pub fn number(self) -> u32
        ensures { result ≡ number self }
    {
        match self {
            Refusal::BadDepth => 1,
            Refusal::TooLarge => 2,
            Refusal::ShortBuffer => 3,
            Refusal::BadColour => 4,
            Refusal::OutOfBounds => 5,
            Refusal::CircleTooFar => 6,
            Refusal::PastLastStep => 7,
            Refusal::OutsideFrame => 8,
            Refusal::ShortOutput => 9,
            Refusal::UnfitFrame => 10,
            Refusal::BadHeader => 11,
            Refusal::ShortFile => 12,
            Refusal::OtherSize => 13,
            Refusal::BadDistance => 14,
            Refusal::Other(beyond) => beyond.number,
        }
    }
}
