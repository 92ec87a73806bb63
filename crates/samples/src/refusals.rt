// Why an entry refuses: the rules' numbers for no, and the place that goes with one.
ghost use Rattle.std.specs.Prelude.{◌≡◌};
ghost use Rattle.samples.specs.Answers.{number_of};

// What a refusal is given for, with its number in the rules.
#[derive(Clone, Copy, PartialEq, Eq)]
pub enum Reason {
    // the two lists differ in length
    LengthsDiffer = 1,
    // over 65,536 samples, list items, corners or joined corners; in the program, a 513th line
    TooMany = 2,
    // a part beyond the limit
    PartBeyond = 3,
    // scratch too short
    ScratchShort = 4,
    // an output list shorter than the result
    OutputShort = 5,
    // no bridge over a
    NotSpanned = 6,
    // a listed number not below the sample count
    Unlisted = 7,
    // rank 0 or above n
    NoSuchRank = 8,
    // not an envelope
    NotEnvelope = 9,
    // an empty ring given to hand or strongest set, or a hand whose place is not below its count
    NoCorner = 10,
    // course (0, 0)
    NoCourse = 11,
    // not a number
    NotANumber = 12,
    // a float beyond the limit
    TooLarge = 13,
    // a fraction
    Fraction = 14,
    // bad text
    BadText = 15,
    // a version other than 1 or 2
    OtherVersion = 16,
    // the bytes end early
    EndsEarly = 17,
    // a chain step's list has no bridge over its a
    StepWithoutBridge = 18,
    // a corner of the sum is beyond the limit
    SumBeyond = 19,
    // bytes follow the end
    BytesFollow = 20,
    // the length is not a multiple of 8, in version 2 the length less one
    OddLength = 21,
    // a sense above 1, or sense 1 with version 1
    OtherSense = 22,
}

// A reason, and the place that goes with it.
#[derive(Clone, Copy, PartialEq, Eq)]
pub struct Refusal {
    pub reason: Reason,
    pub place: usize,
}

impl Reason {
    // The number that the rules give it.
    pub fn number(self) -> u32
        ensures { result ≡ number_of self }
    {
        self as u32
    }

    // The refusal that names a place.
    pub fn at(self, place: usize) -> Refusal
        ensures { result ≡ record { reason = self; place = place } }
    {
        Refusal {
            reason: self,
            place,
        }
    }
}

// One that names none has place 0.
impl From<Reason> for Refusal {
    ghost from_gives = { λ reason r. r ≡ record { reason = reason; place = 0 } };

    fn from(reason: Reason) -> Refusal {
        reason.at(0)
    }
}
