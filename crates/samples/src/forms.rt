// The versions of a record, and the senses in which one stores its corners.
ghost use Rattle.std.specs.Prelude.{◌≡◌};
ghost use Rattle.rules.specs.Record.{size_of_sense};
ghost use Rattle.samples.specs.Forms.{version_byte, sense_byte, ReadsVersion, ReadsSense};

use super::refusals::Reason;

// A version, by its byte.
#[derive(Clone, Copy, PartialEq, Eq)]
pub enum Version {
    First = 1,
    Second = 2,
}

// A sense, by its byte.
#[derive(Clone, Copy, PartialEq, Eq)]
pub enum Sense {
    GoingTo = 0,
    ComingFrom = 1,
}

// 1 or 2.
impl TryFrom<u8> for Version {
    type Error = Reason;

    ghost try_from_gives = { ReadsVersion };

    fn try_from(byte: u8) -> Result<Version, Reason> {
        match byte {
            1 => Ok(Version::First),
            2 => Ok(Version::Second),
            _ => Err(Reason::OtherVersion),
        }
    }
}

// 0 or 1.
impl TryFrom<u8> for Sense {
    type Error = Reason;

    ghost try_from_gives = { ReadsSense };

    fn try_from(byte: u8) -> Result<Sense, Reason> {
        match byte {
            0 => Ok(Sense::GoingTo),
            1 => Ok(Sense::ComingFrom),
            _ => Err(Reason::OtherSense),
        }
    }
}

// How many bytes say the sense: one in version 2, none in version 1.
pub fn sense_size(version: u8) -> usize
    ensures { result ≡ size_of_sense version }
{
    if version == 2 {
        return 1;
    }
    0
}

impl Version {
    // Its byte.
    pub fn byte(self) -> u8
        ensures { result ≡ version_byte self }
    {
        self as u8
    }

    // How many bytes say the sense.
    pub fn sense_size(self) -> usize
        ensures { result ≡ size_of_sense (version_byte self) }
    {
        sense_size(self.byte())
    }
}

impl Sense {
    // Its byte.
    pub fn byte(self) -> u8
        ensures { result ≡ sense_byte self }
    {
        self as u8
    }
}
