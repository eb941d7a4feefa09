// The prefix byte of a stored frame (A.4.1): F, L, R. A mode (Table 22) and a field L (Table A.2) name the same sizes, and neither
// stands for the other.

#![tactic(auto)]

ghost use Rattle.std.specs.Prelude.{◌≡◌};
ghost use Rattle.prefix.specs.Sizes.{mode_bytes, length_bytes, length_of, mode_of};
ghost use Rattle.prefix.specs.Prefix.{prefix_of, byte_of};

use ground::replies::Reply;

// A mode, 0 to 19 in Table 22.
#[derive(Clone, Copy, Debug, PartialEq, Eq)]
pub struct Mode(pub u8);

// The field L, 0 to 31 in Table A.2.
#[derive(Clone, Copy, Debug, PartialEq, Eq)]
pub struct Length(pub u8);

// What a prefix byte says.
#[derive(Clone, Copy, Debug, PartialEq, Eq)]
pub enum Prefix {
    // A body of as many bytes as L says follows.
    Data(Length),
    // L is 0: no body follows.
    NoData,
    NoByte,
    Marked,
    Reserved,
}

impl Mode {
    // Body bytes by Table 22; 0 for a number that is no mode.
    #[tactic(auto, using(crate::proofs::Laws::Sizes::by_mode))]
    pub fn bytes(self) -> u16
        ensures { result ≡ mode_bytes self.0 }
    {
        let m = u16::from(self.0);
        match m {
            0..=14 => 10 * m + 80,
            15..=19 => 20 * m - 60,
            _ => 0,
        }
    }

    // The field L that names the same size; none for a number that is no mode.
    #[tactic(auto, using(crate::proofs::Laws::Sizes::by_mode))]
    pub fn field(self) -> Option<Length>
        ensures { result ≡ length_of self.0 }
    {
        match self.0 {
            m @ 0..=19 => Some(Length(m + 8)),
            _ => None,
        }
    }
}

impl Length {
    // Body bytes by Table A.2, those of its mode; 0 for no data and for a reserved L.
    #[tactic(auto, using(crate::proofs::Laws::Sizes::by_length))]
    pub fn bytes(self) -> u16
        ensures { result ≡ length_bytes self.0 }
    {
        match self.mode() {
            Some(mode) => mode.bytes(),
            None => 0,
        }
    }

    // The mode that names the same size; none where L says no data or is reserved.
    #[tactic(auto, using(crate::proofs::Laws::Sizes::by_length))]
    pub fn mode(self) -> Option<Mode>
        ensures { result ≡ mode_of self.0 }
    {
        match self.0 {
            l @ 8..=27 => Some(Mode(l - 8)),
            _ => None,
        }
    }
}

// What the first byte of a slice says as a prefix: F before L, and R ignored.
#[tactic(auto, using(crate::proofs::Laws::Prefix::by_byte))]
pub fn read_prefix(s: &[u8]) -> Prefix
    ensures { result ≡ prefix_of s.now }
{
    let Some(&b) = s.first() else {
        return Prefix::NoByte;
    };
    if 128 <= b {
        return Prefix::Marked;
    }
    match b / 4 {
        0 => Prefix::NoData,
        l @ 8..=27 => Prefix::Data(Length(l)),
        _ => Prefix::Reserved,
    }
}

// The prefix byte of a mode: F and R are 0. A number that is no mode has none.
#[tactic(auto, using(crate::proofs::Laws::Sizes::field_most, crate::proofs::Laws::Prefix::byte_some, crate::proofs::Laws::Prefix::byte_err))]
pub fn write_prefix(mode: Mode) -> Result<u8, Reply>
    ensures { result ≡ byte_of mode.0 }
{
    let Length(l) = mode.field().ok_or(Reply::OutOfRange)?;
    Ok(4 * l)
}
