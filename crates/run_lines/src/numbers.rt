// Small numbers.
ghost use Rattle.std.specs.Prelude.{◌≡◌, ◌%◌};

// The low byte of a number.
pub fn low(x: u16) -> u8
    ensures { result ≡ x % 256 }
{
    (x % 256) as u8
}
