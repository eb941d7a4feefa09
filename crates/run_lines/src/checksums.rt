// Checksums of bytes and of numbers, in their order.
ghost use Rattle.std.specs.Prelude.{◌≡◌, ◌+◌, ◌*◌, ◌%◌};

// A checksum with one number more.
pub fn mixed(c: u64, x: u16) -> u64
    ensures { result ≡ (c % 65521 * 31 + x) % 65521 }
{
    (c % 65521 * 31 + u64::from(x)) % 65521
}

// Of bytes, and below of numbers: one function over both would be no plainer than these two chains of a line.
pub fn of_bytes(xs: &[u8]) -> u64 {
    xs.iter().fold(0, |c, x| mixed(c, u16::from(*x)))
}

pub fn of_numbers(xs: &[u16]) -> u64 {
    xs.iter().fold(0, |c, x| mixed(c, *x))
}
