// The tail of a frame (01, Stored frame): its bits lent as bytes, laid behind the noise, and the padding that must be 0.

#![tactic(auto)]

ghost use Rattle.std.specs.Prelude.{◌≡◌, ◌++◌, ◌+◌, ◌-◌, ◌*◌, ◌≤◌, ◌<◌, length, drop};
ghost use Rattle.bits.specs.Bits.{view, val, laid};
ghost use Rattle.tails.specs.Tails.{tail_from, clear};

// Eight bits at a place, 0 past the end.
fn tail_byte(s: &[u8], p: usize) -> u8
    ensures { result ≡ val (view s.now p 8) }
{
    if s.len() <= p / 8 {
        return 0;
    }
    bits::read_bits(s, p, 8) as u8
}

// Fills the tail: 320 bytes from a bit place on.
pub fn fill_tail(s: &[u8], at: usize, tail: &mut [u8])
    requires { (320 ≤ length tail.old) × (at < 65536) }
    ensures { tail.new ≡ tail_from s.now at ++ drop 320 tail.old }
{
    for (i, byte) in tail[..320].iter_mut().enumerate() {
        *byte = tail_byte(s, at + i * 8);
    }
}

// Whether the bits from a place up to an end are all 0.
pub fn all_clear(s: &[u8], at: usize, end: usize) -> bool
    requires { end < 65536 }
    ensures { result ≡ clear (view s.now at (end - at)) }
{
    for p in (at..end).step_by(16) {
        if bits::read_bits(s, p, end - p) != 0 {
            return false;
        }
    }
    true
}

// Lays the first n bits of one slice over another's from a place on.
pub fn copy_bits(s: &[u8], n: usize, out: &mut [u8], at: usize)
    requires { at + n < 4294967296 }
    ensures { out.new ≡ laid out.old at (view s.now 0 n) }
{
    for j in (0..n).step_by(16) {
        bits::write_bits(out, at + j, n - j, bits::read_bits(s, j, n - j));
    }
}
