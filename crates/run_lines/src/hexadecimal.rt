// Numbers in hexadecimal digits, as a text has them. A byte that is no digit counts as 0.
ghost use Rattle.std.specs.Prelude.{◌+◌, ◌<◌, ◌≤◌, length};

fn digit(b: u8) -> u8
    ensures { result < 16 }
{
    match b {
        b'0'..=b'9' => b - b'0',
        b'a'..=b'f' => b - b'a' + 10,
        _ => 0,
    }
}

// The two digits at a place.
pub fn byte(s: &[u8], at: usize) -> u8
    requires { at + 2 ≤ length s.now }
{
    digit(s[at]) * 16 + digit(s[at + 1])
}

// The four digits at a place.
pub fn word(s: &[u8], at: usize) -> u16
    requires { at + 4 ≤ length s.now }
{
    u16::from_be_bytes([byte(s, at), byte(s, at + 2)])
}
