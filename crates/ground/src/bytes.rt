// Bytes laid into lent memory.
ghost use Rattle.std.specs.Prelude.{◌+◌, ◌≤◌, length};
ghost use Rattle.ground.specs.Laying.{TextLaid};

// Puts a text at a place; answers the place after it. Byte by byte: copy_from_slice would call memmove, and who links the library for C lends it
// memcpy and memset alone.
pub fn put(out: &mut [u8], at: usize, text: &[u8]) -> usize
    requires { at + length text.now ≤ length out.old }
    ensures { TextLaid out.old at text.now out.new result }
{
    for (i, byte) in text.iter().enumerate() {
        out[at + i] = *byte;
    }
    at + text.len()
}
