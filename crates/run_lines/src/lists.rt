// Lists of numbers in a line. A list ends at a comma or at the line's end. An item of it is a space, a number and, where the number fills many places, an
// asterisk and how many. Behind the line's end lists are empty.
ghost use Rattle.std.specs.Prelude.{◌≤◌, length};

use crate::numbers::low;

// What is left of a line.
#[derive(Clone, Copy)]
pub struct Line<'a> {
    pub rest: &'a [u8],
}

// Puts a value into so many places from n on, as far as there are.
fn put<T: Copy>(out: &mut [T], n: usize, value: T, count: usize) -> usize
    requires { n ≤ length out.old }
    ensures { result ≤ length out.old }
{
    let end = out.len().min(n.saturating_add(count));
    for place in &mut out[n..end] {
        *place = value;
    }
    end
}

impl Line<'_> {
    // The number that comes, up to the first byte that is below the digits.
    fn number(&mut self) -> u16
        ensures { length self.new.rest.now ≤ length self.old.rest.now }
    {
        let line = self.rest;
        let end = line.iter().position(|b| *b < b'0').unwrap_or(line.len());
        let (digits, rest) = line.split_at(end);
        self.rest = rest;
        digits.iter().fold(0, |value: u16, digit| {
            value
                .wrapping_mul(10)
                .wrapping_add(u16::from(digit.wrapping_sub(b'0')))
        })
    }

    // The item that comes, behind its space: a value, and how many places it fills.
    fn item(&mut self) -> (u16, usize)
        ensures { length self.new.rest.now ≤ length self.old.rest.now }
    {
        let value = self.number();
        let Some((b'*', rest)) = self.rest.split_first() else {
            return (value, 1);
        };
        self.rest = rest;
        (value, usize::from(self.number()))
    }

    // Fills places with what the numbers of the list make, as far as there are places; answers how many it has filled.
    fn fill<T: Copy, F: Fn(u16) -> T>(&mut self, out: &mut [T], made: F) -> usize
        requires { F.IsAlwaysCallable made }
        ensures { result ≤ length out.old }
    {
        let mut n: usize = 0;
        while let Some((first, rest)) = self.rest.split_first() {
            self.rest = rest;
            if matches!(*first, b',' | b'\n') {
                break;
            }
            let (value, count) = self.item();
            n = put(out, n, made(value), count);
        }
        n
    }

    // Fills numbers from the list, as far as there are places.
    pub fn fill_numbers(&mut self, out: &mut [u16]) -> usize
        ensures { result ≤ length out.old }
    {
        self.fill(out, |number| number)
    }

    // Fills bytes from the list: the low bytes of its numbers, as far as there are places.
    pub fn fill_bytes(&mut self, out: &mut [u8]) -> usize
        ensures { result ≤ length out.old }
    {
        self.fill(out, low)
    }
}
