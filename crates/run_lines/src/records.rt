// Records in a line.
use crate::lists::Line;
use crate::numbers::low;
use frame::Record;

// The record of seven numbers (mode, IsTransient, FlagL, FlagN, FlagC, noise, tail's bit count) and of norms.
fn record_of(head: [u16; 7], norms: [u8; 44]) -> Record {
    let [mode, transient, flag_l, flag_n, flag_c, noise, tail_bits] = head;
    Record {
        mode: low(mode),
        transient: transient == 1,
        flag_l: flag_l == 1,
        flag_n: flag_n == 1,
        flag_c: flag_c == 1,
        norms,
        noise: low(noise),
        tail_bits,
    }
}

impl Line<'_> {
    // The record whose numbers and norms are the next two lists.
    pub fn record(&mut self) -> Record {
        let mut head = [0u16; 7];
        let mut norms = [0u8; 44];
        self.fill_numbers(&mut head);
        self.fill_bytes(&mut norms);
        record_of(head, norms)
    }
}
