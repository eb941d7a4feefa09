// Runs the lowest layers over their whole tables and prints what they answer: prefix bytes, sizes, and each word written and read back.

#![tactic(auto)]

use bits::Refusal;
use ground::replies::Reply;
use prefix::{Length, Mode, Prefix};
use run_lines::show;
use words::Word;

fn row(a: u64, b: u64, c: u64, d: u64) {
    show::number(a);
    show::number(b);
    show::number(c);
    show::number(d);
    show::line_end();
}

// A prefix byte: its reply, field L, body bytes and next place.
fn prefix_row(b: u8) {
    let s = [b];
    show::text(b"prefix");
    show::number(u64::from(b));
    match prefix::read_prefix(&s) {
        Prefix::Data(l) => row(0, u64::from(l.0), u64::from(l.bytes()), 1),
        Prefix::NoData => row(14, 0, 0, 1),
        Prefix::NoByte => row(1, 0, 0, 0),
        Prefix::Marked => row(2, 0, 0, 0),
        Prefix::Reserved => row(3, 0, 0, 0),
    }
}

// A number as a mode: its body bytes, reply and prefix byte; and as a field L: its body bytes.
fn size_row(n: u8) {
    show::text(b"size");
    show::number(u64::from(n));
    let bytes = u64::from(Mode(n).bytes());
    let other = u64::from(Length(n).bytes());
    match prefix::write_prefix(Mode(n)) {
        Ok(b) => row(bytes, 0, u64::from(b), other),
        Err(reply) => row(bytes, u64::from(u8::from(reply)), 0, other),
    }
}

// The word of a kind for a number, written at bit 13 over ones: its length, the three bytes from the second on, and what is read back
// with as many bits before the end as it has, and with one bit fewer.
fn word_row(kind: u8, v: u16) {
    let mut s = [255u8; 4];
    let n = words::write_word(&mut s, 13, kind, v);
    show::text(b"word");
    show::number(u64::from(kind));
    show::number(u64::from(v));
    row(n as u64, u64::from(s[1]), u64::from(s[2]), u64::from(s[3]));
    if 16 < n {
        return;
    }
    answer_row(words::read_word(&s, 13, 13 + n, kind));
    if 0 < n {
        answer_row(words::read_word(&s, 13, 12 + n, kind));
    }
}

fn answer_row(answer: Result<Word, Refusal>) {
    show::text(b"read");
    match answer {
        Ok(word) => row(0, u64::from(word.number), word.next as u64, 0),
        Err(refusal) => row(u64::from(u8::from(Reply::from(refusal))), 0, 0, 0),
    }
}

// The word that the 5-bit column lacks, with all its bits before the end and with one fewer.
fn lacking_rows() {
    let s = [253u8, 255];
    answer_row(words::read_word(&s, 0, 7, 19));
    answer_row(words::read_word(&s, 0, 6, 19));
}

fn word_rows(kind: u8, end: u16) {
    for v in 0..end {
        word_row(kind, v);
    }
}

fn prefix_rows() {
    for b in 0..=u8::MAX {
        prefix_row(b);
    }
}

fn size_rows(end: u8) {
    for n in 0..end {
        size_row(n);
    }
}

fn main() {
    prefix_rows();
    size_rows(34);
    word_rows(16, 5);
    word_rows(17, 9);
    word_rows(18, 17);
    word_rows(19, 33);
    word_rows(20, 33);
    word_rows(5, 3);
    word_rows(9, 3);
    word_rows(0, 2);
    lacking_rows();
}
