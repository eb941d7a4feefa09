// What the file check answers; a module of its own, since `check` and `Check` differ only in case.

// The number, the sound units in front of the stop (frames, or blocks of several channels), and its place from the start of the file.
// C reads this struct: g719_check_file and g719_check_blocks hand it on.
#[repr(C)]
#[derive(Clone, Copy)]
pub struct Check {
    pub reply: u8,
    pub count: u32,
    pub place: usize,
}
