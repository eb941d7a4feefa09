// What the run programs share: numbers and bytes shown, lines and lists taken apart, checksums.

#![tactic(auto)]

pub mod checksums;
pub mod hexadecimal;
pub mod lists;
pub mod numbers;
pub mod records;
pub mod show;
