//! The text of the configuration language: lines, blocks, words with their columns, numbers, addresses and masks, the
//! readers of a line, and printing.
#![tactic(auto)]

mod blanks;
mod blocks;
mod builder;
mod items;
mod lines;
mod numbers;
mod printed;
mod readers;
mod runs;
mod shared;
mod words;

pub use blanks::trimmed;
pub use blocks::{Block, BlockFault, BlockLines, StartupText, cut_blocks, cut_startup};
pub use items::Items;
pub use lines::{Line, LineView, Lines, Text};
pub use numbers::{Addr, WordFault, is_digit, mask_bits, parse_addr, parse_mask, parse_number};
pub use printed::{push_address, push_address_port, push_bytes, push_number};
pub use readers::{LineFault, address, end_of_line, keyword, mask, number};
pub use runs::cut_run;
pub use shared::Shared;
pub use words::{Word, Words};

#[cfg(test)]
mod tests;
