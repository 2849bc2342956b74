//! Lines, words and numbers.

use crate::escapes::bytes_of;
use examples_tables::tellers::{Teller, all_told, halves, number_of};
use std::alloc::{AllocError, Global};
use std::test::Fail;
use text_words::arithmetic::incr_or_decr;
use text_words::line;
use text_words::number::{number, signed, u32_number};
use text_words::word::next_word;

// What is read of bytes, from a place on or by a number where that is told, and what it gives.
fn table() -> &'static str {
    r"line: get a\r\nrest => At { end: 5, used: 7 }
line: get a\nrest => At { end: 5, used: 6 }
line: a\r\r\n => At { end: 2, used: 4 }
line: \r\n => At { end: 0, used: 2 }
line: \n\n => At { end: 0, used: 1 }
line: get a\r => More
line:  => More
line: «65535 a» => More
line: «65535 a»\n => At { end: 65535, used: 65536 }
line: «65536 a» => TooLong
line: «65536 a»\n => TooLong
word 0:  get  a  => Some(Span { start: 1, end: 4 })
word 4:  get  a  => Some(Span { start: 6, end: 7 })
word 7:  get  a  => None
word 8:  get  a  => None
number: 0 => Some(0)
number: 007 => Some(7)
number: 00000000000000000007 => Some(7)
number: 000000000000000000007 => None
number: 18446744073709551615 => Some(18446744073709551615)
number: 18446744073709551616 => None
number: 100000000000000000000 => None
number: -1 => None
number: +1 => None
number: 1a => None
number:  => None
u32: 4294967295 => Some(4294967295)
u32: 4294967296 => None
signed: -1 => Some(-1)
signed: -0 => Some(0)
signed: -007 => Some(-7)
signed: 9223372036854775807 => Some(9223372036854775807)
signed: 9223372036854775808 => None
signed: -9223372036854775808 => Some(-9223372036854775808)
signed: -9223372036854775809 => None
signed: - => None
signed: --1 => None
signed:  => None
incr 1: 18446744073709551615 => Some(0)
incr 9: 5 => Some(14)
decr 9: 5 => Some(0)
decr 2: 5   => Some(3)
incr 1:  5 => None
incr 1: 5 x => None
incr 1:     => None
incr 1:  => None"
}

fn word_told(alloc: Global, bytes: &[u8], at: usize) -> Result<String, AllocError> {
    if at > bytes.len() {
        return "behind the end".to_string(alloc);
    }
    format!(in alloc; "{:?}", next_word(bytes, at))
}

fn told_of(alloc: Global, question: &str, by: u32, bytes: &[u8]) -> Result<String, AllocError> {
    match question {
        "line" => format!(in alloc; "{:?}", line(bytes)),
        "word" => word_told(alloc, bytes, by as usize),
        "number" => format!(in alloc; "{:?}", number(bytes)),
        "u32" => format!(in alloc; "{:?}", u32_number(bytes)),
        "signed" => format!(in alloc; "{:?}", signed(bytes)),
        _ => format!(in alloc; "{:?}", incr_or_decr(bytes, question == "incr", by as u64)),
    }
}

struct OfTexts;

impl Teller for OfTexts {
    fn told(alloc: Global, example: &str) -> Result<String, AllocError> {
        let (question, text) = halves(example, ": ");
        let (question, by) = halves(question, " ");
        let bytes = bytes_of(alloc, text)?;
        told_of(alloc, question, number_of(by), bytes.as_slice())
    }
}

#[test]
fn lines_words_and_numbers(rt: HostRuntime) -> Result<(), Fail> {
    all_told::<OfTexts>(rt.alloc(), table())
}
