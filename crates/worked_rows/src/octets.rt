//! Values that are made of a case's texts. Where memory is short, the test ends.

use aftr_base::{List, Word};
use std::process::Abort;

/// The bytes that the hexadecimal digits of these parts say, where `61x1480` stands for 1,480 bytes 61. What else stands in
/// a part only parts the digits.
pub fn octets<R: Abort + AllocGlobal>(rt: &R, parts: &[&str]) -> Vec<u8> {
    let mut digits = Vec::new(rt.alloc());
    for part in parts {
        for word in part.split_whitespace() {
            add_word(rt, &mut digits, word);
        }
    }
    hex::decode(rt.alloc(), digits).expect(rt, "whole octets")
}

fn add_word<R: Abort + AllocGlobal>(rt: &R, digits: &mut Vec<u8>, word: &str) {
    match word.split_once('x') {
        Some((octet, count)) => {
            for _ in 0..count.parse::<u32>().expect(rt, "a number of octets") {
                add_digits(rt, digits, octet);
            }
        }
        None => add_digits(rt, digits, word),
    }
}

fn add_digits<R: Abort + AllocGlobal>(rt: &R, digits: &mut Vec<u8>, part: &str) {
    for byte in part.as_bytes() {
        if byte.is_ascii_hexdigit() {
            digits.push(*byte).expect(rt, "memory for a digit");
        }
    }
}

/// The words of the command line that these texts are.
pub fn words_of<R: Abort + AllocGlobal>(rt: &R, texts: &[&str]) -> Vec<Word> {
    let mut words = Vec::new(rt.alloc());
    for text in texts {
        words
            .push(word_of(rt, text))
            .expect(rt, "memory for a word");
    }
    words
}

fn word_of<R: Abort + AllocGlobal>(rt: &R, text: &str) -> Word {
    Word::from_string(String::from_str(rt.alloc(), text).expect(rt, "memory for a text"))
}

/// A copy of these items.
pub fn list_of<R: Abort + AllocGlobal, T: Copy>(rt: &R, items: &[T]) -> List<T> {
    List::from_vec(items.to_vec(rt.alloc()).expect(rt, "memory for a list"))
}
