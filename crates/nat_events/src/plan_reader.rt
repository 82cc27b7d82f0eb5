//! Reading the text of a plan: what it would say is put together from its words, and stands if it has this very text.
ghost use Rattle.std.specs.Prelude.{◌≡◌, ◌<◌, ◌≤◌, length, take, drop, map, not, take_while, IfOk};
ghost use Rattle.nat_events.specs.Reading.{hex_value, is_p, is_plan_of_text, plan_in, plan_of_text, prefix4_in, prefix6_in, value10, value16};
ghost use Rattle.nat_events.specs.Reading.{word_at, words_of, IsPlanAnswer};

use crate::bad::EventBad;
use crate::plan_writer::plan_text;
use aftr_base::{Ip4, Ip6, List, NoMemory, PlanSpec, Prefix4, Prefix6};
use cfg_text::accepts_plan;
use std::alloc::{AllocError, Global};

/// How many bytes the text of a plan has at most.
const MAX_TEXT: usize = 4096;
/// What stands between two words of a text.
const SPACE: u8 = b' ';

/// The plan whose text this is: of 4,096 bytes at most, and with values that a plan may have.
pub(crate) fn read_plan_text(alloc: Global, text: &[u8]) -> Result<PlanSpec, EventBad>
    ensures { IsPlanAnswer result (plan_of_text text.now) }
{
    let spec = plan_in_text(alloc, text)?;
    if is_text_of(alloc, &spec, text)? {
        Ok(spec)
    } else {
        Err(EventBad::NotOurs)
    }
}

// Whether the plan has this text, and values that a plan may have.
fn is_text_of(alloc: Global, spec: &PlanSpec, text: &[u8]) -> Result<bool, NoMemory>
    ensures { IfOk result (λ is. is ≡ is_plan_of_text text.now spec.now) }
{
    if text.len() > MAX_TEXT {
        return Ok(false);
    }
    let mut again = List::new(alloc);
    plan_text(spec, &mut again)?;
    Ok(again.as_slice() == text && accepts_plan(spec))
}

fn plan_in_text(alloc: Global, text: &[u8]) -> Result<PlanSpec, NoMemory>
    ensures { IfOk result (λ spec. spec ≡ plan_in (words_of text.now)) }
{
    let words = words_in(alloc, text)?;
    plan_in_words(alloc, words.as_slice())
}

fn words_in<'a>(alloc: Global, text: &'a [u8]) -> Result<Vec<&'a [u8]>, AllocError>
    ensures { IfOk result (λ words. map (λ w. w.now) words.items ≡ words_of text.now) }
{
    text.split(|b| *b == SPACE).collect(alloc)
}

fn plan_in_words(alloc: Global, words: &[&[u8]]) -> Result<PlanSpec, NoMemory>
    ensures { IfOk result (λ spec. spec ≡ plan_in (map (λ w. w.now) words.now)) }
{
    let prefixes = behind(words, 4);
    let letter = before_letter(prefixes);
    Ok(PlanSpec {
        subscriber_len: (number_in(word_at(words, 0)) % 256) as u8,
        block_size: number_in(word_at(words, 1)),
        ratio: number_in(word_at(words, 2)),
        aggregates: aggregates_in(alloc, &prefixes[..letter])?,
        pool: pool_in(alloc, behind(prefixes, letter + 1))?,
    })
}

// ---- words

fn word_at<'a>(words: &[&'a [u8]], k: usize) -> &'a [u8]
    ensures { result.now ≡ word_at k (map (λ w. w.now) words.now) }
{
    match words.get(k) {
        Some(word) => *word,
        None => &[],
    }
}

fn behind<'a, 'b>(words: &'b [&'a [u8]], count: usize) -> &'b [&'a [u8]]
    ensures { result.now ≡ drop count words.now }
{
    &words[count.min(words.len())..]
}

// How many words stand before the letter p.
fn before_letter(words: &[&[u8]]) -> usize
    ensures value { result ≡ length (take_while (λ w. not (is_p w)) (map (λ w. w.now) words.now)) }
    ensures within { result ≤ length words.now }
{
    for (k, word) in words.iter().enumerate() {
        if is_letter(word) {
            return k;
        }
    }
    words.len()
}

fn is_letter(word: &[u8]) -> bool
    ensures { result ≡ is_p word.now }
{
    word == b"p".as_slice()
}

fn aggregates_in(alloc: Global, words: &[&[u8]]) -> Result<List<Prefix6>, NoMemory>
    ensures { IfOk result (λ list. list ≡ map prefix6_in (map (λ w. w.now) words.now)) }
{
    let mut list = List::new(alloc);
    for word in words {
        list.push(prefix6_in(word))?;
    }
    Ok(list)
}

fn pool_in(alloc: Global, words: &[&[u8]]) -> Result<List<Prefix4>, NoMemory>
    ensures { IfOk result (λ list. list ≡ map prefix4_in (map (λ w. w.now) words.now)) }
{
    let mut list = List::new(alloc);
    for word in words {
        list.push(prefix4_in(word))?;
    }
    Ok(list)
}

// ---- one word

fn prefix6_in(word: &[u8]) -> Prefix6
    ensures { result ≡ prefix6_in word.now }
{
    Prefix6 {
        bits: Ip6(hex_in(front(word, 32))),
        len: (number_in(back(word, 33)) % 256) as u8,
    }
}

fn prefix4_in(word: &[u8]) -> Prefix4
    ensures { result ≡ prefix4_in word.now }
{
    Prefix4 {
        bits: Ip4((hex_in(front(word, 8)) % 0x1_0000_0000) as u32),
        len: (number_in(back(word, 9)) % 256) as u8,
    }
}

fn front(word: &[u8], count: usize) -> &[u8]
    ensures { result.now ≡ take count word.now }
{
    &word[..count.min(word.len())]
}

fn back(word: &[u8], count: usize) -> &[u8]
    ensures { result.now ≡ drop count word.now }
{
    &word[count.min(word.len())..]
}

// The number of decimal digits, in 16 bits.
fn number_in(digits: &[u8]) -> u16
    ensures { result ≡ value10 digits.now }
{
    let mut number = 0u32;
    for digit in digits {
        number = (10 * number + u32::from(digit.saturating_sub(b'0'))) % 65536;
    }
    number as u16
}

// The number of hexadecimal digits, in 128 bits.
fn hex_in(digits: &[u8]) -> u128
    ensures { result ≡ value16 digits.now }
{
    let mut number = 0u128;
    for digit in digits {
        number = 16 * (number % 0x1000_0000_0000_0000_0000_0000_0000_0000)
            + u128::from(hex_value(*digit));
    }
    number
}

fn hex_value(digit: u8) -> u8
    ensures value { result ≡ hex_value digit }
    ensures small { result < 16 }
{
    let value = if digit < b'a' {
        digit.saturating_sub(b'0')
    } else {
        digit - b'a' + 10
    };
    value % 16
}
