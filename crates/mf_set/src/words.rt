// Sets of numbers in words of 64 bits: the number n has the bit n % 64 of the word n / 64.
ghost use Rattle.std.specs.Prelude.{◌≡◌, ℕ, ◌+◌, ◌-◌, ◌*◌, ◌/◌, ◌%◌, ◌^◌, ◌<◌, ◌≤◌, ◌&&◌, ◌||◌, ◌==◌, ◌↔◌, not, true, false, [], ◌++◌, length, reverse, slice_index, count_ones, nat_le, IsTrue, OnOk};
ghost use Rattle.std.specs.List.{flat_map, fold, sum_by};
ghost use Rattle.std.specs.Ordering.{nat_cmp};
ghost use Rattle.std.specs.Cmp.Lexicographic.{slice_cmp};
ghost use Rattle.std.specs.Hash as fed;
ghost use Rattle.mf_set.specs.Numbers.{words_of, pairs_of};
ghost use Rattle.mf_set.specs.Words.{bit_of, has_bit, numbers_of, numbers_at, IsLeastOrNone};

use std::alloc::AllocError;
use std::cmp::Ordering;
use std::hash::Hasher;

// The bits of a word.
pub const WORD_BITS: usize = 64;

pub fn insert(words: &mut [u64], number: usize)
    requires { number / 64 < length words.old }
    ensures { (n : ℕ) → has_bit words.new n ≡ (number == n || has_bit words.old n) }
{
    words[number / WORD_BITS] |= 1 << (number % WORD_BITS);
}

pub fn remove(words: &mut [u64], number: usize)
    requires { number / 64 < length words.old }
    ensures { (n : ℕ) → has_bit words.new n ≡ (has_bit words.old n && not (n == number)) }
{
    words[number / WORD_BITS] &= !(1 << (number % WORD_BITS));
}

// The word at an index, or 0 past the end.
fn word_at(words: &[u64], index: usize) -> u64
    ensures { result ≡ slice_index words.now index }
{
    words.get(index).copied().unwrap_or(0)
}

pub fn contains(words: &[u64], number: usize) -> bool
    ensures { result ≡ has_bit words.now number }
{
    word_at(words, number / WORD_BITS) >> (number % WORD_BITS) & 1 == 1
}

pub fn is_empty(words: &[u64]) -> bool
    ensures { IsTrue result ↔ (numbers_of words.now ≡ []) }
{
    for word in words {
        if *word != 0 {
            return false;
        }
    }
    true
}

// Whether a bit changed.
pub fn union_with(words: &mut [u64], other: &[u64]) -> bool
    requires { length words.old ≡ length other.now }
    ensures bits { (n : ℕ) → has_bit words.new n ≡ (has_bit words.old n || has_bit other.now n) }
    ensures changed { (result ≡ false) ↔ (numbers_of words.new ≡ numbers_of words.old) }
{
    let mut changed = false;
    for (i, word) in words.iter_mut().enumerate() {
        let joined = *word | other[i];
        changed |= joined != *word;
        *word = joined;
    }
    changed
}

// Whether a bit changed.
pub fn meet_with(words: &mut [u64], other: &[u64]) -> bool
    requires { length words.old ≡ length other.now }
    ensures bits { (n : ℕ) → has_bit words.new n ≡ (has_bit words.old n && has_bit other.now n) }
    ensures changed { (result ≡ false) ↔ (numbers_of words.new ≡ numbers_of words.old) }
{
    let mut changed = false;
    for (i, word) in words.iter_mut().enumerate() {
        let common = *word & other[i];
        changed |= common != *word;
        *word = common;
    }
    changed
}

pub fn is_subset(words: &[u64], other: &[u64]) -> bool
    ensures { IsTrue result ↔ ((n : ℕ) → has_bit words.now n ≡ true → has_bit other.now n ≡ true) }
{
    for (i, word) in words.iter().enumerate() {
        if *word & !word_at(other, i) != 0 {
            return false;
        }
    }
    true
}

pub fn first_common(words: &[u64], other: &[u64]) -> Option<usize>
    requires { 64 * length words.now ≤ 2 ^ 64 }
    ensures { IsLeastOrNone (λ n. has_bit words.now n && has_bit other.now n) result }
{
    for (i, word) in words.iter().enumerate() {
        let both = *word & word_at(other, i);
        if both != 0 {
            return Some(WORD_BITS * i + both.trailing_zeros() as usize);
        }
    }
    None
}

// The word at an index without the bits of the numbers below `from`.
fn word_from(words: &[u64], index: usize, from: usize) -> u64
    requires { from / 64 ≤ index }
    ensures { (j : ℕ) → j < 64 →
        bit_of result j ≡ (nat_le from (64 * index + j) && bit_of (slice_index words.now index) j) }
{
    let word = word_at(words, index);
    if index == from / WORD_BITS {
        word & u64::MAX << (from % WORD_BITS)
    } else {
        word
    }
}

pub fn next_from(words: &[u64], from: usize) -> Option<usize>
    requires { 64 * length words.now ≤ 2 ^ 64 }
    ensures { IsLeastOrNone (λ n. nat_le from n && has_bit words.now n) result }
{
    for i in from / WORD_BITS..words.len() {
        let word = word_from(words, i, from);
        if word != 0 {
            return Some(WORD_BITS * i + word.trailing_zeros() as usize);
        }
    }
    None
}

// The set bits of all words.
fn count_bits(words: &[u64]) -> usize
    requires { sum_by count_ones words.now < 2 ^ 64 }
    ensures { result ≡ sum_by count_ones words.now }
{
    words.iter().map(|word| word.count_ones() as usize).sum()
}

pub fn count(words: &[u64]) -> usize
    requires { length (numbers_of words.now) < 2 ^ 64 }
    ensures { result ≡ length (numbers_of words.now) }
{
    count_bits(words)
}

pub fn is_equal(words: &[u64], other: &[u64]) -> bool
    requires { length words.now ≡ length other.now }
    ensures { IsTrue result ↔ (numbers_of words.now ≡ numbers_of other.now) }
{
    for (i, word) in words.iter().enumerate() {
        if *word != other[i] {
            return false;
        }
    }
    true
}

// Compares by the greatest number that is in one of the sets and not in the other.
pub fn compare(words: &[u64], other: &[u64]) -> Ordering
    requires { length words.now ≡ length other.now }
    ensures { result ≡ slice_cmp nat_cmp (reverse (numbers_of words.now)) (reverse (numbers_of other.now)) }
{
    for i in (0..words.len()).rev() {
        match words[i].cmp(&other[i]) {
            Ordering::Equal => {}
            unequal => return unequal,
        }
    }
    Ordering::Equal
}

// Appends the numbers of the word at an index.
fn push_numbers(numbers: &mut Vec<usize>, index: usize, word: u64) -> Result<(), AllocError>
    requires { 64 * index + 64 ≤ 2 ^ 64 }
    ensures { OnOk result (numbers.new.items ≡ numbers.old.items ++ numbers_at index word) }
{
    let mut rest = word;
    while rest != 0 {
        let bit = rest.trailing_zeros() as usize;
        numbers.push(WORD_BITS * index + bit)?;
        rest &= !(1 << bit);
    }
    Ok(())
}

// Appends the numbers of all words.
pub fn push_all(numbers: &mut Vec<usize>, words: &[u64]) -> Result<(), AllocError>
    requires empty { numbers.old.items ≡ [] }
    requires fits { 64 * length words.now ≤ 2 ^ 64 }
    ensures { OnOk result (numbers.new.items ≡ numbers_of words.now) }
{
    for (i, word) in words.iter().enumerate() {
        push_numbers(numbers, i, *word)?;
    }
    Ok(())
}

// Feeds a hasher the words, two by two.
pub fn hash<H: Hasher>(words: &[u64], state: &mut H)
    ensures { let fed_words = words_of (length words.now) (numbers_of words.now) in
        state.new ≡ fold H.write state.old (flat_map fed.u128 (pairs_of fed_words)) }
{
    let mut rest = words;
    while let [low, high, others @ ..] = rest {
        state.write_u128(*low as u128 + ((*high as u128) << 64));
        rest = others;
    }
    if let [last] = rest {
        state.write_u128(*last as u128);
    }
}
