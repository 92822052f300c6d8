// Fletcher-32.
//
// The words are read low byte first, as the machine reads them, and the bytes of the two sums are put in order once, at the end. A part's
// totals are exact, so nothing divides within it. Eight lanes of 32 bits each sum every eighth word, so that the machine adds several
// words at a time.
#![tactic(auto)]

ghost use Rattle.std.specs.Prelude.{◌≡◌, ◌+◌, ◌*◌, ◌%◌, ◌^◌, ◌≤◌, ◌<◌, length};
ghost use Rattle.rules.specs.Bytes.{part};
ghost use Rattle.rules.specs.Checksum.{folded, checksum};
ghost use Rattle.std.specs.Simd.Lanes.{sum_l, Each1};
ghost use Rattle.checksum.specs.declared.TheConstants.{PART};
ghost use Rattle.checksum.specs.Passing.{low_words, weighted, After};

use std::simd::prelude::*;

// The bytes of a part: so few that each lane's totals stay within 32 bits, and an even number, so that no word lies in two parts.
const PART: usize = 4096;

// 0 of 0, and of any other total the number from 1 to 65,535 that leaves the same remainder.
fn fold(total: u64) -> u64
    ensures { (result ≡ folded total) × (result < 65536) }
{
    if total == 0 {
        return 0;
    }
    (total - 1) % 65535 + 1
}

// The second sum in the high sixteen bits, the first in the low.
fn join(first: u64, second: u64) -> u64
    requires { (first < 65536) × (second < 65536) }
    ensures { result ≡ second * 65536 + first }
{
    (second << 16) | first
}

// A sum of sixteen bits with its two bytes in the other order: 65,536 leaves the remainder 1.
fn swap(sum: u64) -> u64
    requires { sum < 65536 }
    ensures { (result ≡ folded (256 * sum)) × (result < 65536) }
{
    sum % 256 * 256 + sum / 256
}

// The two totals of words that were passed.
#[derive(Clone, Copy)]
struct Totals {
    first: u64,
    second: u64,
}

impl Totals {
    // Those of no word.
    const NONE: Totals = Totals {
        first: 0,
        second: 0,
    };

    // With a word more.
    fn with_word(self, word: u16) -> Totals
        requires { self.first + self.second + word < 2 ^ 63 }
        ensures { (result.first ≡ self.first + word) × (result.second ≡ self.second + (self.first + word)) }
    {
        let first = self.first + u64::from(word);
        Totals {
            first,
            second: self.second + first,
        }
    }

    // With the totals of so many words more, which were passed from nothing on: the first total counts once more for each of them.
    fn then(self, more: Totals, words: usize) -> Totals
        requires { (words ≤ 2048) × (self.first < 2 ^ 32) × (self.second < 2 ^ 48) × (more.first < 2 ^ 39) × (more.second < 2 ^ 48) }
        ensures sums { (result.first ≡ self.first + more.first) × (result.second ≡ self.second + words * self.first + more.second) }
        ensures small { (result.first < 2 ^ 40) × (result.second < 2 ^ 50) }
    {
        Totals {
            first: self.first + more.first,
            second: self.second + words as u64 * self.first + more.second,
        }
    }

    // With a few bytes more, word by word; an odd last byte is a low half.
    fn with_few(self, bytes: &[u8]) -> Totals
        requires { (length bytes.now < 64) × (self.first < 2 ^ 40) × (self.second < 2 ^ 50) }
        ensures after { After bytes.now self.first self.second result.first result.second }
        ensures small { (result.first ≤ self.first + 2 ^ 21) × (result.second ≤ self.second + 2 ^ 46) }
    {
        let mut totals = self;
        let (words, odd) = bytes.as_chunks::<2>();
        for word in words {
            totals = totals.with_word(u16::from_le_bytes(*word));
        }
        if let [last] = odd {
            totals = totals.with_word(u16::from(*last));
        }
        totals
    }

    // With a part more. For a few bytes, as those of an entry or of the header, the lanes cost more than they spare: they read a row at once,
    // which has to wait where its bytes were just stored number by number.
    fn with_part(self, bytes: &[u8]) -> Totals
        requires { (length bytes.now ≤ PART) × (self.first < 65536) × (self.second < 65536) }
        ensures { After bytes.now self.first self.second result.first result.second }
    {
        if bytes.len() < 64 {
            return self.with_few(bytes);
        }
        let (whole, rest) = bytes.split_at(bytes.len() / 16 * 16);
        self.then(rows(whole), whole.len() / 2).with_few(rest)
    }

    // The sums, which keep the totals' remainders, and keep zero zero.
    fn folded(self) -> Totals
        ensures { (result.first ≡ folded self.first) × (result.second ≡ folded self.second) × (result.first < 65536) × (result.second < 65536) }
    {
        Totals {
            first: fold(self.first),
            second: fold(self.second),
        }
    }

    // The checksum of two sums of words that were read low byte first.
    fn checksum(self) -> u64
        requires { (self.first < 65536) × (self.second < 65536) }
        ensures { result ≡ folded (256 * self.second) * 65536 + folded (256 * self.first) }
    {
        join(swap(self.first), swap(self.second))
    }
}

// The words of a row.
fn words(row: u8x16) -> u32x8
    ensures { (result ≡ low_words row) × (length result ≡ 8) × Each1 (λ w. w < 65536) result }
{
    u16x8::from_le_bytes(row).cast::<u32>()
}

// The totals of the words of eight lanes. The second sum counts a word once for itself and once for each word after it. A lane counts its
// word once for each row from the word's own on, where lane 0's word is to count eight times as often, and that of each next lane once
// less: hence the eight times, and what is taken off.
fn gather(firsts: u32x8, seconds: u32x8) -> Totals
    requires { weighted firsts ≤ 8 * sum_l seconds }
    ensures { (result.first ≡ sum_l firsts) × (result.second + weighted firsts ≡ 8 * sum_l seconds) }
{
    let firsts = firsts.cast::<u64>();
    let all = seconds.cast::<u64>().strict_reduce_sum();
    let less = firsts
        .strict_mul(u64x8::from_array([0, 1, 2, 3, 4, 5, 6, 7]))
        .strict_reduce_sum();
    Totals {
        first: firsts.strict_reduce_sum(),
        second: 8 * all - less,
    }
}

// The totals of whole rows of eight words, at most 256 of them, so that each lane's totals stay within 32 bits.
fn rows(bytes: &[u8]) -> Totals
    requires { (length bytes.now ≤ PART) × (length bytes.now % 16 ≡ 0) }
    ensures after { After bytes.now 0 0 result.first result.second }
    ensures small { (result.first < 2 ^ 39) × (result.second < 2 ^ 39) }
{
    let mut firsts = u32x8::splat(0);
    let mut seconds = u32x8::splat(0);
    let (rows, _) = bytes.as_chunks::<16>();
    for row in rows {
        firsts = firsts.strict_add(words(u8x16::from_array(*row)));
        seconds = seconds.strict_add(firsts);
    }
    gather(firsts, seconds)
}

// The checksum of the sixteen bytes at an address. Locations and entries have one each, so it goes straight through their eight words, in
// two halves side by side: in one run each word's sum waits for the one before it, which takes 11.7 ns where the halves take 10.7.
pub fn fletcher32_sixteen(bytes: &[u8], at: usize) -> u64
    requires { at + 16 ≤ length bytes.now }
    ensures { (result ≡ checksum (part bytes.now at 16)) × (result < 2 ^ 32) }
{
    let middle = at + 8;
    let end = at + 16;
    let left = Totals::NONE.with_few(&bytes[at..middle]);
    let right = Totals::NONE.with_few(&bytes[middle..end]);
    left.then(right, 4).folded().checksum()
}

// The checksum of at most 16,777,216 bytes, for callers that know of no more.
pub fn fletcher32(bytes: &[u8]) -> u64
    requires { length bytes.now ≤ 16777216 }
    ensures { (result ≡ checksum bytes.now) × (result < 2 ^ 32) }
{
    fletcher32_any(bytes)
}

// The checksum of any number of bytes. It goes part by part: between two parts the totals are folded, which keeps their remainders and keeps
// zero zero. Sixteen bytes, as locations and entries have, go straight through.
pub fn fletcher32_any(bytes: &[u8]) -> u64
    ensures { (result ≡ checksum bytes.now) × (result < 2 ^ 32) }
{
    if bytes.len() == 16 {
        return fletcher32_sixteen(bytes, 0);
    }
    let mut sums = Totals::NONE;
    let (parts, rest) = bytes.as_chunks::<PART>();
    for part in parts {
        sums = sums.with_part(part).folded();
    }
    sums.with_part(rest).folded().checksum()
}
