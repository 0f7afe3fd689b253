// Sets of numbers below 256, one bit a number in four 64-bit words.
#![tactic(auto)]

ghost use Rattle.std.specs.Prelude.{◌≡◌, ◌&&◌, ◌||◌, not, ℕ, ◌/◌, eqb, ltb};
ghost use Rattle.integers.specs.Numbers.{count};
ghost use Rattle.meaning.specs.First.{IsFirst};
ghost use Rattle.bits.specs.Sets.{has, in_word, SetOf};

mod words;

use std::array;

// Whether n is one of the numbers of word w: the word shifted, all but the last bit masked off.
pub fn in_word(w: usize, word: u64, n: usize) -> bool
    ensures { result ≡ in_word w word n }
{
    n / 64 == w && (word >> (n % 64)) & 1 == 1
}

// Whether n is in the set.
pub fn has(set: [u64; 4], n: usize) -> bool
    ensures { result ≡ has set n }
{
    n < 256 && in_word(n / 64, set[n / 64], n)
}

// The set with the numbers of word w; past the last word there is no place for them.
pub fn with_word(set: [u64; 4], w: usize, word: u64) -> [u64; 4]
    ensures { SetOf result (λ m. has set m || (ltb w 4 && in_word w word m)) }
{
    let mut more = set;
    if w < 4 {
        more[w] |= word;
    }
    more
}

// The set with n, a 1 shifted to its place; a number past the last bit has no place.
pub fn with(set: [u64; 4], n: usize) -> [u64; 4]
    ensures { SetOf result (λ m. has set m || (eqb m n && ltb m 256)) }
{
    with_word(set, n / 64, 1 << (n % 64))
}

// What is in the first set and not in the second.
pub fn without(a: [u64; 4], b: [u64; 4]) -> [u64; 4]
    ensures { SetOf result (λ m. has a m && not (has b m)) }
{
    array::from_fn(|w| words::less(a[w], b[w]))
}

// The numbers of word w that are in the first set and not in the second; past the last word there are none.
pub fn word_without(a: [u64; 4], b: [u64; 4], w: usize) -> u64
    ensures { (m : ℕ) → in_word w result m ≡ (eqb (m / 64) w && (has a m && not (has b m))) }
{
    if w < 4 {
        return words::less(a[w], b[w]);
    }
    0
}

// How many numbers are in the set: the ones of its words.
pub fn size(set: [u64; 4]) -> usize
    ensures { result ≡ count (has set) 256 }
{
    words::ones(set[0]) + words::ones(set[1]) + words::ones(set[2]) + words::ones(set[3])
}

// The lowest number in the set, by the trailing zeros of the first word that has a one; 256 where there is none.
pub fn lowest(set: [u64; 4]) -> usize
    ensures { IsFirst (has set) 256 result }
{
    for (i, word) in set.iter().enumerate() {
        if *word != 0 {
            return 64 * i + words::trailing(*word);
        }
    }
    256
}

// The lowest number below n that is not in the set; n where there is none.
pub fn first_missing(set: [u64; 4], n: usize) -> usize
    ensures { IsFirst (λ m. not (has set m)) n result }
{
    lowest(without([u64::MAX; 4], set)).min(n)
}
