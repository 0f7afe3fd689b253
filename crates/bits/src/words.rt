// Single words.
ghost use Rattle.std.specs.Prelude.{◌≡◌, ℕ, ◌<◌, ◌≤◌, ◌-◌};
ghost use Rattle.integers.specs.Numbers.{sum};
ghost use Rattle.bits.specs.Sets.{bit};
ghost use Rattle.bits.specs.Words.{Lowest};

// The bits of a word that another does not have.
pub fn less(word: u64, other: u64) -> u64
    ensures { (k : ℕ) → bit result k ≡ bit word k - bit other k }
{
    word & !other
}

// How many of a word's bits are 1.
pub fn ones(word: u64) -> usize
    ensures { (result ≡ sum 64 (bit word)) × (result ≤ 64) }
{
    u64::count_ones(word) as usize
}

// The place of a word's lowest 1.
pub fn trailing(word: u64) -> usize
    requires { 0 < word }
    ensures { Lowest word result }
{
    u64::trailing_zeros(word) as usize
}
