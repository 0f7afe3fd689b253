// What one visit follows: the circuits that have an end among the nodes visited.
ghost use Rattle.std.specs.Prelude.{◌≡◌, ◌&&◌, ◌||◌, [], ◌≤◌, eqb, ltb};
ghost use Rattle.meaning.specs.Columns.{network_in};
ghost use Rattle.bits.specs.Sets.{has, SetOf};
ghost use Rattle.walk.specs.Walk.{ends_in, waits_in, NextFrom, Followed};

// The set with v, where it is one of n nodes: no bit from n on is ever set.
pub fn with_node(set: [u64; 4], v: usize, n: usize) -> [u64; 4]
    requires { n ≤ 256 }
    ensures { SetOf result (λ m. has set m || (eqb m v && ltb m n)) }
{
    if v < n {
        return bits::with(set, v);
    }
    set
}

// The next of m circuits, from one on, that has an end among the nodes of word w.
pub fn next_at(
    first: &[usize; 512],
    second: &[usize; 512],
    w: usize,
    word: u64,
    from: usize,
    m: usize,
) -> Option<usize>
    requires { (from ≤ m) × (m ≤ 512) }
    ensures { NextFrom (ends_in first.now second.now w word) from m result }
{
    for c in from..m {
        if bits::in_word(w, word, first[c]) || bits::in_word(w, word, second[c]) {
            return Some(c);
        }
    }
    None
}

// What is reached, of n nodes, once those of word w that wait are visited: both ends of each of m circuits that has one there. Nodes of the word that are met
// on the way are followed from there on, and still wait, since circuits before may end at them.
pub fn follow(
    reached: [u64; 4],
    visited: [u64; 4],
    first: &[usize; 512],
    second: &[usize; 512],
    w: usize,
    n: usize,
    m: usize,
) -> [u64; 4]
    requires { (n ≤ 256) × (m ≤ 512) }
    ensures { Followed (network_in n m 0 first.now second.now []) (waits_in reached visited w) m reached result }
{
    let mut wider = reached;
    let word = bits::word_without(reached, visited, w);
    let mut next = next_at(first, second, w, word, 0, m);
    // A `for` over the circuits takes 8 % more instructions.
    while let Some(c) = next {
        wider = with_node(with_node(wider, first[c], n), second[c], n);
        let waiting = bits::word_without(wider, visited, w);
        next = next_at(first, second, w, waiting, c + 1, m);
    }
    wider
}
