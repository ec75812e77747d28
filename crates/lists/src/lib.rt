// Zeros, copies and parts of lent words. The laws of lists and tests that every crate shares stand in proofs/.
#![tactic(auto)]

ghost use Rattle.std.specs.Prelude.{◌≡◌, ◌+◌, ◌≤◌, length, replicate};
ghost use Rattle.lists.specs.Lists.{part, put};

// Every word becomes 0.
pub fn clear(words: &mut [u64])
    ensures { words.new ≡ replicate (length words.old) 0 }
{
    words.fill(0);
}

// Words, one for one, from a place on.
pub fn copy(from: &[u64], words: &mut [u64], at: usize)
    requires { at + length from.now ≤ length words.old }
    ensures { words.new ≡ put words.old at from.now }
{
    words[at..at + from.len()].copy_from_slice(from);
}

// So many words from a place on.
pub fn part_of(words: &[u64], from: usize, count: usize) -> &[u64]
    requires { from + count ≤ length words.now }
    ensures { result.now ≡ part from count words.now }
{
    let end = from + count;
    &words[from..end]
}
