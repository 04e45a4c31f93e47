// Values of so many words each, and slices of them, one behind the other.
ghost use Rattle.std.specs.Prelude.{◌≡◌, ℕ, ◌*◌, ◌^◌, ◌<◌, List, Option, Some, None, length, MatchOption};
ghost use Rattle.packing.specs.Packing.{all_words, all_said};

// A value that is written as N words.
pub trait ToWords<const N: usize> {
    ghost words: { Self → List ℕ };

    fn to_words(&self) -> [u32; N]
        ensures { result ≡ words self.now };

    ghost exact: { (x : Self) → length (words x) ≡ N };
}

// A value that N words say, if they say one.
pub trait FromWords<const N: usize>: Copy {
    ghost said: { List ℕ → Option Self };

    fn from_words(words: &[u32; N]) -> Option<Self>
        ensures { result ≡ said words.now };
}

// Writes values into their words.
// By place: tried with `chunks_exact_mut`, and the proof did not close: when its borrow is over, nothing is known of the words written by it.
pub fn write_all<T: ToWords<N>, const N: usize>(all: &[T], words: &mut [u32])
    requires { length words.old ≡ length all.now * N }
    ensures { words.new ≡ all_words T.words all.now }
{
    for (k, x) in all.iter().enumerate() {
        words[k * N..k * N + N].copy_from_slice(&x.to_words());
    }
}

// Reads values from their words, one behind the other; none where they end, or the words of one say none.
pub fn read_all<T: FromWords<N>, const N: usize>(words: &[u32], all: &mut [T]) -> Option<()>
    requires { N < 2 ^ 32 }
    ensures { MatchOption result (all_said T.said N (length all.old) words.now ≡ None)
        (λ u. all_said T.said N (length all.old) words.now ≡ Some all.new) }
{
    let mut rest = words;
    for x in all.iter_mut() {
        let (first, others) = rest.split_first_chunk()?;
        *x = T::from_words(first)?;
        rest = others;
    }
    Some(())
}
