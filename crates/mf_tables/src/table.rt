// Tables and their look-ups.
ghost use Rattle.std.specs.Prelude.{◌≡◌, length};
ghost use Rattle.std.specs.Ordering.{nat_cmp, is_lt};
ghost use Rattle.std.specs.Cmp.Lexicographic.{slice_cmp};

use std::cmp::Ordering;

/// A word and its number.
#[derive(Clone, Copy, Debug)]
pub struct Row {
    pub word: &'static [u8],
    pub number: u16,
}

/// N rows, whose words are meant to ascend by bytes: `is_sorted` tests it.
#[derive(Clone, Copy, Debug)]
pub struct Table<const N: usize> {
    pub rows: &'static [Row],
    pub ghost full: { length rows.now ≡ N },
}

impl<const N: usize> Table<N> {
    ghost use Rattle.std.specs.Prelude.{IsTrue, option_map};
    ghost use Rattle.mf_tables.specs.Table.{ascends, number_of, word_of};

    /// Whether each word comes before the next, by bytes.
    pub fn is_sorted(&self) -> bool
        ensures { result ≡ ascends self.now.rows.now }
    {
        for i in 1..self.rows.len() {
            if !comes_before(self.rows[i - 1].word, self.rows[i].word) {
                return false;
            }
        }
        true
    }

    /// The word of the first row with a number, in whatever order the rows stand.
    pub fn word_of(&self, number: u16) -> Option<&'static [u8]>
        ensures { option_map (λ w. w.now) result ≡ word_of number self.now.rows.now }
    {
        for row in self.rows {
            if row.number == number {
                return Some(row.word);
            }
        }
        None
    }

    /// The number of a word, by a binary search.
    pub fn find(&self, word: &[u8]) -> Option<u16>
        requires { IsTrue (ascends self.now.rows.now) }
        ensures { result ≡ number_of word.now self.now.rows.now }
    {
        let mut low = 0;
        let mut high = self.rows.len();
        while low < high {
            let middle = low + (high - low) / 2;
            let row = self.rows[middle];
            match row.word.cmp(word) {
                Ordering::Less => low = middle + 1,
                Ordering::Equal => return Some(row.number),
                Ordering::Greater => high = middle,
            }
        }
        None
    }
}

fn comes_before(word: &[u8], next: &[u8]) -> bool
    ensures { result ≡ is_lt (slice_cmp nat_cmp word.now next.now) }
{
    word.cmp(next).is_lt()
}
