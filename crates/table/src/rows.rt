//! Rows with keys, and the search for a key among those in use.
//!
//! The rows in use are the first `len` of a slice, or all of it where `len` is larger. The search halves the part that
//! is left, so it reads few rows of many. It answers for any rows; where they rise, it finds each key that is there.
// A rule of the project: a table is kept over a slice of the caller's rows, with no heap. The functions take that slice
// and a count, since a store that keeps rows and count in fields of its own calls them too.

ghost use Rattle.std.specs.Prelude.{◌≡◌, ℕ, take};
ghost use Rattle.table.specs.Tables.{Found, Got};

/// A row of a table. Its number is its key.
pub trait Row: Copy {
    ghost number: { Self → ℕ };

    /// The key of the row.
    fn number(&self) -> u64
        ensures { result ≡ number self.now };
}

/// Why a row is not inserted.
#[derive(Clone, Copy, PartialEq, Eq, Debug)]
pub enum TableFault {
    /// A row in use has its key.
    Present,
    /// All of the slice is in use.
    Full,
}

/// The place of the key among all the rows, or the place where it would stand.
// A loop, and not the library's search: it leaves at the first hit. Rows that do not rise are answered too, and their
// answers stay those that this loop has always given; the library's search goes on past a hit, and for such rows
// may answer another place, or none.
fn search<R: Row>(rows: &[R], key: u64) -> Result<usize, usize>
    ensures { Found R.number key rows.now result }
{
    let mut low = 0;
    let mut high = rows.len();
    while low < high {
        let middle = low + (high - low) / 2;
        let at = rows[middle].number();
        if at == key {
            return Ok(middle);
        }
        if at < key {
            low = middle + 1;
        } else {
            high = middle;
        }
    }
    Err(low)
}

/// The rows in use: the first `len`, or all where `len` is larger.
fn in_use<R: Row>(rows: &[R], len: usize) -> &[R]
    ensures { result.now ≡ take len rows.now }
{
    rows.get(..len).unwrap_or(rows)
}

/// The place of the key among the rows in use, or the place where it would stand.
pub fn find_in<R: Row>(rows: &[R], len: usize, key: u64) -> Result<usize, usize>
    ensures { Found R.number key (take len rows.now) result }
{
    search(in_use(rows, len), key)
}

/// The row in use that has the key.
pub fn get_in<R: Row>(rows: &[R], len: usize, key: u64) -> Option<R>
    ensures { Got R.number key (take len rows.now) result }
{
    let used = in_use(rows, len);
    let place = search(used, key).ok()?;
    Some(used[place])
}
