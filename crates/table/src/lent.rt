//! A table over a slice that the caller lends: the slice and the count of its rows in use.
//!
//! Each method hands the slice to the function of its name. A table is made only of rows that rise, and each edit
//! leaves them rising. A clause sees a table as its rows in use and the rest of the slice behind them.

ghost use Rattle.std.specs.Prelude.{◌≡◌, length, Some, None, Decides};
ghost use Rattle.table.specs.Tables.{Found, Got, Rising};
ghost use Rattle.table.specs.Lent.{Opened, Unopened, TableInserts, TableRemoves, TableChanges};

use crate::edits::{change_in, insert_in, remove_in};
use crate::rows::{Row, TableFault, find_in, get_in};
use std::marker::Model;

/// Whether the keys of all the rows rise strictly.
fn rises<R: Row>(rows: &[R]) -> bool
    ensures { Decides result (Rising R.number rows.now) }
{
    rows.is_sorted_by(|a, b| a.number() < b.number())
}

/// The rows in use of a lent slice, in rising order of their keys.
// A rule of the project: a table is kept over a slice of the caller's rows, with no heap. The methods hand the slice to
// functions, which a store that keeps rows and count in fields of its own calls too.
#[derive(Drop)]
pub struct Table<'a, R: Row> {
    /// The rows, those in use first.
    rows: &'a mut [R],
    /// How many of them are in use.
    len: usize,
}

impl<'a, R: Row> Model for Table<'a, R> {
    ghost use Rattle.std.specs.Prelude.{◌≤◌, length, take};
    ghost use Rattle.table.specs.Tables.{Rising};
    ghost use Rattle.table.specs.Lent.{Rows, rows_of};

    ghost Value = { Rows R };

    ghost view = { λ t. rows_of t.rows.now t.len };

    ghost invariant = { λ t. (t.len ≤ length t.rows.now) × Rising R.number (take t.len t.rows.now) };
}

impl<'a, R: Row> Table<'a, R> {
    /// The first `len` rows of a slice as a table; none where the slice has fewer, or their keys do not rise.
    pub fn new(rows: &'a mut [R], len: usize) -> Option<Table<'a, R>>
        ensures { elim result [ Some table ↦ Opened R.number len rows.old table | None ↦ Unopened R.number len rows.old ] }
    {
        let used = rows.get(..len)?;
        if !rises(used) {
            return None;
        }
        Some(Table { rows, len })
    }

    /// How many rows are in use.
    pub fn len(&self) -> usize
        ensures { result ≡ length self.now.used }
    {
        self.len
    }

    /// The place of the key, or the place where it would stand.
    pub fn find(&self, key: u64) -> Result<usize, usize>
        ensures found { Found R.number key self.now.used result }
        ensures order { Rising R.number self.now.used }
    {
        find_in(self.rows, self.len, key)
    }

    /// The row that has the key.
    pub fn get(&self, key: u64) -> Option<R>
        ensures got { Got R.number key self.now.used result }
        ensures order { Rising R.number self.now.used }
    {
        get_in(self.rows, self.len, key)
    }

    /// Inserts the row at its place; refused as by `insert_in`.
    pub fn insert(&mut self, row: R) -> Result<(), TableFault>
        ensures { TableInserts R.number row self.old result self.new }
    {
        insert_in(self.rows, self.len, row)?;
        self.len += 1;
        Ok(())
    }

    /// Removes the row that has the key, and answers it; none where no row has it.
    pub fn remove(&mut self, key: u64) -> Option<R>
        ensures { TableRemoves R.number key self.old result self.new }
    {
        let row = remove_in(self.rows, self.len, key)?;
        self.len -= 1;
        Some(row)
    }

    /// Puts the row in the place of that with its key, and answers whether there was one.
    // A bool, as the tests have it: no value goes with it, since the row that was there is what the caller just looked up.
    pub fn change(&mut self, row: R) -> bool
        ensures { TableChanges R.number row self.old result self.new }
    {
        change_in(self.rows, self.len, row)
    }
}

#[cfg(test)]
mod tests {
    use super::*;
    use std::test::Fail;

    #[derive(Clone, Copy, PartialEq, Eq, Debug)]
    struct Only {
        key: u64,
    }

    impl Row for Only {
        ghost number = { λ o. o.key };

        fn number(&self) -> u64 {
            self.key
        }
    }

    #[test]
    fn a_table_over_a_lent_slice(rt: HostRuntime) -> Result<(), Fail> {
        let mut rows = [Only { key: 4 }, Only { key: 7 }, Only { key: 1 }];
        assert!(rt; Table::new(&mut rows, 3).is_none());
        assert!(rt; Table::new(&mut rows, 4).is_none());
        let Some(mut table) = Table::new(&mut rows, 2) else {
            return Err(Fail::new("the first two rise"));
        };
        assert_eq!(rt; table.insert(Only { key: 5 }), Ok(()));
        assert_eq!(rt; table.insert(Only { key: 6 }), Err(TableFault::Full));
        assert_eq!(rt; table.len(), 3);
        assert_eq!(rt; table.find(7), Ok(2));
        assert_eq!(rt; table.remove(4), Some(Only { key: 4 }));
        assert_eq!(rt; table.len(), 2);
        assert_eq!(rt; table.get(4), None);
        assert_eq!(rt; table.get(5), Some(Only { key: 5 }));
        assert_eq!(rt; table.change(Only { key: 4 }), false);
        assert_eq!(rt; table.change(Only { key: 7 }), true);
        Ok(())
    }
}
