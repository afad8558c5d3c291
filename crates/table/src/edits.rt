//! Edits of the rows in use, in place: one more, one less, one changed.
//!
//! A row that goes in shifts the later ones up by one, and one that goes out shifts them down. What stands behind the
//! rows in use is left alone, and a refused edit leaves the whole slice as it is. Rows that rise still do after it.
// A rule of the project: a table is kept over a slice of the caller's rows, with no heap. The functions take that slice
// and a count, since a store that keeps rows and count in fields of its own calls them too.

ghost use Rattle.table.specs.Slices.{Inserts, Removes, Changes};

use crate::rows::{Row, TableFault, find_in};

/// Inserts the row at its place among those in use, of which there is then one more. Refused as `Present` where one in
/// use has its key, and else as `Full` where all of the slice is in use.
pub fn insert_in<R: Row>(rows: &mut [R], len: usize, row: R) -> Result<(), TableFault>
    ensures { Inserts R.number len row rows.old result rows.new }
{
    let Err(place) = find_in(rows, len, row.number()) else {
        return Err(TableFault::Present);
    };
    if len >= rows.len() {
        return Err(TableFault::Full);
    }
    rows[len] = row;
    rows[place..=len].rotate_right(1);
    Ok(())
}

/// Removes the row in use that has the key, and answers it; there is then one less in use, and the row stands right
/// behind those. None where no row has it.
pub fn remove_in<R: Row>(rows: &mut [R], len: usize, key: u64) -> Option<R>
    ensures { Removes R.number len key rows.old result rows.new }
{
    let place = find_in(rows, len, key).ok()?;
    let end = len.min(rows.len());
    let row = rows[place];
    rows[place..end].rotate_left(1);
    Some(row)
}

/// Puts the row in the place of that in use which has its key, and answers whether there was one.
// A bool, as the tests have it: no value goes with it, since the row that was there is what the caller just looked up.
pub fn change_in<R: Row>(rows: &mut [R], len: usize, row: R) -> bool
    ensures { Changes R.number len row rows.old result rows.new }
{
    let Ok(place) = find_in(rows, len, row.number()) else {
        return false;
    };
    rows[place] = row;
    true
}

#[cfg(test)]
mod tests {
    use super::*;
    use crate::rows::get_in;

    #[derive(Clone, Copy, PartialEq, Eq, Debug)]
    struct Lamp {
        key: u64,
        light: u8,
    }

    impl Row for Lamp {
        ghost number = { λ l. l.key };

        fn number(&self) -> u64 {
            self.key
        }
    }

    const DARK: Lamp = Lamp { key: 0, light: 0 };

    const LOW: Lamp = Lamp { key: 3, light: 30 };

    const MIDDLE: Lamp = Lamp { key: 5, light: 50 };

    const HIGH: Lamp = Lamp { key: 9, light: 90 };

    #[test]
    fn rows_go_in_by_their_keys(rt: HostRuntime) {
        let mut rows = [DARK; 3];
        assert_eq!(rt; insert_in(&mut rows, 0, MIDDLE), Ok(()));
        assert_eq!(rt; insert_in(&mut rows, 1, HIGH), Ok(()));
        assert_eq!(rt; insert_in(&mut rows, 2, LOW), Ok(()));
        assert_eq!(rt; rows, [LOW, MIDDLE, HIGH]);
        assert_eq!(rt; find_in(&rows, 3, 3), Ok(0));
        assert_eq!(rt; find_in(&rows, 3, 5), Ok(1));
        assert_eq!(rt; find_in(&rows, 3, 9), Ok(2));
        assert_eq!(rt; find_in(&rows, 3, 6), Err(2));
        assert_eq!(rt; find_in(&rows, 2, 9), Err(2));
        assert_eq!(rt; insert_in(&mut rows, 3, MIDDLE), Err(TableFault::Present));
        assert_eq!(rt; insert_in(&mut rows, 3, DARK), Err(TableFault::Full));
    }

    #[test]
    fn rows_go_out_and_change_by_their_keys(rt: HostRuntime) {
        let mut rows = [LOW, MIDDLE, HIGH];
        assert_eq!(rt; remove_in(&mut rows, 3, 5), Some(MIDDLE));
        assert_eq!(rt; remove_in(&mut rows, 2, 5), None);
        assert_eq!(rt; get_in(&rows, 2, 5), None);
        assert_eq!(rt; get_in(&rows, 2, 9), Some(HIGH));
        let bright = Lamp { key: 9, light: 99 };
        assert_eq!(rt; change_in(&mut rows, 2, bright), true);
        assert_eq!(rt; change_in(&mut rows, 2, MIDDLE), false);
        assert_eq!(rt; get_in(&rows, 2, 9), Some(bright));
        assert_eq!(rt; get_in(&rows, 7, 3), Some(LOW));
    }

    // Rows that do not rise are answered too. The search reads the middle row of those left and leaves at a hit: of 7,
    // 5, 1 it finds 5 at once, and misses 7 behind the last row and 1 before the first; of 5, 5, 5 it finds the middle
    // one.
    #[test]
    fn rows_that_fall_are_answered_too(rt: HostRuntime) {
        let seven = Lamp { key: 7, light: 70 };
        let one = Lamp { key: 1, light: 10 };
        let bright = Lamp { key: 5, light: 55 };
        let mut rows = [seven, MIDDLE, one, DARK];
        assert_eq!(rt; find_in(&rows, 3, 5), Ok(1));
        assert_eq!(rt; find_in(&rows, 3, 7), Err(3));
        assert_eq!(rt; find_in(&rows, 3, 1), Err(0));
        assert_eq!(rt; get_in(&rows, 3, 5), Some(MIDDLE));
        assert_eq!(rt; get_in(&rows, 3, 7), None);
        assert_eq!(rt; insert_in(&mut rows, 3, bright), Err(TableFault::Present));
        assert_eq!(rt; change_in(&mut rows, 3, bright), true);
        assert_eq!(rt; rows, [seven, bright, one, DARK]);
        assert_eq!(rt; change_in(&mut rows, 3, one), false);
        assert_eq!(rt; remove_in(&mut rows, 3, 7), None);
        assert_eq!(rt; remove_in(&mut rows, 3, 5), Some(bright));
        assert_eq!(rt; rows, [seven, one, bright, DARK]);
        assert_eq!(rt; insert_in(&mut rows, 2, seven), Ok(()));
        assert_eq!(rt; rows, [seven, one, seven, DARK]);
    }

    #[test]
    fn rows_with_one_key_are_answered_too(rt: HostRuntime) {
        let first = Lamp { key: 5, light: 1 };
        let last = Lamp { key: 5, light: 9 };
        let bright = Lamp { key: 5, light: 55 };
        let mut rows = [first, MIDDLE, last, DARK];
        assert_eq!(rt; find_in(&rows, 3, 5), Ok(1));
        assert_eq!(rt; get_in(&rows, 3, 5), Some(MIDDLE));
        assert_eq!(rt; insert_in(&mut rows, 3, bright), Err(TableFault::Present));
        assert_eq!(rt; change_in(&mut rows, 3, bright), true);
        assert_eq!(rt; rows, [first, bright, last, DARK]);
        assert_eq!(rt; remove_in(&mut rows, 3, 5), Some(bright));
        assert_eq!(rt; rows, [first, last, bright, DARK]);
    }
}
