//! The locks that hold the nodes.

/// How many locks there are: the lock of cell `i` mod this holds node `i`.
pub(crate) const CELLS: usize = 16;

/// How many of them are in a row: the cell `c` is in row `c` / this. Proving a function costs the square of its arms; so one function picks
/// a row, and the next one a cell of it.
pub(crate) const ROW: usize = 4;

// Does `$then`, with the row of the node `$number` as `$row`.
macro_rules! in_row {
    ($shared:ident, $number:ident, $row:ident => $then:expr) => {
        match $number as usize % CELLS / ROW {
            0 => {
                let $row = &$shared.row0;
                $then
            }
            1 => {
                let $row = &$shared.row1;
                $then
            }
            2 => {
                let $row = &$shared.row2;
                $then
            }
            _ => {
                let $row = &$shared.row3;
                $then
            }
        }
    };
}

// Does `$then`, with the lock of the node `$number` in the row `$row` as `$lock`.
macro_rules! in_cell {
    ($row:ident, $number:ident, $lock:ident => $then:expr) => {
        match $number as usize % ROW {
            0 => {
                let $lock = &$row.cell0;
                $then
            }
            1 => {
                let $lock = &$row.cell1;
                $then
            }
            2 => {
                let $lock = &$row.cell2;
                $then
            }
            _ => {
                let $lock = &$row.cell3;
                $then
            }
        }
    };
}

pub(crate) use in_cell;
pub(crate) use in_row;
