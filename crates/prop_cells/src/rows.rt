//! Which instances each cell has: a row of numbers for each cell.
ghost use Rattle.std.specs.Prelude.{◌≡◌, ℕ, ◌<◌, ◌==◌, cond, List, [], ◌∷◌, ◌++◌, length, map};
ghost use Rattle.std.specs.Prelude.{take, All, OnOk, slice_index};
ghost use Rattle.std.specs.List.{list_any};
ghost use Rattle.prop_cells.specs.inner.Rooms.{row_items, HasRoom, Noted, TakenBack};

use std::alloc::AllocError;

/// Makes room for one more number in the rows of these cells. The rows keep their numbers.
pub(crate) fn make_room(rows: &mut Vec<Vec<usize>>, cells: &[usize]) -> Result<(), AllocError>
    requires { All (λ cell. cell < length rows.old.items) cells.now }
    ensures kept { row_items rows.new.items ≡ row_items rows.old.items }
    ensures ok { OnOk result (All (HasRoom rows.new.items) cells.now) }
{
    for cell in cells {
        rows[*cell].reserve(1)?;
    }
    Ok(())
}

/// Whether the cell at this place stands at an earlier place too.
fn is_again(cells: &[usize], i: usize) -> bool
    requires { i < length cells.now }
    ensures { result ≡ list_any (λ c. c == slice_index cells.now i) (take i cells.now) }
{
    cells[..i].contains(&cells[i])
}

/// Writes a number at the end of the rows of these cells, once in each. It takes no memory.
pub(crate) fn note(rows: &mut Vec<Vec<usize>>, cells: &[usize], number: usize)
    requires cells { All (λ cell. cell < length rows.old.items) cells.now }
    requires room { All (HasRoom rows.old.items) cells.now }
    ensures { Noted (row_items rows.old.items) (row_items rows.new.items) cells.now number }
{
    for i in 0..cells.len() {
        if is_again(cells, i) {
            continue;
        }
        let _ = rows[cells[i]].push(number);
    }
}

/// Takes the last number out of the rows of these cells, once out of each. It takes no memory.
pub(crate) fn take_back(rows: &mut Vec<Vec<usize>>, cells: &[usize])
    requires { All (λ cell. cell < length rows.old.items) cells.now }
    ensures { TakenBack (row_items rows.old.items) (row_items rows.new.items) cells.now }
{
    for i in 0..cells.len() {
        if is_again(cells, i) {
            continue;
        }
        let _ = rows[cells[i]].pop();
    }
}
