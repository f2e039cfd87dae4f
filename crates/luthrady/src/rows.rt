//! Notes as rows of numbers, in memory of the caller's.
ghost use Rattle.std.specs.Prelude.{◌≡◌, map, slice_set};
ghost use Rattle.jr_weak.specs.Listing.{over_front};
ghost use Rattle.luthrady.specs.Listed.{as_handle};
ghost use Rattle.luthrady.specs.Replies.{the_word};

use jr_word::Handle;

/// A row that a note is written as.
pub(crate) trait RowOf<T: Copy>: Copy {
    ghost form: { T → Self };

    /// The row of a note.
    fn row_of(note: T) -> Self
        ensures { result ≡ form note };
}

impl RowOf<u64> for Handle {
    ghost form = { as_handle };

    fn row_of(note: u64) -> Self {
        Handle(note)
    }
}

impl RowOf<Handle> for u64 {
    ghost form = { the_word };

    fn row_of(note: Handle) -> Self {
        note.0
    }
}

/// Writes the rows of notes over the front of a buffer, as many as there is room for.
pub(crate) fn write_rows<T: Copy, R: RowOf<T>>(notes: &[T], rows: &mut [R])
    ensures { rows.new ≡ over_front rows.old (map R.form notes.now) }
{
    for place in 0..notes.len() {
        write_row(rows, place, R::row_of(notes[place]));
    }
}

/// Writes a row at a place of a buffer, where the buffer has it.
fn write_row<R: Copy>(rows: &mut [R], place: usize, row: R)
    ensures { rows.new ≡ slice_set rows.old place row }
{
    if place < rows.len() {
        rows[place] = row;
    }
}
