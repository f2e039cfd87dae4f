//! Lists of what a collection takes, in buffers of the caller's.
ghost use Rattle.std.specs.Prelude.{◌≡◌, slice_set};

/// Writes at a place of a buffer, where the buffer has it.
pub(crate) fn write_at<X: Copy>(buffer: &mut [X], place: u32, x: X)
    ensures { buffer.new ≡ slice_set buffer.old place x }
{
    let place = place as usize;
    if place < buffer.len() {
        buffer[place] = x;
    }
}
