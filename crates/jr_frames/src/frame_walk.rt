//! What the places of a frame would give once they are free.
ghost use Rattle.std.specs.Prelude.{◌≡◌, length};
ghost use Rattle.linked_lists.specs.Lists.{list_at};
ghost use Rattle.jr_frames.specs.Giving.{IsFrame, gives_again};

use crate::frames::{MOST_LINKS, MOST_PLACES};
use crate::place::Place;
use arrayvec::ArrayVec;
use linked_lists::LinkedLists;

/// Whether a place of a frame has not given its last handle.
pub(crate) fn any_gives_again(
    order: &LinkedLists<MOST_LINKS>,
    places: &ArrayVec<Place, MOST_PLACES>,
    frame: usize,
    last: u32,
) -> bool
    requires { IsFrame order.now (length places.now.items) frame }
    ensures { result ≡ gives_again last places.now.items (list_at order.now.lists frame) }
{
    let mut next = order.first(frame);
    while let Some(place) = next {
        if places[usize::from(place)].given() <= u64::from(last) {
            return true;
        }
        next = order.after(place);
    }
    false
}
