//! The places of a thread for local references, counted.
ghost use Rattle.std.specs.Prelude.{◌≡◌, length};
ghost use Rattle.jr_model.specs.Maps.{count_below};
ghost use Rattle.jr_frames.specs.Places.{gave_any, is_taken};

use crate::frames::MOST_PLACES;
use crate::place::Place;
use arrayvec::ArrayVec;

/// How many local references a thread has, and how many places for them.
#[derive(Clone, Copy, Debug, PartialEq, Eq)]
pub struct LocalCounts {
    /// The frames, with the base frame.
    pub frames: usize,
    /// The references that stand, in all frames together.
    pub standing: u16,
    /// The places that are free: so many more references can be made.
    pub free: u16,
    /// The places that have ever given a handle. No more references stood at any moment. In the code a place that was freed is given before one that has given none:
    /// so this is the most that stood, as long as no place has given its last handle.
    pub given: u16,
}

/// How many places hold a reference, and how many have given a handle.
pub(crate) fn count_places(places: &ArrayVec<Place, MOST_PLACES>) -> (u16, u16)
    ensures standing { result.0 ≡ count_below (length places.now.items) (is_taken places.now.items) }
    ensures given { result.1 ≡ count_below (length places.now.items) (gave_any places.now.items) }
{
    let mut standing = 0;
    let mut given = 0;
    for index in 0..places.len() {
        let place = places[index];
        standing += u16::from(place.object != 0);
        given += u16::from(place.given() > 0);
    }
    (standing, given)
}
