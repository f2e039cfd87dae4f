//! What holds of objects through a stay.
ghost use Rattle.jr_heap.specs.Laws.{HeadersHold, StepsKeepHeaders, CallsKeepHeaders, ReadsElement, WritesElement};

/// A header that was read in a stay holds until the stay ends, whatever the pass and the other threads do.
pub fn headers_hold()
    ensures { HeadersHold }
{}

/// A header that is known stays known until the pass leaves: after each step of a stay, and after each call of the heap.
pub fn headers_stay_known()
    ensures steps { StepsKeepHeaders }
    ensures calls { CallsKeepHeaders }
{}

/// Objects are lists: a read gives the element of the object's list at its moment, and a write stands there then.
pub fn objects_are_lists()
    ensures read { ReadsElement }
    ensures write { WritesElement }
{}
