//! The cases. Each slot and each local place gives two handles.

use crate::case::Name::{Own, Ready};
use crate::case::{Case, EnvCall};

/// A global reference to an object of the first thread: the references made ready are 0, the local one, and 1.
const SHARED: &[EnvCall] = &[EnvCall::NewPlain, EnvCall::NewGlobal(Ready(0))];

/// A weak reference to an object that nothing reaches: 1.
const LOST: &[EnvCall] = &[
    EnvCall::NewPlain,
    EnvCall::NewWeak(Ready(0)),
    EnvCall::DeleteLocal(Ready(0)),
];

/// An array of two that nothing reaches, behind an object and a reference that were made ready: 2.
const UNREACHED: &[EnvCall] = &[EnvCall::NewArray(2), EnvCall::DeleteLocal(Ready(2))];

/// A global reference to an array whose one element is 7, behind an array that nothing reaches: 2.
const BEHIND: &[EnvCall] = &[
    EnvCall::NewArray(1),
    EnvCall::NewArray(1),
    EnvCall::NewGlobal(Ready(1)),
    EnvCall::Write(Ready(1), 7),
    EnvCall::DeleteLocal(Ready(0)),
    EnvCall::DeleteLocal(Ready(1)),
];

/// Of one reference.
const LOOKS: &[EnvCall] = &[EnvCall::TypeOf(Ready(1)), EnvCall::TypeOf(Ready(1))];

/// Of the element of an array.
const READS: &[EnvCall] = &[
    EnvCall::ReadCritical(Ready(2)),
    EnvCall::ReadCritical(Ready(2)),
];

/// All of them.
pub(crate) const CASES: [Case; 21] = [
    Case {
        name: "two create in a row of one slot",
        slots: 1,
        objects: 2,
        ready: &[&[EnvCall::NewPlain], &[EnvCall::NewPlain]],
        calls: &[
            &[EnvCall::NewGlobal(Ready(0))],
            &[EnvCall::NewGlobal(Ready(1))],
        ],
    },
    Case {
        name: "two create in the one slot, and one deletes what stands there",
        slots: 1,
        objects: 1,
        ready: &[SHARED, &[], &[]],
        calls: &[
            &[EnvCall::NewGlobal(Ready(0))],
            &[EnvCall::NewGlobal(Ready(1))],
            &[EnvCall::DeleteGlobal(Ready(1))],
        ],
    },
    Case {
        name: "two create and delete in a row of one slot, which gives two handles",
        slots: 1,
        objects: 2,
        ready: &[&[EnvCall::NewPlain], &[EnvCall::NewPlain]],
        calls: &[
            &[
                EnvCall::NewGlobal(Ready(0)),
                EnvCall::DeleteGlobal(Own),
                EnvCall::NewGlobal(Ready(0)),
            ],
            &[EnvCall::NewGlobal(Ready(1)), EnvCall::DeleteGlobal(Own)],
        ],
    },
    Case {
        name: "two delete one reference, and look at it",
        slots: 1,
        objects: 1,
        ready: &[SHARED, &[]],
        calls: &[
            &[EnvCall::DeleteGlobal(Ready(1)), EnvCall::TypeOf(Ready(1))],
            &[EnvCall::DeleteGlobal(Ready(1)), EnvCall::TypeOf(Ready(1))],
        ],
    },
    Case {
        name: "three delete one reference",
        slots: 1,
        objects: 1,
        ready: &[SHARED, &[], &[]],
        calls: &[
            &[EnvCall::DeleteGlobal(Ready(1))],
            &[EnvCall::DeleteGlobal(Ready(1))],
            &[EnvCall::DeleteGlobal(Ready(1))],
        ],
    },
    Case {
        name: "looks at a reference whose slot is given again",
        slots: 1,
        objects: 1,
        ready: &[SHARED, &[]],
        calls: &[
            &[
                EnvCall::DeleteGlobal(Ready(1)),
                EnvCall::NewGlobal(Ready(0)),
                EnvCall::DeleteGlobal(Own),
            ],
            LOOKS,
        ],
    },
    Case {
        name: "a weak reference is looked at while its object is collected",
        slots: 2,
        objects: 1,
        ready: &[LOST, &[]],
        calls: &[
            &[EnvCall::Collect],
            &[EnvCall::IsNull(Ready(1)), EnvCall::NewGlobal(Ready(1))],
        ],
    },
    Case {
        name: "a weak reference is deleted while its object is collected",
        slots: 2,
        objects: 1,
        ready: &[LOST, &[]],
        calls: &[
            &[EnvCall::CollectAnnounced(2)],
            &[EnvCall::NewGlobal(Ready(1)), EnvCall::DeleteWeak(Ready(1))],
        ],
    },
    Case {
        name: "entries beside two collections",
        slots: 1,
        objects: 1,
        ready: &[SHARED, &[]],
        calls: &[&[EnvCall::Collect, EnvCall::Collect], LOOKS],
    },
    Case {
        name: "entries beside announced collections",
        slots: 1,
        objects: 1,
        ready: &[SHARED, &[]],
        calls: &[
            &[EnvCall::CollectAnnounced(2), EnvCall::CollectAnnounced(1)],
            LOOKS,
        ],
    },
    Case {
        name: "two announce, and one enters",
        slots: 1,
        objects: 1,
        ready: &[SHARED, &[], &[]],
        calls: &[
            &[EnvCall::CollectAnnounced(1)],
            &[EnvCall::CollectAnnounced(1)],
            &[EnvCall::TypeOf(Ready(1))],
        ],
    },
    Case {
        name: "two reserve words",
        slots: 1,
        objects: 2,
        ready: &[&[], &[]],
        calls: &[&[EnvCall::NewArray(1)], &[EnvCall::NewArray(3)]],
    },
    Case {
        name: "two reserve words for which there is no room together",
        slots: 1,
        objects: 2,
        ready: &[&[], &[]],
        calls: &[&[EnvCall::NewArray(2)], &[EnvCall::NewArray(3)]],
    },
    Case {
        name: "two publish under the same numbers",
        slots: 1,
        objects: 3,
        ready: &[&[], &[]],
        calls: &[
            &[EnvCall::NewPlain, EnvCall::NewPlain],
            &[EnvCall::NewPlain],
        ],
    },
    Case {
        name: "a critical region beside a collection",
        slots: 1,
        objects: 2,
        ready: &[BEHIND, &[]],
        calls: &[&[EnvCall::Collect], READS],
    },
    Case {
        name: "a critical region beside an announced collection",
        slots: 1,
        objects: 2,
        ready: &[BEHIND, &[]],
        calls: &[&[EnvCall::CollectAnnounced(2)], READS],
    },
    Case {
        name: "censuses beside a deletion and a creation",
        slots: 1,
        objects: 1,
        ready: &[&[], SHARED],
        calls: &[
            &[EnvCall::Census, EnvCall::Census],
            &[
                EnvCall::DeleteGlobal(Ready(1)),
                EnvCall::NewGlobal(Ready(0)),
                EnvCall::DeleteLocal(Ready(0)),
            ],
        ],
    },
    Case {
        name: "a census beside an announced collection",
        slots: 2,
        objects: 2,
        ready: &[LOST, UNREACHED],
        calls: &[&[EnvCall::Census], &[EnvCall::CollectAnnounced(2)]],
    },
    Case {
        name: "one creates, one deletes, one collects",
        slots: 2,
        objects: 1,
        ready: &[SHARED, &[], &[]],
        calls: &[
            &[EnvCall::NewGlobal(Ready(0))],
            &[EnvCall::DeleteGlobal(Ready(1))],
            &[EnvCall::Collect],
        ],
    },
    Case {
        name: "one creates, one deletes, one announces and collects",
        slots: 2,
        objects: 1,
        ready: &[SHARED, &[], &[]],
        calls: &[
            &[EnvCall::NewGlobal(Ready(0))],
            &[EnvCall::DeleteGlobal(Ready(1))],
            &[EnvCall::CollectAnnounced(1)],
        ],
    },
    Case {
        name: "one creates, one deletes, one looks",
        slots: 1,
        objects: 1,
        ready: &[SHARED, &[], &[]],
        calls: &[
            &[EnvCall::NewGlobal(Ready(0))],
            &[EnvCall::DeleteGlobal(Ready(1))],
            &[EnvCall::TypeOf(Ready(1))],
        ],
    },
];
