//! How many objects are present, by kind, and how many words they have.
ghost use Rattle.std.specs.Prelude.{◌≡◌, false, slice_index_or};
ghost use Rattle.jr_model.specs.declared.event.Role.TheVariants.{Collecting};
ghost use Rattle.jr_steps.specs.Knowing.{state_of, CanReopen, MayKnow};
ghost use Rattle.jr_weak.specs.Markers.{marks_of};
ghost use Rattle.jr_census.specs.Counts.{AreObjects, unless, unmarked};
ghost use Rattle.jr_census.specs.Telling.{LoadsTell};

use jr_steps::Steps;
use jr_weak::Marker;
use jr_word::{HeaderParts, Kind};

/// How many objects there are of each kind.
#[derive(Clone, Copy, Debug, PartialEq, Eq)]
pub struct KindCounts {
    /// Without elements.
    pub plain: u32,
    /// Arrays of booleans.
    pub booleans: u32,
    /// Arrays of bytes.
    pub bytes: u32,
    /// Arrays of UTF-16 units.
    pub chars: u32,
    /// Arrays of 16-bit integers.
    pub shorts: u32,
    /// Arrays of 32-bit integers.
    pub ints: u32,
    /// Arrays of 64-bit integers.
    pub longs: u32,
    /// Arrays of objects.
    pub objects: u32,
    /// Strings.
    pub strings: u32,
}

impl KindCounts {
    ghost use Rattle.std.specs.Prelude.{◌≡◌, ◌≤◌};
    ghost use Rattle.jr_word.specs.declared.kind.Kind.{Kind};
    ghost use Rattle.jr_census.specs.Counts.{count_of, with_kind};

    /// None.
    const NONE: KindCounts = KindCounts {
        plain: 0,
        booleans: 0,
        bytes: 0,
        chars: 0,
        shorts: 0,
        ints: 0,
        longs: 0,
        objects: 0,
        strings: 0,
    };

    /// How many there are of a kind.
    pub fn of(&self, kind: Kind) -> u32
        ensures { result ≡ count_of self.now kind }
    {
        match kind {
            Kind::Plain => self.plain,
            Kind::Boolean => self.booleans,
            Kind::Byte => self.bytes,
            Kind::Char => self.chars,
            Kind::Short => self.shorts,
            Kind::Int => self.ints,
            Kind::Long => self.longs,
            Kind::Objects => self.objects,
            Kind::Text => self.strings,
        }
    }

    /// These and one of a kind.
    fn with(self, kind: Kind) -> Self
        requires { (k : Kind) → count_of self k ≤ 65535 }
        ensures { result ≡ with_kind self kind }
    {
        let mut counts = self;
        match kind {
            Kind::Plain => counts.plain += 1,
            Kind::Boolean => counts.booleans += 1,
            Kind::Byte => counts.bytes += 1,
            Kind::Char => counts.chars += 1,
            Kind::Short => counts.shorts += 1,
            Kind::Int => counts.ints += 1,
            Kind::Long => counts.longs += 1,
            Kind::Objects => counts.objects += 1,
            Kind::Text => counts.strings += 1,
        }
        counts
    }
}

/// How many objects there are.
#[derive(Clone, Copy, Debug, PartialEq, Eq)]
pub struct Objects {
    /// How many there are of each kind.
    pub kinds: KindCounts,
    /// How many there are.
    pub live: u32,
    /// How many words of array space they have.
    pub words: u32,
}

impl Objects {
    ghost use Rattle.std.specs.Prelude.{◌≡◌};
    ghost use Rattle.jr_census.specs.Counts.{IsRoomFor, with_object};

    /// None.
    const NONE: Objects = Objects {
        kinds: KindCounts::NONE,
        live: 0,
        words: 0,
    };

    /// These and what the header of a number says.
    fn with(self, header: Option<HeaderParts>) -> Self
        requires { IsRoomFor header self }
        ensures { result ≡ with_object self header }
    {
        match header {
            None => self,
            Some(header) => Objects {
                kinds: self.kinds.with(header.kind),
                live: self.live + 1,
                words: self.words + header.length,
            },
        }
    }
}

/// What the header of an object says, if the object is not marked.
fn unless_marked(marker: &Marker, object: u16, header: Option<HeaderParts>) -> Option<HeaderParts>
    ensures { result ≡ unless (slice_index_or (marks_of marker.now) object false) header }
{
    if marker.is_marked(object) {
        None
    } else {
        header
    }
}

/// Counts the objects that are present, and those of them that are not marked.
pub(crate) fn count_objects<S: Steps>(steps: &mut S, marker: &Marker) -> (Objects, Objects)
    requires role { (S.facts steps.old).stands.role ≡ Collecting }
    requires can { MayKnow S.facts steps.old CanReopen }
    ensures { LoadsTell S.facts (λ j. j.config.objects) steps.old steps.new (λ k. AreObjects k.config.objects (state_of k).objects result.0
        × AreObjects k.config.objects (unmarked (marks_of marker.now) (state_of k).objects) result.1) }
{
    let objects = steps.config().objects;
    let mut present = Objects::NONE;
    let mut unreached = Objects::NONE;
    for index in 0..objects {
        let object = (index + 1) as u16;
        let header = steps.scan_header(object);
        present = present.with(header);
        unreached = unreached.with(unless_marked(marker, object, header));
    }
    (present, unreached)
}
