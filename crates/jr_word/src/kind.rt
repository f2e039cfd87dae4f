//! Kinds of objects.

/// The kind of an object.
#[derive(Clone, Copy, Debug, PartialEq, Eq)]
pub enum Kind {
    /// Without elements.
    Plain,
    /// An array of booleans.
    Boolean,
    /// An array of bytes.
    Byte,
    /// An array of UTF-16 units.
    Char,
    /// An array of 16-bit integers.
    Short,
    /// An array of 32-bit integers.
    Int,
    /// An array of 64-bit integers.
    Long,
    /// An array of objects.
    Objects,
    /// A string of UTF-16 units.
    Text,
}

impl Kind {
    ghost use Rattle.std.specs.Prelude.{◌≡◌, ◌<◌, IfSome};
    ghost use Rattle.jr_word.specs.declared.kind.Kind.TheVariants.{Text};
    ghost use Rattle.jr_word.specs.Kind.{kind_code};

    /// The number of the kind, 1 to 9.
    #[inline]
    pub fn code(self) -> u64
        ensures { result ≡ kind_code self }
    {
        match self {
            Kind::Plain => 1,
            Kind::Boolean => 2,
            Kind::Byte => 3,
            Kind::Char => 4,
            Kind::Short => 5,
            Kind::Int => 6,
            Kind::Long => 7,
            Kind::Objects => 8,
            Kind::Text => 9,
        }
    }

    /// The kind with a number, if one has it.
    #[inline]
    pub fn from_code(code: u64) -> Option<Self>
        ensures sound { IfSome result (λ kind. code ≡ kind_code kind) }
        ensures complete { (kind : _) → code ≡ kind_code kind → result ≡ Some kind }
    {
        match code {
            1 => Some(Kind::Plain),
            2 => Some(Kind::Boolean),
            3 => Some(Kind::Byte),
            4 => Some(Kind::Char),
            5 => Some(Kind::Short),
            6 => Some(Kind::Int),
            7 => Some(Kind::Long),
            8 => Some(Kind::Objects),
            9 => Some(Kind::Text),
            _ => None,
        }
    }

    /// The kind with a number, a string for a number that no kind has.
    #[inline]
    pub fn of_code(code: u64) -> Self
        ensures known { (kind : _) → code ≡ kind_code kind → result ≡ kind }
        ensures zero { code ≡ 0 → result ≡ Text }
        ensures over { 9 < code → result ≡ Text }
    {
        match code {
            1 => Kind::Plain,
            2 => Kind::Boolean,
            3 => Kind::Byte,
            4 => Kind::Char,
            5 => Kind::Short,
            6 => Kind::Int,
            7 => Kind::Long,
            8 => Kind::Objects,
            _ => Kind::Text,
        }
    }
}
