//! What calls ask of the kind of an object.
ghost use Rattle.std.specs.Prelude.{◌≡◌};
ghost use Rattle.jr_model.specs.Checks.{is_array as is_array_of, is_objects as is_objects_of, is_plain as is_plain_of, is_text as is_text_of};

use jr_word::Kind;

/// Whether objects of the kind have no elements.
pub fn is_plain(kind: Kind) -> bool
    ensures { result ≡ is_plain_of kind }
{
    matches!(kind, Kind::Plain)
}

/// Whether objects of the kind are arrays: neither plain nor strings.
pub fn is_array(kind: Kind) -> bool
    ensures { result ≡ is_array_of kind }
{
    !matches!(kind, Kind::Plain | Kind::Text)
}

/// Whether objects of the kind are strings.
pub fn is_text(kind: Kind) -> bool
    ensures { result ≡ is_text_of kind }
{
    matches!(kind, Kind::Text)
}

/// Whether objects of the kind are object arrays.
pub fn is_objects(kind: Kind) -> bool
    ensures { result ≡ is_objects_of kind }
{
    matches!(kind, Kind::Objects)
}
