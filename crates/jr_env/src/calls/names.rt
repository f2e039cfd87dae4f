//! What the calls at arrays of a primitive type are called.
ghost use Rattle.std.specs.Prelude.{◌≡◌, ◌++◌, codes};
ghost use Rattle.jr_env.specs.Requests.{type_name};

use jr_word::Kind;

/// The name of a kind's type, between two parts of a call's name.
macro_rules! with_type {
    ($before:literal, $kind:expr, $behind:literal) => {
        match $kind {
            Kind::Boolean => concat!($before, "Boolean", $behind),
            Kind::Byte => concat!($before, "Byte", $behind),
            Kind::Char => concat!($before, "Char", $behind),
            Kind::Short => concat!($before, "Short", $behind),
            Kind::Int => concat!($before, "Int", $behind),
            Kind::Long => concat!($before, "Long", $behind),
            Kind::Plain | Kind::Objects | Kind::Text => {
                concat!($before, "<PrimitiveType>", $behind)
            }
        }
    };
}

/// The call that makes an array of the type.
#[inline(always)]
pub(crate) fn new_array(kind: Kind) -> &'static str
    ensures { result.now ≡ codes "New" ++ type_name kind ++ codes "Array" }
{
    with_type!("New", kind, "Array")
}

/// The call that copies a part of an array out.
#[inline(always)]
pub(crate) fn get_region(kind: Kind) -> &'static str
    ensures { result.now ≡ codes "Get" ++ type_name kind ++ codes "ArrayRegion" }
{
    with_type!("Get", kind, "ArrayRegion")
}

/// The call that writes a part of an array.
#[inline(always)]
pub(crate) fn set_region(kind: Kind) -> &'static str
    ensures { result.now ≡ codes "Set" ++ type_name kind ++ codes "ArrayRegion" }
{
    with_type!("Set", kind, "ArrayRegion")
}

/// The call that copies an array out.
#[inline(always)]
pub(crate) fn get_elements(kind: Kind) -> &'static str
    ensures { result.now ≡ codes "Get" ++ type_name kind ++ codes "ArrayElements" }
{
    with_type!("Get", kind, "ArrayElements")
}

/// The call that writes a copy back.
#[inline(always)]
pub(crate) fn release_elements(kind: Kind) -> &'static str
    ensures { result.now ≡ codes "Release" ++ type_name kind ++ codes "ArrayElements" }
{
    with_type!("Release", kind, "ArrayElements")
}
