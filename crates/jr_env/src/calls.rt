//! The calls of an env: those of the Java Native Interface, and those that it doesn't have; and each of most as a value, which can be made again.

pub(crate) mod array_parts;
mod arrays;
mod collecting;
mod copies;
mod counting;
mod critical_regions;
mod explaining;
mod frames;
mod identity;
mod meeting;
pub(crate) mod names;
mod notes;
mod numbers;
mod objects;
mod references;
mod strings;

pub use array_parts::SetArrayRegion;
pub use arrays::{
    GetArrayLength, GetObjectArrayElement, NewArray, NewObjectArray, SetObjectArrayElement,
};
pub use copies::{CopyBack, GetArrayElements};
pub use frames::{FreeLocals, PopLocalFrame};
pub use identity::IdentityOf;
pub use objects::{KindOf, NewPlain};
pub use references::{
    DeleteGlobalRef, DeleteLocalRef, DeleteWeakGlobalRef, GetObjectRefType, IsSameObject,
    NewGlobalRef, NewLocalRef, NewWeakGlobalRef,
};
pub use strings::{GetStringChars, GetStringLength, NewString};
