//! The text of scripts: which texts are scripts, what each says, and the first fault of any other text.
#![tactic(auto)]

mod argument;
mod command;
mod draft;
mod fault;
mod laws;
mod line;
mod mode;
mod name;
mod number;
mod once;
mod reader;
mod script;
mod sequence;
mod text;
mod thread;
mod tries;
mod units;
mod value;
mod verb;
mod vm_line;
mod word;
mod writer;

pub use argument::Argument;
pub use command::Command;
pub use fault::{Reason, ScriptFault};
pub use laws::{
    a_script_has_no_fault, a_script_printed_is_read_again, a_text_has_one_script,
    a_text_read_is_printed_again, a_text_without_a_fault_is_a_script,
};
pub use name::{Name, Reference, is_name};
pub use reader::parse;
pub use script::Script;
pub use sequence::Sequence;
pub use thread::ThreadPart;
pub use tries::Tries;
pub use units::Units;
pub use verb::{
    CloseLevel, Make, MakeAt, MakeFilled, MakeFrom, MakeSized, MakeText, OfRoom, On, OnAt, OnBoth,
    OnName, OnNameAt, OpenLevel, PutAt, Release, SetAt, StoreAt, VERBS, Verb, WithCount, WithTries,
};
pub use writer::print;
