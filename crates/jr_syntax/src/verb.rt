//! Verbs: what a command's line begins with. Verbs of one shape have the same arguments behind them.

ghost use Rattle.std.specs.Prelude.{◌≡◌};
ghost use Rattle.jr_syntax.specs.Command.{verb_word, verb_of};
ghost use Rattle.jr_syntax.specs.declared.verb.Verb.TheVariants as verbs;

/// A verb with a name behind it: it makes what the name then stands for.
#[derive(Clone, Copy, Debug, PartialEq, Eq)]
pub enum Make {
    /// `plain`: an object without elements.
    Plain,
    /// `wait`: the reference that a thread posts by this name.
    Wait,
}

/// A verb with a name and a reference behind it: it makes what the name then stands for from what the reference names.
#[derive(Clone, Copy, Debug, PartialEq, Eq)]
pub enum MakeFrom {
    /// `global`: a global reference.
    Global,
    /// `weak`: a weak global reference.
    Weak,
    /// `local`: a local reference.
    Local,
    /// `pop`: a local reference in the frame below, once the newest frame is taken away.
    Pop,
    /// `elems`: a copy of an array's elements.
    Elements,
}

/// A verb with a reference behind it.
#[derive(Clone, Copy, Debug, PartialEq, Eq)]
pub enum On {
    /// `drop`: deletes it.
    Drop,
    /// `type`: prints what kind of reference it is.
    Type,
    /// `len`: prints how many elements an array has.
    Len,
    /// `slen`: prints how many units a string has.
    TextLength,
    /// `chars`: prints the units of a string.
    Chars,
}

/// A verb with two references behind it.
#[derive(Clone, Copy, Debug, PartialEq, Eq)]
pub enum OnBoth {
    /// `same`: prints whether both refer to one object, or neither to any.
    Same,
}

/// A verb with a name behind it, which it uses and does not set.
#[derive(Clone, Copy, Debug, PartialEq, Eq)]
pub enum OnName {
    /// `post`: hands what the name stands for to threads that wait for it.
    Post,
}

/// A verb with a count behind it.
#[derive(Clone, Copy, Debug, PartialEq, Eq)]
pub enum WithCount {
    /// `push`: opens a frame with room for so many local references.
    Push,
    /// `ensure`: makes sure that there is room for so many more local references.
    Ensure,
}

/// A verb with a name and a length behind it: it makes an array for which the name then stands.
#[derive(Clone, Copy, Debug, PartialEq, Eq)]
pub enum MakeSized {
    /// `boolean`: an array of booleans.
    Boolean,
    /// `byte`: an array of bytes.
    Byte,
    /// `char`: an array of chars.
    Char,
    /// `short`: an array of shorts.
    Short,
    /// `int`: an array of ints.
    Int,
    /// `long`: an array of longs.
    Long,
}

/// A verb with a name, a length and a reference behind it: it makes an array that is full of what the reference names.
#[derive(Clone, Copy, Debug, PartialEq, Eq)]
pub enum MakeFilled {
    /// `objs`: an array of objects.
    Objects,
}

/// A verb with a name and any number of units behind it, up to 64: it makes something of these units.
#[derive(Clone, Copy, Debug, PartialEq, Eq)]
pub enum MakeText {
    /// `string`: a string.
    String,
}

/// A verb with a name, a reference and an index behind it: it makes what the name then stands for from an element.
#[derive(Clone, Copy, Debug, PartialEq, Eq)]
pub enum MakeAt {
    /// `get`: a local reference to the object at the index.
    Get,
}

/// A verb with a reference and an index behind it.
#[derive(Clone, Copy, Debug, PartialEq, Eq)]
pub enum OnAt {
    /// `load`: prints the element at the index.
    Load,
}

/// A verb with a reference, an index and a reference behind it.
#[derive(Clone, Copy, Debug, PartialEq, Eq)]
pub enum SetAt {
    /// `set`: makes what the second reference names the element at the index.
    Set,
}

/// A verb with a reference, an index and a value behind it.
#[derive(Clone, Copy, Debug, PartialEq, Eq)]
pub enum StoreAt {
    /// `store`: makes the value the element at the index.
    Store,
}

/// A verb with a name and an index behind it: it is about an element of what the name stands for.
#[derive(Clone, Copy, Debug, PartialEq, Eq)]
pub enum OnNameAt {
    /// `eget`: prints the element at the index of copied elements.
    Get,
    /// `cget`: prints the element at the index of a level of a critical region.
    GetInLevel,
}

/// A verb with a name, an index and a value behind it: it changes what the name stands for.
#[derive(Clone, Copy, Debug, PartialEq, Eq)]
pub enum PutAt {
    /// `eput`: makes the value the element at the index of copied elements.
    Put,
    /// `cset`: makes the value the element at the index of a level of a critical region.
    PutInLevel,
}

/// A verb with a name, a reference and a mode behind it: it hands back to what the reference names what the name stands for.
#[derive(Clone, Copy, Debug, PartialEq, Eq)]
pub enum Release {
    /// `release`: hands copied elements back to their array.
    Elements,
}

/// A verb with a name and a reference behind it: it opens a level of a critical region at what the reference names, for which the name then stands.
#[derive(Clone, Copy, Debug, PartialEq, Eq)]
pub enum OpenLevel {
    /// `crit`: a level at an array.
    Array,
    /// `critstr`: a level at a string.
    Text,
}

/// A verb with a mode behind it: it ends a level of a critical region.
#[derive(Clone, Copy, Debug, PartialEq, Eq)]
pub enum CloseLevel {
    /// `endcrit`: ends the newest level, and with the first the region.
    Newest,
}

/// A verb with nothing behind it: it is about the room as a whole.
#[derive(Clone, Copy, Debug, PartialEq, Eq)]
pub enum OfRoom {
    /// `gc`: collects.
    Collect,
}

/// A verb with a number of tries behind it: it is about the room as a whole.
#[derive(Clone, Copy, Debug, PartialEq, Eq)]
pub enum WithTries {
    /// `gcann`: collects, once it is announced, and tries so often.
    CollectAnnounced,
}

/// A verb of any shape.
#[derive(Clone, Copy)]
pub enum Verb {
    /// With a name.
    Make(Make),
    /// With a name and a reference.
    MakeFrom(MakeFrom),
    /// With a reference.
    On(On),
    /// With two references.
    OnBoth(OnBoth),
    /// With a name that it does not set.
    OnName(OnName),
    /// With a count.
    WithCount(WithCount),
    /// With a name and a length.
    MakeSized(MakeSized),
    /// With a name, a length and a reference.
    MakeFilled(MakeFilled),
    /// With a name and units.
    MakeText(MakeText),
    /// With a name, a reference and an index.
    MakeAt(MakeAt),
    /// With a reference and an index.
    OnAt(OnAt),
    /// With a reference, an index and a reference.
    SetAt(SetAt),
    /// With a reference, an index and a value.
    StoreAt(StoreAt),
    /// With a name that it does not set, and an index.
    OnNameAt(OnNameAt),
    /// With a name that it does not set, an index and a value.
    PutAt(PutAt),
    /// With a name, a reference and a mode.
    Release(Release),
    /// With a name of a level and a reference.
    OpenLevel(OpenLevel),
    /// With a mode.
    CloseLevel(CloseLevel),
    /// With nothing behind it.
    OfRoom(OfRoom),
    /// With a number of tries.
    WithTries(WithTries),
}

/// All verbs, each once.
pub const VERBS: [Verb; 38] = [
    Verb::Make(Make::Plain),
    Verb::Make(Make::Wait),
    Verb::MakeFrom(MakeFrom::Global),
    Verb::MakeFrom(MakeFrom::Weak),
    Verb::MakeFrom(MakeFrom::Local),
    Verb::MakeFrom(MakeFrom::Pop),
    Verb::MakeFrom(MakeFrom::Elements),
    Verb::On(On::Drop),
    Verb::On(On::Type),
    Verb::On(On::Len),
    Verb::On(On::TextLength),
    Verb::On(On::Chars),
    Verb::OnBoth(OnBoth::Same),
    Verb::OnName(OnName::Post),
    Verb::WithCount(WithCount::Push),
    Verb::WithCount(WithCount::Ensure),
    Verb::MakeSized(MakeSized::Boolean),
    Verb::MakeSized(MakeSized::Byte),
    Verb::MakeSized(MakeSized::Char),
    Verb::MakeSized(MakeSized::Short),
    Verb::MakeSized(MakeSized::Int),
    Verb::MakeSized(MakeSized::Long),
    Verb::MakeFilled(MakeFilled::Objects),
    Verb::MakeText(MakeText::String),
    Verb::MakeAt(MakeAt::Get),
    Verb::OnAt(OnAt::Load),
    Verb::SetAt(SetAt::Set),
    Verb::StoreAt(StoreAt::Store),
    Verb::OnNameAt(OnNameAt::Get),
    Verb::OnNameAt(OnNameAt::GetInLevel),
    Verb::PutAt(PutAt::Put),
    Verb::PutAt(PutAt::PutInLevel),
    Verb::Release(Release::Elements),
    Verb::OpenLevel(OpenLevel::Array),
    Verb::OpenLevel(OpenLevel::Text),
    Verb::CloseLevel(CloseLevel::Newest),
    Verb::OfRoom(OfRoom::Collect),
    Verb::WithTries(WithTries::CollectAnnounced),
];

impl MakeFrom {
    /// Its word.
    fn word(self) -> &'static [u8]
        ensures { result.now ≡ verb_word (verbs.MakeFrom self) }
    {
        match self {
            MakeFrom::Global => b"global",
            MakeFrom::Weak => b"weak",
            MakeFrom::Local => b"local",
            MakeFrom::Pop => b"pop",
            MakeFrom::Elements => b"elems",
        }
    }
}

impl On {
    /// Its word.
    fn word(self) -> &'static [u8]
        ensures { result.now ≡ verb_word (verbs.On self) }
    {
        match self {
            On::Drop => b"drop",
            On::Type => b"type",
            On::Len => b"len",
            On::TextLength => b"slen",
            On::Chars => b"chars",
        }
    }
}

impl MakeSized {
    /// Its word.
    fn word(self) -> &'static [u8]
        ensures { result.now ≡ verb_word (verbs.MakeSized self) }
    {
        match self {
            MakeSized::Boolean => b"boolean",
            MakeSized::Byte => b"byte",
            MakeSized::Char => b"char",
            MakeSized::Short => b"short",
            MakeSized::Int => b"int",
            MakeSized::Long => b"long",
        }
    }
}

impl Verb {
    /// Its word.
    pub fn word(self) -> &'static [u8]
        ensures { result.now ≡ verb_word self }
    {
        match self {
            Verb::Make(Make::Plain) => b"plain",
            Verb::Make(Make::Wait) => b"wait",
            Verb::MakeFrom(verb) => verb.word(),
            Verb::On(verb) => verb.word(),
            Verb::OnBoth(OnBoth::Same) => b"same",
            Verb::OnName(OnName::Post) => b"post",
            Verb::WithCount(WithCount::Push) => b"push",
            Verb::WithCount(WithCount::Ensure) => b"ensure",
            Verb::MakeSized(verb) => verb.word(),
            Verb::MakeFilled(MakeFilled::Objects) => b"objs",
            Verb::MakeText(MakeText::String) => b"string",
            Verb::MakeAt(MakeAt::Get) => b"get",
            Verb::OnAt(OnAt::Load) => b"load",
            Verb::SetAt(SetAt::Set) => b"set",
            Verb::StoreAt(StoreAt::Store) => b"store",
            Verb::OnNameAt(OnNameAt::Get) => b"eget",
            Verb::OnNameAt(OnNameAt::GetInLevel) => b"cget",
            Verb::PutAt(PutAt::Put) => b"eput",
            Verb::PutAt(PutAt::PutInLevel) => b"cset",
            Verb::Release(Release::Elements) => b"release",
            Verb::OpenLevel(OpenLevel::Array) => b"crit",
            Verb::OpenLevel(OpenLevel::Text) => b"critstr",
            Verb::CloseLevel(CloseLevel::Newest) => b"endcrit",
            Verb::OfRoom(OfRoom::Collect) => b"gc",
            Verb::WithTries(WithTries::CollectAnnounced) => b"gcann",
        }
    }

    /// The verb with a word.
    #[tactic(auto, unfolding(crate::specs::Command::verb_of))]
    pub fn of(word: &[u8]) -> Option<Verb>
        ensures { result ≡ verb_of word.now }
    {
        VERBS.iter().copied().find(|verb| verb.word() == word)
    }
}
