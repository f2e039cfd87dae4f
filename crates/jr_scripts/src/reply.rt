//! What commands are answered.

ghost use Rattle.std.specs.Prelude.{◌≡◌};

use crate::buffer::Buffer;
use crate::copied_units::CopiedUnits;
use jr_weak::Collected;
use jr_word::Handle;

/// What a command that was not refused is answered.
#[derive(Drop)]
pub enum Reply {
    /// The command was done, and made nothing.
    Done,
    /// A reference was made, or none where the answer is NULL.
    Made(Option<Handle>),
    /// The type of a reference.
    Type(u8),
    /// Whether two references are to one object, or both to none.
    Same(bool),
    /// How many elements an array has, or units a string.
    Length(u32),
    /// The number that an element is.
    Value(i64),
    /// Elements were copied.
    Copied(Buffer),
    /// The units of a string.
    Units(CopiedUnits),
    /// A level of a critical region was opened, over an object of this number.
    Level(u16),
    /// A collection was made.
    Collected(Collected),
    /// No collection was made, since so many threads were inside, knocking, announcing or collecting.
    Busy(u32),
}

/// What a call answers, which is a reply to the command that made it.
pub trait IntoReply: Drop {
    ghost use Rattle.jr_scripts.specs.declared.reply.Reply.{Reply};

    ghost reply: { Self → Reply };

    /// The reply.
    fn into_reply(self) -> Reply
        ensures { result ≡ reply self };
}

impl IntoReply for () {
    ghost use Rattle.jr_scripts.specs.declared.reply.Reply.TheVariants.{Done};

    ghost reply = { λ _. Done };

    fn into_reply(self) -> Reply {
        Reply::Done
    }
}

impl IntoReply for Handle {
    ghost use Rattle.std.specs.Prelude.{Some};
    ghost use Rattle.jr_scripts.specs.declared.reply.Reply.TheVariants.{Made};

    ghost reply = { λ h. Made (Some h) };

    fn into_reply(self) -> Reply {
        Reply::Made(Some(self))
    }
}

impl IntoReply for Option<Handle> {
    ghost use Rattle.jr_scripts.specs.declared.reply.Reply.TheVariants.{Made};

    ghost reply = { λ h. Made h };

    fn into_reply(self) -> Reply {
        Reply::Made(self)
    }
}

impl IntoReply for u8 {
    ghost use Rattle.jr_scripts.specs.declared.reply.Reply.TheVariants as replies;

    ghost reply = { λ t. replies.Type t };

    fn into_reply(self) -> Reply {
        Reply::Type(self)
    }
}

impl IntoReply for bool {
    ghost use Rattle.jr_scripts.specs.declared.reply.Reply.TheVariants.{Same};

    ghost reply = { λ same. Same same };

    fn into_reply(self) -> Reply {
        Reply::Same(self)
    }
}

impl IntoReply for u32 {
    ghost use Rattle.jr_scripts.specs.declared.reply.Reply.TheVariants.{Length};

    ghost reply = { λ n. Length n };

    fn into_reply(self) -> Reply {
        Reply::Length(self)
    }
}

impl IntoReply for Vec<u16> {
    ghost use Rattle.jr_scripts.specs.declared.reply.Reply.TheVariants.{Units};

    ghost reply = { λ units. Units units.items };

    fn into_reply(self) -> Reply {
        Reply::Units(CopiedUnits::of(self))
    }
}
