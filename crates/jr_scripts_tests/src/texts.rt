//! The text of scripts, from its commands and back. Which texts are scripts, and the fault of each other, the cases of `scripts/` tell.

use assertions::{Text, assert_same};
use jr_model::Mode;
use jr_syntax::{
    CloseLevel, Command, MakeFrom, Name, Reference, Script, Sequence, ThreadPart, Tries,
    a_script_printed_is_read_again, a_text_read_is_printed_again, is_name, print,
};
use jr_word::Config;
use std::alloc::Global;
use std::process::Abort;
use std::test::Fail;

/// The name that a word is.
fn name(rt: &impl Abort, word: &[u8]) -> Name {
    assert!(rt; is_name(word));
    Name::new(word)
}

/// An end of the newest level.
fn close(mode: Mode) -> Command {
    Command::CloseLevel {
        verb: CloseLevel::Newest,
        mode,
    }
}

#[test]
fn each_command_is_read_and_printed_again(rt: HostRuntime) -> Result<(), Fail> {
    let text =
        b"vm threads 2 slots 4 objects 8 words 16 locals 16\nthread a\nplain p\nboolean z 0\nbyte b 1\nchar c 20\nshort s 300\nint i 16777215\nlong j 9\nobjs o 4 p\nstring t\nstring t 104 0 65535\nlen z\nslen t\nchars t\nget g o 0\nset o 16777215 null\nload i 3\nstore i 0 -9223372036854775808\nstore i 1 9223372036854775807\nelems e i\neget e 0\neput e 0 -1\nrelease e i copy\nrelease e i commit\nrelease e null abort\nthread b2\ncrit r i\ncritstr r t\ncget r 0\ncset r 0 -1\nendcrit commit\nglobal g p\nweak w p\nlocal l null\npop r null\npush 4\nensure 0\ndrop null\ntype w\nsame p null\ngc\ngcann 30\npost g\nwait g\n";
    let printed = a_text_read_is_printed_again(rt.alloc(), text)?;
    assert_same!(&rt; Text(printed.as_slice()), Text(text.as_slice()));
    Ok(())
}

/// A thread that sets a name, and ends a level in each mode: all three end it alike, so that no run tells them apart.
fn part_of_four(rt: &impl Abort, alloc: Global) -> Result<ThreadPart, Fail> {
    let mut commands = Sequence::new(alloc);
    commands.push(Command::MakeFrom {
        verb: MakeFrom::Local,
        name: name(rt, b"l"),
        target: Reference::Null,
    })?;
    for mode in [Mode::Copy, Mode::Commit, Mode::Abort] {
        commands.push(close(mode))?;
    }
    Ok(ThreadPart {
        name: name(rt, b"main9"),
        commands,
    })
}

/// What is printed of a script with this thread.
const PRINTED: &[u8] =
    b"vm threads 1 slots 65536 objects 10 words 0 locals 4096\nthread main9\nlocal l null\nendcrit copy\nendcrit commit\nendcrit abort\n";

#[test]
fn a_script_is_printed_and_read_again(rt: HostRuntime) -> Result<(), Fail> {
    let alloc = rt.alloc();
    let config = Config {
        threads: 1,
        slots: 65_536,
        objects: 10,
        words: 0,
        locals: 4_096,
    };
    let mut threads = Sequence::new(alloc);
    threads.push(part_of_four(&rt, alloc)?)?;
    let script = Script { config, threads };
    let printed = print(alloc, &script)?;
    assert_same!(&rt; Text(printed.as_slice()), Text(PRINTED));
    let again = a_script_printed_is_read_again(alloc, &script)?;
    assert_same!(&rt; again.config, config);
    let ([part], [wanted]) = (again.threads.as_slice(), script.threads.as_slice()) else {
        return Err("a script of one thread was read as another")?;
    };
    assert!(rt; part.name.is(b"main9"));
    assert_same!(&rt; part.commands.as_slice(), wanted.commands.as_slice());
    Ok(())
}

#[test]
fn a_default_name_is_a_name_and_tries_keep_their_number(rt: HostRuntime) {
    assert!(rt; Name::default().is(b"a"));
    assert!(rt; is_name(Name::default().as_slice()));
    assert_same!(&rt; Tries::new(16_777_215).count(), 16_777_215);
}
