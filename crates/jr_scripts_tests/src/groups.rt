//! A script of each group of commands, run alone over plain words, as an embedder may run one, and over a room.

use crate::printing::prints;
use std::test::Fail;

/// The scripts, and what each prints: of references and frames, of arrays and strings, of copies, of critical regions, and of collections.
const GROUPS: [(&[u8], &[u8]); 5] = [
    (
        b"vm threads 1 slots 2 objects 2 words 16 locals 16\nthread a\nplain x\nweak w x\nglobal g w\nglobal h x\npush 1\nlocal y g\npush 0\nplain z\nplain v\nsame y z\npop u y\nsame u x\npop v null\ntype x\ntype y\ntype g\ntype w\ndrop g\ndrop g\ndrop null\npop v x\npost w\nwait w\nlocal q w\nsame q x\n",
        b"[a]\n6 ! E8\n11 ! E11\nsame y z false\nsame u x true\npop v null\ntype x 1\ntype y 0\ntype g 2\ntype w 3\n21 ! E2\n23 ! E15\nsame q x true\n[end]\nglobals 0 weaks 1 live 2 used 0\n",
    ),
    (
        b"vm threads 1 slots 4 objects 8 words 16 locals 16\nthread a\nobjs a 2 null\nstring s 104\nset a 0 s\nget t a 0\nsame t s\nslen t\nlen t\nset a 2 s\nset a 0 null\nget u a 0\nload a 0\nint b 14\nint b 13\nstore b 12 -5\nload b 12\nstore b 13 2147483648\nbyte c 1\nobjs z 0 null\nlen z\n",
        b"[a]\nsame t s true\nslen t 1\n9 ! E5\n10 ! E7\nget u null\n13 ! E6\n14 ! E10 3\nload b 12 -5\n18 ! E18\n19 ! E10 16\nlen z 0\n[end]\nglobals 0 weaks 0 live 4 used 16\n",
    ),
    (
        b"vm threads 1 slots 4 objects 8 words 16 locals 16\nthread a\nint a 2\nelems e a\neput e 0 5\nrelease e a commit\neput e 1 6\neget e 1\nrelease e a abort\nload a 0\nload a 1\neget e 0\nstring s 104 105\nchars s\nelems e s\n",
        b"[a]\neget e 1 6\nload a 0 5\nload a 1 0\n12 ! E2\nchars s 104 105\n15 ! E5\n[end]\nglobals 0 weaks 0 live 2 used 4\n",
    ),
    (
        b"vm threads 1 slots 4 objects 8 words 16 locals 16\nthread a\nbyte a 2\nstring s 104 105\ncrit r a\ncritstr q s\ncset r 0 -128\ncset r 1 128\ncset q 0 1\ncget q 1\nplain p\nendcrit abort\ncget q 1\nendcrit copy\nload a 0\nendcrit commit\ncrit r a\ncrit r a\n",
        b"[a]\n8 ! E18\n9 ! E5\ncget q 1 105\n11 ! E19\n13 ! E2\nload a 0 -128\n16 ! E19\n[end]\nglobals 0 weaks 0 live 2 used 4\n",
    ),
    (
        b"vm threads 1 slots 4 objects 8 words 9 locals 16\nthread a\nint a 3\nint b 2\nint c 4\nstore c 0 1\nstore c 3 4\nweak w b\ndrop b\ngc\ntype w\nsame w null\nload c 0\nload c 3\ndrop a\ngcann 1\nload c 3\nint d 5\nload d 4\n",
        b"[a]\ngc cleared 1 dropped 1 used 7\ntype w 3\nsame w null true\nload c 0 1\nload c 3 4\ngc cleared 0 dropped 1 used 4\nload c 3 4\nload d 4 0\n[end]\nglobals 0 weaks 1 live 2 used 9\n",
    ),
];

#[test]
fn a_script_of_each_group_prints_what_it_means(rt: HostRuntime) -> Result<(), Fail> {
    for (script, wanted) in GROUPS {
        prints(&rt, rt.alloc(), script, wanted)?;
    }
    Ok(())
}
