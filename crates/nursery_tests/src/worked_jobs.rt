//! Worked jobs with their whole reports. The reports were worked out by hand from docs/RULES.md, never copied from a run.

use crate::fixtures::{Row, TWO_LINES};

/// Each byte once.
const EVERY_BYTE: &[u8] = b"\
\x00\x01\x02\x03\x04\x05\x06\x07\x08\x09\x0a\x0b\x0c\x0d\x0e\x0f\
\x10\x11\x12\x13\x14\x15\x16\x17\x18\x19\x1a\x1b\x1c\x1d\x1e\x1f\
\x20\x21\x22\x23\x24\x25\x26\x27\x28\x29\x2a\x2b\x2c\x2d\x2e\x2f\
\x30\x31\x32\x33\x34\x35\x36\x37\x38\x39\x3a\x3b\x3c\x3d\x3e\x3f\
\x40\x41\x42\x43\x44\x45\x46\x47\x48\x49\x4a\x4b\x4c\x4d\x4e\x4f\
\x50\x51\x52\x53\x54\x55\x56\x57\x58\x59\x5a\x5b\x5c\x5d\x5e\x5f\
\x60\x61\x62\x63\x64\x65\x66\x67\x68\x69\x6a\x6b\x6c\x6d\x6e\x6f\
\x70\x71\x72\x73\x74\x75\x76\x77\x78\x79\x7a\x7b\x7c\x7d\x7e\x7f\
\x80\x81\x82\x83\x84\x85\x86\x87\x88\x89\x8a\x8b\x8c\x8d\x8e\x8f\
\x90\x91\x92\x93\x94\x95\x96\x97\x98\x99\x9a\x9b\x9c\x9d\x9e\x9f\
\xa0\xa1\xa2\xa3\xa4\xa5\xa6\xa7\xa8\xa9\xaa\xab\xac\xad\xae\xaf\
\xb0\xb1\xb2\xb3\xb4\xb5\xb6\xb7\xb8\xb9\xba\xbb\xbc\xbd\xbe\xbf\
\xc0\xc1\xc2\xc3\xc4\xc5\xc6\xc7\xc8\xc9\xca\xcb\xcc\xcd\xce\xcf\
\xd0\xd1\xd2\xd3\xd4\xd5\xd6\xd7\xd8\xd9\xda\xdb\xdc\xdd\xde\xdf\
\xe0\xe1\xe2\xe3\xe4\xe5\xe6\xe7\xe8\xe9\xea\xeb\xec\xed\xee\xef\
\xf0\xf1\xf2\xf3\xf4\xf5\xf6\xf7\xf8\xf9\xfa\xfb\xfc\xfd\xfe\xff";

/// Two lines, which contain each byte once except the newline: ten bytes shown by 40, and 245 by 696.
const EVERY_BYTE_SHOWN: &[u8] = b"job main 0
task main 0 0 done
  line 0+10 \\x00\\x01\\x02\\x03\\x04\\x05\\x06\\x07\\x08\\x09
  line 11+245 \
\\x0b\\x0c\\x0d\\x0e\\x0f\
\\x10\\x11\\x12\\x13\\x14\\x15\\x16\\x17\\x18\\x19\\x1a\\x1b\\x1c\\x1d\\x1e\\x1f\
\x20!\"#$%&'()*+,-./\
0123456789:;<=>?\
@ABCDEFGHIJKLMNO\
PQRSTUVWXYZ[\\\\]^_\
`abcdefghijklmno\
pqrstuvwxyz{|}~\\x7f\
\\x80\\x81\\x82\\x83\\x84\\x85\\x86\\x87\\x88\\x89\\x8a\\x8b\\x8c\\x8d\\x8e\\x8f\
\\x90\\x91\\x92\\x93\\x94\\x95\\x96\\x97\\x98\\x99\\x9a\\x9b\\x9c\\x9d\\x9e\\x9f\
\\xa0\\xa1\\xa2\\xa3\\xa4\\xa5\\xa6\\xa7\\xa8\\xa9\\xaa\\xab\\xac\\xad\\xae\\xaf\
\\xb0\\xb1\\xb2\\xb3\\xb4\\xb5\\xb6\\xb7\\xb8\\xb9\\xba\\xbb\\xbc\\xbd\\xbe\\xbf\
\\xc0\\xc1\\xc2\\xc3\\xc4\\xc5\\xc6\\xc7\\xc8\\xc9\\xca\\xcb\\xcc\\xcd\\xce\\xcf\
\\xd0\\xd1\\xd2\\xd3\\xd4\\xd5\\xd6\\xd7\\xd8\\xd9\\xda\\xdb\\xdc\\xdd\\xde\\xdf\
\\xe0\\xe1\\xe2\\xe3\\xe4\\xe5\\xe6\\xe7\\xe8\\xe9\\xea\\xeb\\xec\\xed\\xee\\xef\
\\xf0\\xf1\\xf2\\xf3\\xf4\\xf5\\xf6\\xf7\\xf8\\xf9\\xfa\\xfb\\xfc\\xfd\\xfe\\xff
";

/// The plain steps, the limit, and how bytes of a line are shown.
pub(crate) const PLAIN: &[Row] = &[
    (
        "find \"er\";",
        TWO_LINES,
        b"job main 0
task main 0 0 done
  line 0+5 error
",
    ),
    (
        "sleep 2; raise A; sleep 3;",
        b"",
        b"job main 2
task main 0 2 raised A(main@2)
",
    ),
    (
        "sleep 100;",
        b"",
        b"job main 100
task main 0 100 done
",
    ),
    ("sleep 101;", b"", b"limit 100\n"),
    ("forever;", b"", b"limit 100\n"),
    (
        "find \"\\\\\"; find \"\\xff\";",
        b"\x00\\\n\xff",
        b"job main 0
task main 0 0 done
  line 0+2 \\x00\\\\
  line 3+1 \\xff
",
    ),
    (
        "find \"\\x00\"; find \"a\";",
        b"\x00\\\n\xff\x00\na\r\n",
        b"job main 0
task main 0 0 done
  line 0+2 \\x00\\\\
  line 3+2 \\xff\\x00
  line 6+2 a\\x0d
",
    ),
    (
        "head 1;",
        b"a\r\n",
        b"job main 0
task main 0 0 done
  line 0+2 a\\x0d
",
    ),
    ("head 1000;", EVERY_BYTE, EVERY_BYTE_SHOWN),
];

/// Scopes, deadlines and shields.
pub(crate) const SCOPES: &[Row] = &[
    (
        "scope s after 5 { sleep 5; }",
        b"",
        b"job main 5
task main 0 5 done
  scope s 5 caught
",
    ),
    (
        "scope s after 0 { find \"a\"; checkpoint; }",
        b"a",
        b"job main 0
task main 0 0 done
  line 0+1 a
  scope s 0 caught
",
    ),
    (
        "scope s { cancel s; checkpoint; sleep 3; }",
        b"",
        b"job main 1
task main 0 1 done
  scope s 1 caught
",
    ),
    (
        "scope s after 4 { try { forever; } finally { scope g shield { sleep 3; } sleep 1; } }",
        b"",
        b"job main 7
task main 0 7 done
  scope g 7 passed
  scope s 7 caught
",
    ),
    (
        "scope s after 1 { try { forever; } finally { raise Bad; } }",
        b"",
        b"job main 1
task main 0 1 raised Bad(main@1)
  scope s 1 passed
",
    ),
    (
        "scope o after 3 { scope i after 3 { forever; } checkpoint; }",
        b"",
        b"job main 3
task main 0 3 done
  scope i 3 passed
  scope o 3 caught
",
    ),
    (
        "scope o after 2 { scope i after 4 shield { forever; } sleep 1; }",
        b"",
        b"job main 4
task main 0 4 done
  scope i 4 caught
  scope o 4 caught
",
    ),
    (
        "scope s after 2 fail { forever; }",
        b"",
        b"job main 2
task main 0 2 raised TooSlow(s@2)
  scope s 2 caught
",
    ),
    (
        "try { scope s after 1 fail { forever; } } except TooSlow { sleep 1; }",
        b"",
        b"job main 2
task main 0 2 done
  scope s 1 caught
",
    ),
    (
        "scope s { try { cancel s; sleep 4; } finally { cancel s; checkpoint; } }",
        b"",
        b"job main 1
task main 0 1 done
  scope s 1 caught
",
    ),
    (
        "scope s { cancel s; find \"a\"; }",
        b"a",
        b"job main 0
task main 0 0 done
  line 0+1 a
  scope s 0 passed
",
    ),
    (
        "sleep 5; scope s at 3 { checkpoint; }",
        b"",
        b"job main 5
task main 0 5 done
  scope s 5 caught
",
    ),
];

/// Handlers and cleanup.
pub(crate) const HANDLERS: &[Row] = &[
    (
        "try { raise A; } except A { sleep 2; }",
        b"",
        b"job main 2
task main 0 2 done
",
    ),
    (
        "try { raise A; } except B { sleep 2; }",
        b"",
        b"job main 0
task main 0 0 raised A(main@0)
",
    ),
    (
        "try { raise A; } except A { sleep 1; raise C; }",
        b"",
        b"job main 1
task main 0 1 raised C(main@1)
",
    ),
    (
        "try { raise A; } except A { raise C; } finally { sleep 3; raise D; }",
        b"",
        b"job main 3
task main 0 3 raised D(main@3)
",
    ),
    (
        "try { try { raise A; } except A { raise C; } } except C { }",
        b"",
        b"job main 0
task main 0 0 done
",
    ),
    (
        "try { sleep 1; } except A { raise B; } finally { find \"a\"; }",
        b"a",
        b"job main 1
task main 0 1 done
  line 0+1 a
",
    ),
];

/// Nurseries, their members that fail, and the groups of their exceptions.
pub(crate) const NURSERIES: &[Row] = &[
    (
        "nursery n { start a { sleep 2; raise Boom; } start b { sleep 10; } start c { sleep 2; } }",
        b"",
        b"job main 3
task main 0 3 raised n[Boom(a@2)]
  nursery n 3 caught
task a 0 2 raised Boom(a@2)
task b 0 3 cancelled
task c 0 2 done
",
    ),
    (
        "nursery n { start a { sleep 2; raise A; } start b { sleep 2; raise B; } }",
        b"",
        b"job main 2
task main 0 2 raised n[A(a@2), B(b@2)]
  nursery n 2 passed
task a 0 2 raised A(a@2)
task b 0 2 raised B(b@2)
",
    ),
    (
        "try { nursery n { start a { raise A; } start b { raise B; } } } except A { checkpoint; }",
        b"",
        b"job main 0
task main 0 0 raised n[B(b@0)]
  nursery n 0 passed
task a 0 0 raised A(a@0)
task b 0 0 raised B(b@0)
",
    ),
    (
        "scope o { nursery n { start a { sleep 2; cancel o; sleep 5; } start b { sleep 3; } } }",
        b"",
        b"job main 3
task main 0 3 done
  nursery n 3 passed
  scope o 3 caught
task a 0 3 cancelled
task b 0 3 cancelled
",
    ),
    (
        "scope s after 2 fail { nursery n { start a { forever; } start b { try { forever; } finally { raise Bad; } } } }",
        b"",
        b"job main 2
task main 0 2 raised n[Bad(b@2)]
  nursery n 2 passed
  scope s 2 caught
task a 0 2 cancelled
task b 0 2 raised Bad(b@2)
",
    ),
    (
        "try { nursery n { start a { raise A; } start b { raise B; } } } except A { raise C; }",
        b"",
        b"job main 0
task main 0 0 raised *[C(main@0), n[B(b@0)]]
  nursery n 0 passed
task a 0 0 raised A(a@0)
task b 0 0 raised B(b@0)
",
    ),
    (
        "nursery n { start a { forever; } sleep 1; cancel n; sleep 5; }",
        b"",
        b"job main 2
task main 0 2 done
  nursery n 2 caught
task a 0 2 cancelled
",
    ),
    (
        "nursery n { start a { nursery m { start b { } } } start c { sleep 4; } } sleep 1;",
        b"",
        b"job main 5
task main 0 5 done
  nursery n 4 passed
task a 0 0 done
  nursery m 0 passed
task b 0 0 done
task c 0 4 done
",
    ),
    (
        "nursery n { start a { sleep 1; } raise A; }",
        b"",
        b"job main 1
task main 0 1 raised n[A(main@0)]
  nursery n 1 caught
task a 0 1 cancelled
",
    ),
    (
        "nursery n { }",
        b"",
        b"job main 0
task main 0 0 done
  nursery n 0 passed
",
    ),
];

/// Tasks over parts of the input, and what tasks request from their lines.
pub(crate) const PARTS: &[Row] = &[
    (
        "nursery n { start p over 3 { find \"x\"; } }",
        b"",
        b"job main 0
task main 0 0 done
  nursery n 0 passed
task p.0 0 0 done
task p.1 0 0 done
task p.2 0 0 done
",
    ),
    (
        "nursery n { start p over 2 { longest; head 1; } }",
        b"aa\nb\ncccc\n",
        b"job main 0
task main 0 0 done
  nursery n 0 passed
task p.0 0 0 done
  line 0+2 aa
  line 0+2 aa
task p.1 0 0 done
  line 5+4 cccc
  line 5+4 cccc
",
    ),
    (
        "nursery n { start p over 2 { nursery m { start q over 2 { head 9; } } } }",
        b"aa\nb\ncccc\n",
        b"job main 0
task main 0 0 done
  nursery n 0 passed
task p.0 0 0 done
  nursery m.0 0 passed
task q.0.0 0 0 done
  line 0+2 aa
task q.0.1 0 0 done
  line 3+1 b
task p.1 0 0 done
  nursery m.1 0 passed
task q.1.0 0 0 done
  line 5+4 cccc
task q.1.1 0 0 done
",
    ),
    (
        "need \"zz\" Gone;",
        b"a\n",
        b"job main 0
task main 0 0 raised Gone(main@0)
",
    ),
    (
        "need \"a\" Gone;",
        b"a\n",
        b"job main 0
task main 0 0 done
  line 0+1 a
",
    ),
    (
        "pace 2;",
        b"a\nb\nc",
        b"job main 2
task main 0 2 done
",
    ),
    (
        "pace 2;",
        b"",
        b"job main 0
task main 0 0 done
",
    ),
    (
        "head 2;",
        b"\x00\\\n\xff",
        b"job main 0
task main 0 0 done
  line 0+2 \\x00\\\\
  line 3+1 \\xff
",
    ),
];

/// Jobs that only format 2 allows.
pub(crate) const OF_FORMAT_2: &[Row] = &[
    (
        "repeat 3 { scope s after 2 { sleep 5; } }",
        b"",
        b"job main 6
task main 0 6 done
  scope s.0 2 caught
  scope s.1 4 caught
  scope s.2 6 caught
",
    ),
    (
        "scope o after 1 { nursery n after 2 shield { start a { forever; } } }",
        b"",
        b"job main 2
task main 0 2 done
  nursery n 2 caught
  scope o 2 passed
task a 0 2 cancelled
",
    ),
    (
        "scope o after 1 { nursery n shield { start a { sleep 3; } } checkpoint; }",
        b"",
        b"job main 3
task main 0 3 done
  nursery n 3 passed
  scope o 3 caught
task a 0 3 done
",
    ),
    (
        "repeat 2 { nursery n { start p over 2 { sleep 1; } } }",
        b"",
        b"job main 2
task main 0 2 done
  nursery n.0 1 passed
  nursery n.1 2 passed
task p.0.0 0 1 done
task p.0.1 0 1 done
task p.1.0 1 2 done
task p.1.1 1 2 done
",
    ),
    (
        "repeat 0 { raise A; }",
        b"",
        b"job main 0
task main 0 0 done
",
    ),
    (
        "repeat 5 { sleep 1; raise A; }",
        b"",
        b"job main 1
task main 0 1 raised A(main@1)
",
    ),
    (
        "repeat 1000 { repeat 100 { } }",
        b"",
        b"job main 0
task main 0 0 done
",
    ),
    (
        "scope o after 3 { nursery m { start b { head 1; scope s after 2 { forever; } nursery n shield { sleep 1; } forever; } } }",
        b"\n",
        b"job main 3
task main 0 3 done
  nursery m 3 passed
  scope o 3 caught
task b 0 3 cancelled
  line 0+0\x20
  scope s 2 caught
  nursery n 3 passed
",
    ),
];
