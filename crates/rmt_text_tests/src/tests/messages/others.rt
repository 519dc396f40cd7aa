//! Words that are no command, files, images, packets, and programs that don't fit.

use crate::tests::compare::same_bytes;
use crate::tests::messages::{COMPILE, PLAIN, SIM, SWITCH, message, message_of};
use rmt_explain::commands::{FORMS, Form};
use rmt_explain::ending::Texts;
use std::alloc::{AllocError, Global};
use std::io::ErrorKind;
use std::test::*;

const REPORT: &[&str] = &["report", "i"];

/// A table on 48 bits whose entries don't load.
const NO_LOAD: &str = "header h { k : 48; } next accept;
action no() { }
table t { exact h.k; actions no; size 64; default no(); }
control { apply t; }
";

/// Words, a status, and the message.
type Call = (&'static [&'static str], u8, &'static str);

/// Words that are no command, and files that can't be read or written.
const CALLS: [Call; 13] = [
    (
        &[],
        1,
        "rmt: no command is given
",
    ),
    (
        &["comple", "p"],
        1,
        "rmt: word 1, `comple`, is no command
",
    ),
    (
        &["--version"],
        1,
        "rmt: word 1, `--version`, is no command
",
    ),
    (
        &["sim", "i"],
        1,
        "rmt: PACKETS is missing: the command is `sim IMAGE PACKETS`
",
    ),
    (
        &["compile"],
        1,
        "rmt: PROGRAM is missing: the command is `compile PROGRAM ENTRIES IMAGE`
",
    ),
    (
        &["report", "i", "x"],
        1,
        "rmt: word 3, `x`, is one too many: the command is `report IMAGE`
",
    ),
    (
        &["probe", "i", "k", "z"],
        1,
        "rmt: word 4, `z`, is no CYCLE: 1 to 9 decimal digits are wanted
",
    ),
    (
        &["improve", "p", "e", "i", "0"],
        1,
        "rmt: word 5, `0`, is no BUDGET: a number from 1 to 1,000 is wanted, in decimal digits
",
    ),
    (
        &["sample", "0"],
        1,
        "rmt: word 2, `0`, is no N: a number from 1 to 100,000 is wanted, in decimal digits
",
    ),
    (
        SIM,
        2,
        "rmt: a file can't be read
",
    ),
    (
        SIM,
        3,
        "rmt: standard output can't be written
",
    ),
    (
        COMPILE,
        3,
        "rmt: standard output can't be written, or i; if the image was written, it stands whole
",
    ),
    (
        &["switch", "i", "g", "c", "o", "0"],
        1,
        "rmt: word 6, `0`, is no EVERY: a number from 1 to 999,999 is wanted, in decimal digits
",
    ),
];

/// Words, a status, the name of a file and its fault, and the message.
type Fault = (
    &'static [&'static str],
    u8,
    &'static str,
    ErrorKind,
    &'static str,
);

/// Files that can't be read or written, or are too long.
const FAULTS: [Fault; 8] = [
    (
        COMPILE,
        2,
        "e",
        ErrorKind::NotFound,
        "rmt: e can't be read: there is no file of this name, or no folder of its path
",
    ),
    (
        COMPILE,
        2,
        "p",
        ErrorKind::IsADirectory,
        "rmt: p can't be read: it is a folder
",
    ),
    (
        SIM,
        2,
        "k",
        ErrorKind::PermissionDenied,
        "rmt: k can't be read: there is no permission
",
    ),
    (
        COMPILE,
        3,
        "i",
        ErrorKind::StorageFull,
        "rmt: i can't be written: the disk is full; what it holds now is not known
",
    ),
    (
        COMPILE,
        3,
        "i",
        ErrorKind::PermissionDenied,
        "rmt: i can't be written: there is no permission; what it holds now is not known
",
    ),
    (
        COMPILE,
        9,
        "e",
        ErrorKind::FileTooLarge,
        "rmt: a file is longer than its limit
  e: an entry text has at most 67,108,864 bytes
",
    ),
    (
        SWITCH,
        9,
        "c",
        ErrorKind::FileTooLarge,
        "rmt: a file is longer than its limit
  c: a capture has at most 16,777,216 bytes
",
    ),
    (
        SWITCH,
        3,
        "o.2.pcap",
        ErrorKind::StorageFull,
        "rmt: o.2.pcap can't be written: the disk is full; what it holds now is not known, and the captures of lower ports stand whole
",
    ),
];

/// Words, a status, the last line, and the message.
type Ended = (&'static [&'static str], u8, &'static str, &'static str);

/// Images and captures that are none, limits that are passed, want of memory, and programs that don't fit.
const ENDED: [Ended; 16] = [
    (
        SIM,
        7,
        "bad image 1\n",
        "rmt: i is no image: it doesn't begin with the letters RMTI, so it is another kind of file; give the file that `compile` wrote
",
    ),
    (
        SIM,
        7,
        "bad image 2\n",
        "rmt: i is no image: its version is none of 1, 2 and 3; compile it again with this program
",
    ),
    (
        REPORT,
        7,
        "bad image 3\n",
        "rmt: i is no image: it ends too early; copy it again, or compile it again
",
    ),
    (
        REPORT,
        7,
        "bad image 4\n",
        "rmt: i is no image: it breaks a rule of form, so it is damaged or was made otherwise; compile it again
",
    ),
    (
        REPORT,
        7,
        "bad image 5\n",
        "rmt: i is no image: bytes stand behind its end; copy it again, or compile it again
",
    ),
    (
        REPORT,
        7,
        "bad image 6 limit 7 stage 2 sum 17 need 0\n",
        "rmt: i doesn't fit the chip: stage 2 takes 17 of at most 16 TCAM blocks; stages are counted from 0
",
    ),
    (
        REPORT,
        7,
        "bad image 6 limit 14 stage 2 sum 129 need 0\n",
        "rmt: i doesn't fit the chip: it takes 129 of at most 128 `apply`s and `if`s; stages are counted from 0
",
    ),
    (
        SIM,
        7,
        "bad image 6 limit 16 stage 1 sum 373 need 0\n",
        "rmt: i doesn't fit the chip: it takes 373 of at most 372 cycles before the last stage starts; stages are counted from 0
",
    ),
    (
        REPORT,
        9,
        "",
        "rmt: a file is longer than its limit
  i: an image has at most 268,435,456 bytes
",
    ),
    (
        REPORT,
        10,
        "",
        "rmt: the system refused memory; no file was changed
  Give the program more memory, or make the tables, entries or packets smaller.
",
    ),
    (
        SWITCH,
        8,
        "bad packets 11 line 0
",
        "rmt: c is no capture: it doesn't begin with a magic of pcap, so it is another kind of file; of a capture in pcapng `editcap -F pcap` makes one
",
    ),
    (
        SWITCH,
        10,
        "",
        "rmt: the system refused memory; captures that were written before stand whole
  Give the program more memory, or make the tables, entries or packets smaller.
",
    ),
    (
        COMPILE,
        6,
        "no fit parser 300\n",
        "rmt: the headers have 300, and the chip has room for 256 cases and `else`s: take fewer cases, or put a mask on them
",
    ),
    (
        COMPILE,
        6,
        "no fit action total h.a\n",
        "rmt: what action `total` leaves in `h.a` takes more than one operation on old values: do one operation here, and the others in the action of a table applied behind it
",
    ),
    (
        COMPILE,
        6,
        "no fit phv h.a 32\n",
        "rmt: no word of 32 bits or more is left in the header vector for a piece of `h.a`: take fewer or narrower fields
",
    ),
    (
        COMPILE,
        6,
        "no fit stage t 0:7:16:2 1:7:12:6\n",
        "rmt: `t` has no room in any stage from its earliest one on; in stage 0 16 of 16 TCAM blocks are in use, and it needs 2 more: make ternary and prefix tables smaller or narrower, or use exact ones
",
    ),
];

/// Words, the last line, the packet line, and the message.
type Packet = (
    &'static [&'static str],
    &'static str,
    &'static str,
    &'static str,
);

/// Packet texts.
const PACKETS: [Packet; 8] = [
    (
        SIM,
        "bad packets 1 line 2\n",
        "x 00",
        "k:2:1: `x` stands where the line has its port of 1 to 10 digits and one space
  2 | x 00
    | ^
",
    ),
    (
        SIM,
        "bad packets 1 line 2\n",
        "1 0g",
        "k:2:4: `g` is no hexadecimal digit: the frame is digits up to the end of its line
  2 | 1 0g
    |    ^
",
    ),
    (
        SIM,
        "bad packets 1 line 2\n",
        "1 00\r",
        "k:2:5: a carriage return is no hexadecimal digit: the frame is digits up to the end of its line
  2 | 1 00 
    |     ^
",
    ),
    (
        SIM,
        "bad packets 1 line 2\n",
        "1 000",
        "k:2:6: the frame ends in the midst of a byte: give two digits a byte
  2 | 1 000
    |      ^
",
    ),
    (
        SIM,
        "bad packets 1 line 7\n",
        "12",
        "k:7:3: the line ends where a port, one space and a frame are wanted
  7 | 12
    |   ^
",
    ),
    (
        PLAIN,
        "bad packets 2 line 1\n",
        "512 00",
        "k:1:1: the port is above 511: a packet comes on a port from 0 to 511
  1 | 512 00
    | ^
",
    ),
    (
        PLAIN,
        "bad packets 3 line 1\n",
        "5 ",
        "k:1:3: the frame has no byte: give 1 to 9,216 bytes as hexadecimal digits
  1 | 5 
    |   ^
",
    ),
    (
        SIM,
        "bad packets 3 line 1\n",
        "5 5a5a5a5a5a5a5a5a5a5a5a5a5a5a5a5a5a5a5a5a5a5a5a5a5a5a5a5a5a5a5a5a5a5a5a5a5a5a5a5a5a5a5a5a5a5a5a5a5a5a5a5a5a5a5a5a5a5a5a5a5a5a5a5a5a5a5a5a5a5a5a5a5a5a5a5a5a5a5a5a5a5a5a5a5a5a5a5a5a5a5a5a5a5a5a5a5a5a5a5a",
        "k:1:3: the frame has more than 18,432 digits: a frame has at most 9,216 bytes
  1 | 5 5a5a5a5a5a5a5a5a5a5a5a5a5a5a5a5a5a5a5a5a5a5a5a5a5a5a5a5a5a5a5a5a5a5a5a5a5a5a5a5a5a5a5a5a5a5a5a5a5a..
    |   ^
",
    ),
];

/// The last line, the text of the program, and the message.
type NoFit = (&'static str, &'static str, &'static str);

/// Programs that don't fit, quoted.
const NO_FIT: [NoFit; 4] = [
    (
        "no fit lookup h 6\n",
        "header h { x : 24; y : 24; } next (x, y) { 1, 2 : accept; else : reject; }
control { }
",
        "p:1:8: the `next` of header `h` selects by fields with bits in 6, and the chip has room for 4 bytes: select by fewer fields, or by ones that lie side by side
  1 | header h { x : 24; y : 24; } next (x, y) { 1, 2 : accept; else : reject; }
    |        ^
",
    ),
    (
        "no fit step h 65\n",
        "header h {\n  f0 : 8;\n}\n",
        "p:1:8: header `h` takes 65, and the chip has room for 64 extracts, one and one for each piece of a field: join fields that are used together, or split the header in two
  1 | header h {
    |        ^
",
    ),
    (
        "no fit action total h.a\n",
        "header h { a : 8; } next accept;\naction total() { }\n",
        "p:2:8: what action `total` leaves in `h.a` takes more than one operation on old values: do one operation here, and the others in the action of a table applied behind it
  2 | action total() { }
    |        ^^^^^
",
    ),
    (
        "no fit stage t 0:6:76:38 1:6:80:38 2:7:16:4\n",
        "table t { ",
        "p:1:7: `t` has no room in any stage from its earliest one on; in stage 0 76 of 106 SRAM blocks are in use, and it needs 38 more; in stage 2 16 of 16 TCAM blocks are in use, and it needs 4 more: make ternary and prefix tables smaller or narrower, or use exact ones
  1 | table t { 
    |       ^
",
    ),
];

/// Entries of the table on 48 bits, and the message.
type NoLoad = (&'static str, &'static str);

/// Entries that don't load.
const NO_LOADS: [NoLoad; 2] = [
    (
        "t 0x020000000000 no
t 0x020000000001 no
t 0x020000000002 no
t 0x020000000003 no
t 0x020000000004 no
t 0x020000000005 no
t 0x020000000006 no
t 0x020000000007 no
t 0x020000000008 no
t 0x020000000009 no
t 0x02000000000a no
t 0x02000000000b no
t 0x02000000000c no
t 0x02000000000d no
t 0x02000000000e no
t 0x02000000000f no
t 0x020000000010 no
t 0x020000000011 no
t 0x020000000012 no
t 0x020000000013 no
t 0x020000000014 no
t 0x020000000015 no
t 0x020000000016 no
t 0x020000000017 no
t 0x020000000018 no
t 0x020000000019 no
t 0x02000000001a no
t 0x02000000001b no
t 0x02000000001c no
t 0x02000000001d no
t 0x02000000001e no
t 0x02000000001f no
t 0x020000000020 no
t 0x020000000021 no
t 0x020000000022 no
t 0x020000000023 no
t 0x020000000024 no
t 0x020000000025 no
t 0x020000000026 no
t 0x020000000027 no
",
        "p:3:7: table `t` has 9 entries that have only 8 cells together, under each of eight seeds: its 40 keys differ in their last three bytes alone, so put a field of 24 bits or more that is always 0 behind the key, as `meta { zero : 24; }`, and a 0 into each entry; `tools/spread` writes both
  3 | table t { exact h.k; actions no; size 64; default no(); }
    |       ^
",
    ),
    (
        "t 0x000000000000 no
t 0x010000000000 no
t 0x020000000000 no
t 0x030000000000 no
t 0x040000000000 no
t 0x050000000000 no
t 0x060000000000 no
t 0x070000000000 no
t 0x080000000000 no
t 0x090000000000 no
t 0x0a0000000000 no
t 0x0b0000000000 no
t 0x0c0000000000 no
t 0x0d0000000000 no
t 0x0e0000000000 no
t 0x0f0000000000 no
t 0x100000000000 no
t 0x110000000000 no
t 0x120000000000 no
t 0x130000000000 no
t 0x140000000000 no
t 0x150000000000 no
t 0x160000000000 no
t 0x170000000000 no
t 0x180000000000 no
t 0x190000000000 no
t 0x1a0000000000 no
t 0x1b0000000000 no
t 0x1c0000000000 no
t 0x1d0000000000 no
t 0x1e0000000000 no
t 0x1f0000000000 no
t 0x200000000000 no
t 0x210000000000 no
t 0x220000000000 no
t 0x230000000000 no
t 0x240000000000 no
t 0x250000000000 no
t 0x260000000000 no
t 0x270000000000 no
",
        "p:3:7: table `t` has 9 entries that have only 8 cells together, under each of eight seeds: raise the table's `size`; where many keys differ in their last three bytes alone, a field of 24 bits or more that is always 0 behind the key makes them load
  3 | table t { exact h.k; actions no; size 64; default no(); }
    |       ^
",
    ),
];

/// The last line, the group text, and the message.
type Group = (&'static str, &'static str, &'static str);

/// Group texts.
const GROUPS: [Group; 5] = [
    (
        "bad entries 8 line 2
",
        "300 1
300 2
",
        "g:2:1: `300` has a line already: put its ports on one line
  2 | 300 2
    | ^^^
",
    ),
    (
        "bad entries 8 line 1\n",
        "300",
        "g:1:4: a port is missing: give 1 to 8 ports, from 0 to 511, behind the group
  1 | 300
    |    ^
",
    ),
    (
        "bad entries 8 line 1\n",
        " 255 1",
        "g:1:2: `255` is no group: a line begins with a number from 256 to 511
  1 |  255 1
    |  ^^^
",
    ),
    (
        "bad entries 8 line 1\n",
        "300 1 512",
        "g:1:7: `512` is no port: a number from 0 to 511 is wanted
  1 | 300 1 512
    |       ^^^
",
    ),
    (
        "bad entries 8 line 1\n",
        "300 1 01",
        "g:1:7: `01` stands twice: the ports of a group differ
  1 | 300 1 01
    |       ^^
",
    ),
];

/// What the whole help says behind the forms of the commands.
const NOTES: &str =
    "A file name is any word. BUDGET is a number from 1 to 1,000, CYCLE 1 to 9 decimal digits,
N a number from 1 to 100,000, and EVERY one from 1 to 999,999.
A program has at most 1,048,576 bytes, an entry text 67,108,864, an image or a map 268,435,456,
a packet text 1,099,511,627,776, a group text 1,048,576, and a capture 16,777,216.

Results go to standard output, and messages like this one to standard error.
Exit status: 0 done, 1 no command, 2 a file can't be read, 3 a file or the output can't be
written, 4 a bad program, 5 bad entries, 6 the program doesn't fit the chip, 7 a bad image,
8 bad packets, 9 a file is too long, 10 no memory, 11 the words are no text.

docs/commands.md tells each command, docs/language.md the language of programs, entries
and packets, and docs/glossary.md the words.

";

/// The forms of all commands, as they stand behind the first line where the words are no command.
fn forms(alloc: Global) -> Result<String, AllocError> {
    let mut text = String::from_str(alloc, "The commands:\n")?;
    for form in FORMS.iter() {
        push_form(&mut text, form)?;
    }
    Ok(text)
}

/// Writes the form of a command and what it does.
fn push_form(text: &mut String, form: &Form) -> Result<(), AllocError> {
    write!(text, "  rmt {}", form.name)?;
    for operand in form.operands {
        write!(text, " {operand}")?;
    }
    write!(text, "\n      {}\n", form.purpose)
}

/// The message of a call: where its words are no command, a line and the forms of all.
fn wanted(alloc: Global, status: u8, line: &str) -> Result<String, AllocError> {
    let mut text = String::from_str(alloc, line)?;
    if status == 1 {
        text.push_str(forms(alloc)?.as_str())?;
    }
    Ok(text)
}

/// What is told of a line of a packet text.
fn told_of_packet(
    alloc: Global,
    words: &[&str],
    last_line: &str,
    line: &str,
) -> Result<Vec<u8>, AllocError> {
    let texts = Texts {
        packet_line: Some(line.as_bytes()),
        ..Texts::none()
    };
    message(alloc, words, 8, last_line, &texts)
}

/// What is told of a program that doesn't fit.
fn told_of_program(alloc: Global, last_line: &str, text: &str) -> Result<Vec<u8>, AllocError> {
    let texts = Texts {
        program: Some(text.as_bytes()),
        ..Texts::none()
    };
    message(alloc, COMPILE, 6, last_line, &texts)
}

/// What is told of entries that don't load.
fn told_of_entries(alloc: Global, text: &str) -> Result<Vec<u8>, AllocError> {
    let texts = Texts {
        program: Some(NO_LOAD.as_bytes()),
        entries: Some(text.as_bytes()),
        packet_line: None,
    };
    message(alloc, COMPILE, 6, "no fit load t 9 8\n", &texts)
}

/// What is told of a group text.
fn told_of_groups(alloc: Global, last_line: &str, text: &str) -> Result<Vec<u8>, AllocError> {
    let texts = Texts {
        entries: Some(text.as_bytes()),
        ..Texts::none()
    };
    message(alloc, SWITCH, 5, last_line, &texts)
}

#[test]
fn calls(rt: HostRuntime) {
    for &(words, status, line) in &CALLS {
        let told = message(rt.alloc(), words, status, "", &Texts::none());
        let wanted = wanted(rt.alloc(), status, line).expect(&rt, "memory");
        same_bytes(&rt, told.expect(&rt, "memory").as_slice(), wanted.as_str());
    }
}

#[test]
fn faults_of_files(rt: HostRuntime) {
    for &(words, status, name, kind, wanted) in &FAULTS {
        let fault = Some((name, kind));
        let told = message_of(rt.alloc(), words, status, "", fault, &Texts::none());
        same_bytes(&rt, told.expect(&rt, "memory").as_slice(), wanted);
    }
}

#[test]
fn last_lines(rt: HostRuntime) {
    for &(words, status, last_line, wanted) in &ENDED {
        let told = message(rt.alloc(), words, status, last_line, &Texts::none());
        same_bytes(&rt, told.expect(&rt, "memory").as_slice(), wanted);
    }
}

#[test]
fn packet_texts(rt: HostRuntime) {
    for &(words, last_line, line, wanted) in &PACKETS {
        let told = told_of_packet(rt.alloc(), words, last_line, line).expect(&rt, "memory");
        same_bytes(&rt, told.as_slice(), wanted);
    }
}

#[test]
fn programs_that_do_not_fit(rt: HostRuntime) {
    for &(last_line, text, wanted) in &NO_FIT {
        let told = told_of_program(rt.alloc(), last_line, text).expect(&rt, "memory");
        same_bytes(&rt, told.as_slice(), wanted);
    }
}

#[test]
fn entries_that_do_not_load(rt: HostRuntime) {
    for &(text, wanted) in &NO_LOADS {
        let told = told_of_entries(rt.alloc(), text).expect(&rt, "memory");
        same_bytes(&rt, told.as_slice(), wanted);
    }
}

#[test]
fn group_texts(rt: HostRuntime) {
    for &(last_line, text, wanted) in &GROUPS {
        let told = told_of_groups(rt.alloc(), last_line, text).expect(&rt, "memory");
        same_bytes(&rt, told.as_slice(), wanted);
    }
}

/// The whole help.
fn help(alloc: Global) -> Result<String, AllocError> {
    let forms = forms(alloc)?;
    let head = "rmt: a compiler and a simulator for a match-action switch chip\n";
    format!(in alloc; "{head}{forms}{NOTES}")
}

#[test]
fn whole_help(rt: HostRuntime) {
    let wanted = help(rt.alloc()).expect(&rt, "memory");
    for &word in &["help", "--help", "-h"] {
        let told = message(rt.alloc(), &[word], 1, "", &Texts::none());
        same_bytes(&rt, told.expect(&rt, "memory").as_slice(), wanted.as_str());
    }
}
