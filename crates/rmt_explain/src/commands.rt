//! The commands, and which file each word of them names.

/// What a file is to a command.
#[derive(Clone, Copy, Debug, PartialEq, Eq)]
pub enum Role {
    Program,
    Entries,
    /// An image that is read.
    Image,
    /// An image that is written.
    Written,
    /// A map that is written behind it.
    WrittenMap,
    /// A map that is read.
    Map,
    Packets,
    /// A group text.
    Groups,
    /// A capture that is read.
    Capture,
    /// What the names of the captures that are written begin with.
    Prefix,
    /// A word that names no file.
    Number,
}

/// A command.
#[derive(Clone, Copy, Debug)]
pub struct Form {
    /// Its first word.
    pub name: &'static str,
    /// The words behind it, as the help names them.
    pub operands: &'static [&'static str],
    /// Whether the image and the map that they name are written, and not read.
    pub writes: bool,
    /// What the command does.
    pub purpose: &'static str,
}

/// The commands, in the order of the help; of two with one name the shorter one first.
pub const FORMS: [Form; 10] = [
    Form {
        name: "compile",
        operands: &["PROGRAM", "ENTRIES", "IMAGE"],
        writes: true,
        purpose: "write the image of a program with its entries",
    },
    Form {
        name: "compile",
        operands: &["PROGRAM", "ENTRIES", "IMAGE", "MAP"],
        writes: true,
        purpose: "write its map too, which tells where all stands",
    },
    Form {
        name: "improve",
        operands: &["PROGRAM", "ENTRIES", "IMAGE", "BUDGET"],
        writes: true,
        purpose: "write the image with the best of BUDGET tries at placing the tables",
    },
    Form {
        name: "sim",
        operands: &["IMAGE", "PACKETS"],
        writes: false,
        purpose: "run packets through the chip of an image",
    },
    Form {
        name: "probe",
        operands: &["IMAGE", "PACKETS", "CYCLE"],
        writes: false,
        purpose: "show the header vectors in the chip at a cycle",
    },
    Form {
        name: "plain",
        operands: &["PROGRAM", "ENTRIES", "PACKETS"],
        writes: false,
        purpose: "run packets through the program itself",
    },
    Form {
        name: "report",
        operands: &["IMAGE"],
        writes: false,
        purpose: "tell as JSON what an image uses of the chip",
    },
    Form {
        name: "sample",
        operands: &["N"],
        writes: false,
        purpose: "make a large program with N entries a table, and run it",
    },
    Form {
        name: "switch",
        operands: &["IMAGE", "GROUPS", "CAPTURE", "OUT", "EVERY"],
        writes: false,
        purpose: "send the frames of a capture to ports, and write OUT.P.pcap of each port P",
    },
    Form {
        name: "verify",
        operands: &["PROGRAM", "ENTRIES", "IMAGE", "MAP"],
        writes: false,
        purpose: "tell whether an image and its map belong to a program with its entries",
    },
];

/// The command of some words: of those with the name of the first word the longest that they fill, or the shortest.
pub fn form_of(words: &[String]) -> Option<&'static Form> {
    let name = words.first()?;
    let mut found = None;
    for form in FORMS.iter() {
        if form.name == name.as_str() && (found.is_none() || form.operands.len() < words.len()) {
            found = Some(form);
        }
    }
    found
}

/// What the word of a number is, the words counted from 0 with the command's name.
pub fn role_of(words: &[String], at: usize) -> Option<Role> {
    let form = form_of(words)?;
    let operand = form.operands.get(at.checked_sub(1)?)?;
    Some(role_of_operand(operand, form.writes))
}

/// What a word is that the help names so, in a command that writes its image or not.
fn role_of_operand(operand: &str, writes: bool) -> Role {
    match operand {
        "PROGRAM" => Role::Program,
        "ENTRIES" => Role::Entries,
        "IMAGE" if writes => Role::Written,
        "IMAGE" => Role::Image,
        "MAP" if writes => Role::WrittenMap,
        "MAP" => Role::Map,
        "PACKETS" => Role::Packets,
        "GROUPS" => Role::Groups,
        "CAPTURE" => Role::Capture,
        "OUT" => Role::Prefix,
        _ => Role::Number,
    }
}

/// The number of the word that names the file of a role.
pub fn word_of(words: &[String], role: Role) -> Option<usize> {
    for at in 1..words.len() {
        if role_of(words, at) == Some(role) {
            return Some(at);
        }
    }
    None
}

/// How many bytes a file may have that is read.
pub fn limit_of(role: Role) -> Option<u64> {
    match role {
        Role::Program => Some(1_048_576),
        Role::Entries => Some(67_108_864),
        Role::Image | Role::Map => Some(268_435_456),
        Role::Packets => Some(1_099_511_627_776),
        Role::Groups => Some(1_048_576),
        Role::Capture => Some(16_777_216),
        Role::Written | Role::WrittenMap | Role::Prefix | Role::Number => None,
    }
}

/// What a file is called in a sentence.
pub fn role_name(role: Role) -> &'static str {
    match role {
        Role::Program => "a program",
        Role::Entries => "an entry text",
        Role::Image | Role::Written => "an image",
        Role::Map | Role::WrittenMap => "a map",
        Role::Packets => "a packet text",
        Role::Groups => "a group text",
        Role::Capture | Role::Prefix => "a capture",
        Role::Number => "a number",
    }
}
