//! What each code of a bad program says, and what to do. `%` stands for the word at the place.

/// A sentence on a code.
#[derive(Clone, Copy)]
pub struct Sentence {
    pub code: u64,
    /// What is wrong.
    pub wrong: &'static str,
    /// What to do.
    pub remedy: &'static str,
}

/// The sentences of the codes from 4 on, by code.
pub const SENTENCES: [Sentence; 18] = [
    Sentence {
        code: 4,
        wrong: "this block stands inside 32 others",
        remedy: "use tables' arms or fewer nested `if`s",
    },
    Sentence {
        code: 5,
        wrong: "% stands a second time",
        remedy: "rename this one or take it out; put all metadata into one `meta`",
    },
    Sentence {
        code: 6,
        wrong: "% is declared nowhere that counts here",
        remedy: "declare it, or mend its spelling",
    },
    Sentence {
        code: 7,
        wrong: "the width % is not from 1 to 128 bits",
        remedy: "use a width from 1 to 128, or split the field",
    },
    Sentence {
        code: 8,
        wrong: "header % has no bit, more than 512 bits, or no whole number of bytes",
        remedy: "fill it up to whole bytes, or split it in two",
    },
    Sentence {
        code: 9,
        wrong: "a header goes on to %, which is declared at or before it",
        remedy: "declare the next header behind this one",
    },
    Sentence {
        code: 10,
        wrong: "% has another width than the field, or does not fit it",
        remedy: "use a field, parameter or number of the field's width",
    },
    Sentence {
        code: 11,
        wrong: "% assigns a field of more than 32 bits",
        remedy: "split the field, or use `&`, `|` or `^`",
    },
    Sentence {
        code: 12,
        wrong: "% is the port that the packet came on, and can't be assigned",
        remedy: "assign `out_port` or another field",
    },
    Sentence {
        code: 13,
        wrong: "table % is applied a second time",
        remedy: "declare a second table for this place",
    },
    Sentence {
        code: 14,
        wrong: "at % the key has a second field behind a prefix, or a field twice",
        remedy: "use `ternary` for more fields, and name each field once",
    },
    Sentence {
        code: 15,
        wrong: "the key of table % has more than 640 bits",
        remedy: "leave fields out of the key",
    },
    Sentence {
        code: 16,
        wrong: "action % is the 15th of its table, which may list 14",
        remedy: "split the table in two",
    },
    Sentence {
        code: 17,
        wrong: "at % the number of values or arguments is wrong, or one does not fit its width",
        remedy: "give one for each name or parameter, each within its width",
    },
    Sentence {
        code: 18,
        wrong: "at % a count of the language is passed",
        remedy: "keep to 1 to 64 headers, 256 actions, 16 parameters, 64 assignments, 256 \
            metadata fields, 128 `apply`s and `if`s, and sizes from 1 to 1,048,576",
    },
    Sentence {
        code: 19,
        wrong: "the text ends without a `control`",
        remedy: "write one, if need be `control { }`",
    },
    Sentence {
        code: 20,
        wrong: "table % is never applied",
        remedy: "apply it in `control`, or take it out",
    },
    Sentence {
        code: 21,
        wrong: "the length of the tail can't be told from its field",
        remedy: "use a field of at most 8 bits, a unit from 1 to 255 and a base up to 255 with \
            which its greatest value makes 0 to 64 bytes",
    },
];

/// A habit of other languages: a word at a place where it can't stand, and what stands for it here.
#[derive(Clone, Copy)]
pub struct Habit {
    pub word: &'static str,
    pub remedy: &'static str,
}

/// Bytes that begin no token, by the bytes from the place on.
pub const BYTE_HABITS: [Habit; 8] = [
    Habit {
        word: "/*",
        remedy: "a comment begins with `//` and ends with its line",
    },
    Habit {
        word: "!=",
        remedy: "there is only `==`: put what is done otherwise into `else`",
    },
    Habit {
        word: "#",
        remedy: "a comment begins with `//`; nothing is included",
    },
    Habit {
        word: "<",
        remedy: "a width stands behind the name, as `kind : 16;`, and there is only `==` to \
            compare",
    },
    Habit {
        word: ">",
        remedy: "a width stands behind the name, as `kind : 16;`, and there is only `==` to \
            compare",
    },
    Habit {
        word: "@",
        remedy: "there are no annotations",
    },
    Habit {
        word: "[",
        remedy: "there are no slices: declare the bits as a field of their own",
    },
    Habit {
        word: "~",
        remedy: "use `^` with a number of ones",
    },
];

/// Words that can't stand where they do.
pub const WORD_HABITS: [Habit; 20] = [
    Habit {
        word: "lpm",
        remedy: "write `prefix` before the field, for the longest prefix",
    },
    Habit {
        word: "key",
        remedy: "write the kind and the fields: `exact h.f;`, `prefix h.f;` or `ternary h.f;`",
    },
    Habit {
        word: "default_action",
        remedy: "write `default NAME();`",
    },
    Habit {
        word: "const",
        remedy: "there are no constants; write the number",
    },
    Habit {
        word: "parser",
        remedy: "there is no parser: each header says by `next` what follows it",
    },
    Habit {
        word: "struct",
        remedy: "declare fields that belong to no header in one `meta { }`",
    },
    Habit {
        word: "typedef",
        remedy: "there are no types; write the width of each field",
    },
    Habit {
        word: "state",
        remedy: "there is no parser: each header says by `next` what follows it",
    },
    Habit {
        word: "transition",
        remedy: "write `next`",
    },
    Habit {
        word: "extern",
        remedy: "there are no externs; a table counts by `counted;`",
    },
    Habit {
        word: "switch",
        remedy: "write an arm for each action: `apply t { NAME { } }`",
    },
    Habit {
        word: "return",
        remedy: "nothing returns early; use `if` and arms",
    },
    Habit {
        word: "exit",
        remedy: "nothing returns early; use `if` and arms",
    },
    Habit {
        word: "if",
        remedy: "`else` takes a block: write `else { if (..) { } }`",
    },
    Habit {
        word: "==",
        remedy: "an assignment has one `=`",
    },
    Habit {
        word: "=",
        remedy: "`=` stands in assignments alone: compare with `==`, and give sizes and lists \
            without a sign",
    },
    Habit {
        word: "+",
        remedy: "an assignment has the form `h.f = h.g + 1;` with one operator",
    },
    Habit {
        word: "-",
        remedy: "an assignment has the form `h.f = h.g - 1;` with one operator",
    },
    Habit {
        word: "(",
        remedy: "nothing is called here: write `apply t;` for a table, and `h.valid` for \
            whether a header is there",
    },
    Habit {
        word: "&",
        remedy: "an `if` has one comparison: put a second `if` into its block",
    },
];
