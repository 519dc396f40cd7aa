//! Texts as trees of the grammar.

ghost use Rattle.std.specs.Prelude.{◌<◌, length};

use crate::tests::compare::same_text;
use rmt_lexer::fault::ProgramFault;
use rmt_lexer::token::{Token, TokenKind};
use rmt_lexer::tokens;
use rmt_syntax::syntax;
use rmt_syntax::tree::Tree;
use rmt_tests::fixtures::shown::push_name;
use std::alloc::{AllocError, Global};

/// A token as it is written.
fn push_token(out: &mut String, token: &Token) -> Result<(), AllocError> {
    match &token.what {
        TokenKind::Word(name) => push_name(out, name),
        TokenKind::Number(number) => write!(out, "{number}"),
        TokenKind::Sign(sign) => out.push(char::from(*sign)),
        TokenKind::Equal => out.push_str("=="),
        TokenKind::End => out.push_str("END"),
    }
}

/// A tree as its tokens, with the text of each rule in parentheses behind the rule's name.
fn shown(tree: &Tree, out: &mut String) -> Result<(), AllocError> {
    match tree {
        Tree::One(token) => push_token(out, token),
        Tree::Many { rule, parts } => {
            write!(out, "{rule:?}(")?;
            for part in parts.as_slice() {
                shown(part, out)?;
                out.push_str(" ")?;
            }
            out.push_str(")")
        }
    }
}

/// The tree of a text, or its fault.
fn read(alloc: Global, text: &[u8]) -> Result<String, AllocError>
    requires { length text.now < 4294967295 }
{
    let list = match tokens(alloc, text) {
        Ok(list) => list,
        Err(fault) => return fault_text(alloc, &fault),
    };
    match syntax(alloc, &list) {
        Ok(tree) => {
            let mut out = String::new(alloc);
            shown(&tree, &mut out)?;
            Ok(out)
        }
        Err(fault) => fault_text(alloc, &fault),
    }
}

fn fault_text(alloc: Global, fault: &ProgramFault) -> Result<String, AllocError> {
    match fault {
        ProgramFault::At { code, line, column } => format!(in alloc;
            "fault {code} {line}:{column}"
        ),
        ProgramFault::NoMemory => Err(AllocError),
    }
}

const TREES: [(&[u8], &str); 15] = [
    (
        b"header h { f : 8; } next accept;\naction send() { out_port = 1; }\ntable t { default send(); }\ncontrol { apply t; }\n",
        "Program(Header(header h { f : 8 ; } next Next(Target(accept ) ; ) ) Action(action send ( ) { Field(out_port ) = Expr(Leaf(1 ) ) ; } ) Table(table t { default send ( ) ; } ) Control(control Block({ Stmt(apply t ; ) } ) ) END )",
    ),
    (b"", "Program(END )"),
    (
        b"header h { } next (a, b) { 1, 2 & 3 : x; else : reject; }",
        "Program(Header(header h { } next Next(( a , b ) { Case(Value(1 ) , Value(2 & 3 ) : Target(x ) ; ) else : Target(reject ) ; } ) ) END )",
    ),
    (
        b"meta { x : 8; } action a(p : 9, q : 2) { meta.x = h.f + p; h.valid = 1 ^ drop; }",
        "Program(Meta(meta { x : 8 ; } ) Action(action a ( Param(p : 9 ) , Param(q : 2 ) ) { Field(meta . x ) = Expr(Leaf(Field(h . f ) ) + Leaf(p ) ) ; Field(h . valid ) = Expr(Leaf(1 ) ^ Leaf(Field(drop ) ) ) ; } ) END )",
    ),
    (
        b"table b { exact meta.x, h.f; actions go, no; size 16; counted; default no(1, 2); }",
        "Program(Table(table b { Key(exact Field(meta . x ) , Field(h . f ) ; actions go , no ; size 16 ; counted ; ) default no ( 1 , 2 ) ; } ) END )",
    ),
    (
        b"control { if (in_port & 3 == 1) { apply t { hit { } go { } } } else { } }",
        "Program(Control(control Block({ Stmt(if ( Field(in_port ) & 3 == 1 ) Block({ Stmt(apply t { Arm(hit Block({ } ) ) Arm(go Block({ } ) ) } ) } ) else Block({ } ) ) } ) ) END )",
    ),
    (b"@", "fault 1 1:1"),
    (b"340282366920938463463374607431768211456", "fault 2 1:1"),
    (b"340282366920938463463374607431768211455", "fault 3 1:1"),
    (b"control { } control { }", "fault 3 1:13"),
    (b"header header { }", "fault 3 1:8"),
    (b"action a(p : 9,) { }", "fault 3 1:16"),
    (b"action a() { drop = b.; }", "fault 3 1:23"),
    (b"header h { f : 8; }", "fault 3 1:20"),
    (
        b"control{if(drop==1){if(drop==1){if(drop==1){if(drop==1){if(drop==1){if(drop==1){if(drop==1){if(drop==1){if(drop==1){if(drop==1){if(drop==1){if(drop==1){if(drop==1){if(drop==1){if(drop==1){if(drop==1){if(drop==1){if(drop==1){if(drop==1){if(drop==1){if(drop==1){if(drop==1){if(drop==1){if(drop==1){if(drop==1){if(drop==1){if(drop==1){if(drop==1){if(drop==1){if(drop==1){if(drop==1){if(drop==1){",
        "fault 4 1:392",
    ),
];

#[test]
fn reads_trees(rt: HostRuntime) {
    for &(text, want) in &TREES {
        assert!(rt; text.len() < 1000);
        let got = read(rt.alloc(), text).expect(&rt, "memory");
        same_text(&rt, got.as_str(), want);
    }
}
