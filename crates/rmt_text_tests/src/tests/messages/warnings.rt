//! What programs that compile can't mean.

use crate::tests::compare::same_bytes;
use crate::tests::messages::message;
use rmt_explain::ending::Texts;
use std::alloc::{AllocError, Global};
use std::test::*;

/// A program's text, and its warnings.
const WARNINGS: [(&str, &str); 7] = [
    (
        "header h { f : 8; } next accept;
action send() { out_port = 1; }
table t { default send(); }
control { apply t; }
",
        "",
    ),
    (
        "header h { f : 8; } next accept;
control { }
",
        "p:2:1: warning: no action of a table assigns `out_port`, so each packet that is not dropped leaves on port 0: assign it in an action
  2 | control { }
    | ^^^^^^^
",
    ),
    (
        "header h { f : 8; } next accept;
header k { f : 8; } next accept;
action send() { out_port = 1; }
table t { default send(); }
control { apply t; }
",
        "p:2:8: warning: header `k` is never reached, since no header before it goes on to it: name it in a `next`, or take it out
  2 | header k { f : 8; } next accept;
    |        ^
",
    ),
    (
        "header h { f : 8; } next accept;
action send() { out_port = 1; }
action unused() { }
table t { default send(); }
control { apply t; }
",
        "p:3:8: warning: action `unused` is in no table's list, and no table's default: list it in a table, or take it out
  3 | action unused() { }
    |        ^^^^^^
",
    ),
    (
        "header h { f : 8; } next accept;
meta { a : 8; b : 8; }
action send() { out_port = 1; meta.a = 2; }
table t { default send(); }
control { apply t; }
",
        "p:2:15: warning: metadata field `b` is named nowhere: use it, or take it out
  2 | meta { a : 8; b : 8; }
    |               ^
",
    ),
    (
        "header h { f : 8; } next accept;
action send() { out_port = 1; }
table t { exact h.f; actions send; size 8; default send(); }
table u { default send(); }
table v { default send(); }
control {
  apply t {
    hit { apply u { miss { } hit { } } }
    send { apply v; }
    miss { }
    miss { }
  }
}
",
        "p:9:5: warning: the arm `send` never runs, since an earlier arm takes all its outcomes: put it before that arm, or take it out
  9 |     send { apply v; }
    |     ^^^^
p:11:5: warning: the arm `miss` never runs, since an earlier arm takes all its outcomes: put it before that arm, or take it out
  11 |     miss { }
     |     ^^^^
",
    ),
    (
        "header h { f : 8; } next accept;
action send() { out_port = 1; }
action no() { }
table t { default no(); }
control { apply t; }
",
        "p:2:8: warning: action `send` is in no table's list, and no table's default: list it in a table, or take it out
  2 | action send() { out_port = 1; }
    |        ^^^^
p:5:1: warning: no action of a table assigns `out_port`, so each packet that is not dropped leaves on port 0: assign it in an action
  5 | control { apply t; }
    | ^^^^^^^
",
    ),
];

/// What is told of a program that compiles.
fn told(alloc: Global, text: &str) -> Result<Vec<u8>, AllocError> {
    let texts = Texts {
        program: Some(text.as_bytes()),
        ..Texts::none()
    };
    message(
        alloc,
        &["compile", "p", "e", "i"],
        0,
        "minimal yes\n",
        &texts,
    )
}

#[test]
fn warnings(rt: HostRuntime) {
    for &(text, wanted) in &WARNINGS {
        let told = told(rt.alloc(), text).expect(&rt, "memory");
        same_bytes(&rt, told.as_slice(), wanted);
    }
}
