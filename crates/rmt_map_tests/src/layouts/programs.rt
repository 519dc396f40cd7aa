//! Programs whose layout is worked out by hand.

pub const NO_NODE: &[u8] = b"header h { f : 8; } next accept; control { }";

pub const SMALLEST: &[u8] =
    b"header h { f : 8; } next accept; action send() { out_port = 1; } table t { default send(); } control { apply t; }";

/// Two tables that set fields of one word.
pub const TWO_FIELDS_ONE_WORD: &[u8] = b"
header h { a : 2; b : 2; c : 4; } next accept;
action x() { h.a = 1; }
action y() { h.b = 2; }
table t1 { default x(); }
table t2 { default y(); }
control { apply t1; apply t2; }
";

/// Three tables that set fields of different words.
pub const SHARED: &[u8] = b"
header h { f : 8; } next accept;
meta { x : 8; y : 8; }
action one() { meta.x = 1; }
action two() { meta.y = 1; }
action three() { out_port = 3; }
table a { default one(); }
table b { default two(); }
table c { default three(); }
control { apply a; apply b; apply c; }
";

/// Four tables that set one field: a in one arm of t, b below a gate in the same arm, c in the other arm, d behind them.
pub const ARMS: &[u8] = b"
header h { f : 8; } next accept;
action one() { out_port = 1; }
action no() { }
table t { exact h.f; actions no; size 4; default no(); }
table a { default one(); }
table b { default one(); }
table c { default one(); }
table d { default one(); }
control {
  apply t { hit { apply a; if (h.f == 1) { apply b; } } miss { apply c; } }
  apply d;
}
";

/// Two tables of 50 quanta, each of 16 SRAM blocks.
pub const LARGE_TABLES: &[u8] = b"
header h { a : 80; b : 80; } next accept;
action no() { }
table big1 { exact h.a; actions no; size 900000; default no(); }
table big2 { exact h.b; actions no; size 900000; default no(); }
control { apply big1; apply big2; }
";

/// A key of 640 bits takes all TCAM blocks of a stage for 2,048 entries.
pub const SPLIT_TERNARY: &[u8] = b"
header k1 { a : 128; b : 128; c : 128; d : 128; } next k2;
header k2 { e : 128; } next accept;
action go(p : 9) { out_port = p; }
table t { ternary k1.a, k1.b, k1.c, k1.d, k2.e; actions go; size 2049; default go(3); }
control { apply t; }
";

/// A key of 640 bits whose last two fields, of 24 and 8 bits, stand in words of 32 and 8.
pub const CROSSBAR: &[u8] = b"
header k1 { a : 128; b : 128; c : 128; d : 128; } next k2;
header k2 { e : 32; f : 32; g : 32; i : 24; j : 8; } next accept;
action no() { }
table t { exact k1.a, k1.b, k1.c, k1.d, k2.e, k2.f, k2.g, k2.i, k2.j; actions no; size 16; default no(); }
control { apply t; }
";

/// Three tables of 4 TCAM blocks, and three of 12: a small and a wide one fill a stage, so 3 stages are the fewest.
pub const SMALL_BEFORE_WIDE: &[u8] = b"
header h { a : 128; b : 128; c : 128; d : 96; e : 32; } next accept;
action no() { }
table s1 { ternary h.a, h.e; actions no; size 16; default no(); }
table s2 { ternary h.a, h.e; actions no; size 16; default no(); }
table s3 { ternary h.a, h.e; actions no; size 16; default no(); }
table w1 { ternary h.a, h.b, h.c, h.d; actions no; size 16; default no(); }
table w2 { ternary h.a, h.b, h.c, h.d; actions no; size 16; default no(); }
table w3 { ternary h.a, h.b, h.c, h.d; actions no; size 16; default no(); }
control { apply s1; apply s2; apply s3; apply w1; apply w2; apply w3; }
";

/// Two tables of 6 TCAM blocks, and four of 5: one of 6 and two of 5 fill a stage, so 2 stages are the fewest.
pub const SIXES_BEFORE_FIVES: &[u8] = b"
header h { a : 128; b : 72; c : 40; } next accept;
action no() { }
table p1 { ternary h.a, h.b, h.c; actions no; size 16; default no(); }
table p2 { ternary h.a, h.b, h.c; actions no; size 16; default no(); }
table q1 { ternary h.a, h.b; actions no; size 16; default no(); }
table q2 { ternary h.a, h.b; actions no; size 16; default no(); }
table q3 { ternary h.a, h.b; actions no; size 16; default no(); }
table q4 { ternary h.a, h.b; actions no; size 16; default no(); }
control { apply p1; apply p2; apply q1; apply q2; apply q3; apply q4; }
";

/// A stage has 16 slots.
pub const SIXTEEN_AND_ONE: &[u8] = b"
header h { f : 8; } next accept;
action no() { }
table t0 { default no(); } table t1 { default no(); } table t2 { default no(); }
table t3 { default no(); } table t4 { default no(); } table t5 { default no(); }
table t6 { default no(); } table t7 { default no(); } table t8 { default no(); }
table t9 { default no(); } table t10 { default no(); } table t11 { default no(); }
table t12 { default no(); } table t13 { default no(); } table t14 { default no(); }
table t15 { default no(); } table t16 { default no(); }
control {
  apply t0; apply t1; apply t2; apply t3; apply t4; apply t5; apply t6; apply t7; apply t8;
  apply t9; apply t10; apply t11; apply t12; apply t13; apply t14; apply t15; apply t16;
}
";
