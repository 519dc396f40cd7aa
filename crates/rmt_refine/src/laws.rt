//! What holds of every configuration that carries a program.

ghost use Rattle.rmt_refine.specs.Commits.{ChangesAreUnseen, CommitsKeepEntries, PacketsSeeOneState};
ghost use Rattle.rmt_refine.specs.EventRuns.{EventsAreAnswered};
ghost use Rattle.rmt_refine.specs.RunStates.{RunsPassReachedStates};
ghost use Rattle.rmt_refine.specs.ShortCommits.{CommitsAreShort};
ghost use Rattle.rmt_refine.specs.Laws.{ListsAreAnswered, LookUpsFindHits, OwnLooksAreInItsView, PacketsAreAnswered};

/// Look-ups made in a configuration's own view are those that the chip makes: in its own cells, under its own seed.
pub fn own_looks()
    ensures { OwnLooksAreInItsView }
{}

/// Where the units of a configuration are those of a well-formed program as it is placed, and the cells of a view hold
/// the entries of the table that a node applies, the key that the node reads from a state finds the entry that the
/// state hits: in some part, and nothing in the parts of earlier stages. Where the state hits no entry, it finds nothing
/// in any part.
pub fn look_ups()
    ensures { LookUpsFindHits }
{}

/// Where a configuration carries a well-formed program with its entries, as a map tells, with the cells of a view, each
/// packet whose look-ups are made in that view becomes what the program answers: it has the same verdict and the same
/// bytes, and each number is counted as often as the program hits the entry of that number in a counted table. The
/// frame may be any bytes, the port any number below 512.
pub fn packets()
    ensures { PacketsAreAnswered }
{}

/// Where a configuration carries a well-formed program with its entries, as a map tells, the chip run over every list of
/// packets gives the verdicts and bytes of the plain run, in order, and leaves the same counters. The packets are any that
/// can come in: on ports 0 to 511, with 1 to 9,216 bytes.
pub fn packet_lists()
    ensures { ListsAreAnswered }
{}

/// While a commit that moves no cell changes cells, one a cycle, a packet of the version that is current sees none of it:
/// each of its look-ups finds what it found before the commit, after any number of the changes.
pub fn unseen_changes()
    ensures { ChangesAreUnseen }
{}

/// Each packet of a run of packets and commits sees one state of the cells, that of the cycle in which it enters, although
/// cells are changed, and versions made, while it is in flight: each of its look-ups finds what it would find in that cycle.
pub fn one_state()
    ensures { PacketsSeeOneState }
{}

/// A commit that moves no cell turns cells in which a packet of the current version sees just the entries before the
/// commit into cells in which a packet of the next version sees just those after it: each entry stands in one cell,
/// where its key is looked for, and an entry that goes before another stands before it. Entries that stay are those that
/// they were, and the names tell what the program asks of its tables.
pub fn kept_entries()
    ensures { CommitsKeepEntries }
{}

/// Where a configuration with names carries a well-formed program with its entries, and keeps the rules of form and the
/// limits, every run that it may have for a list of packets and commits gives the verdicts and bytes of the program, and
/// leaves its counters: each packet is answered with the entries that just the commits before it leave, although packets
/// of two versions are in the chip at once. The packets are any that can come in, and each change is one that can be made
/// where it stands.
pub fn event_lists()
    ensures { EventsAreAnswered }
{}

/// Commits are short, by the definition of their cycles: one that moves no cell, and finds no packet of an older version
/// than the current one in flight, delays the next packet by at most one cycle more than the entries that it and the
/// commit before it added or removed.
pub fn short_commits()
    ensures { CommitsAreShort }
{}

/// Each state that a run of packets and commits passes is a reached one, and its cells are those of its cycle: of the
/// same version, and every look-up finds the same in them. So what is said of reached states, as that commits are
/// short, is said of every state of every run.
pub fn passed_states()
    ensures { RunsPassReachedStates }
{}
