//! What `compile`, `sim` and `plain` print for the examples, whose lines were worked out by hand.

use crate::tests::example_texts::*;
use crate::tests::runs::{Run, both_print};
use rmt_command_tests::fixtures::cases::{COMPILE, Told, ends};
use rmt_command_tests::fixtures::commands::STEADY;
use rmt_core::status::Status;
use std::alloc::Global;
use std::test::*;

/// The texts of an example, and the lines of its answers.
#[derive(Clone, Copy)]
struct Example<'a> {
    program: &'a str,
    entries: &'a str,
    packets: &'a str,
    lines: &'a str,
}

/// Whether `compile` of an example prints this, `plain` its lines, and `sim` of the image these and then the cycles and the
/// flight.
fn runs(
    alloc: Global,
    example: Example<'static>,
    compiled: &'static str,
    run: &'static str,
) -> Result<bool, Fail> {
    let files = [
        ("p", example.program.as_bytes()),
        ("e", example.entries.as_bytes()),
    ];
    let told = Told::Is(compiled);
    let ran = Run {
        program: example.program.as_bytes(),
        entries: example.entries,
        packets: example.packets,
        status: Status::Done,
        lines: example.lines,
        run,
    };
    Ok(ends(alloc, &files, COMPILE, Status::Done, told)? && both_print(alloc, ran, STEADY)?)
}

const ROUTER: Example<'static> = Example {
    program: ROUTER_PROGRAM,
    entries: ROUTER_ENTRIES,
    packets: ROUTER_PACKETS,
    lines: ROUTER_LINES,
};

const VLAN_MACS: Example<'static> = Example {
    program: VLAN_MACS_PROGRAM,
    entries: VLAN_MACS_ENTRIES,
    packets: VLAN_MACS_PACKETS,
    lines: VLAN_MACS_LINES,
};

const VLAN_PORTS: Example<'static> = Example {
    program: VLAN_PORTS_PROGRAM,
    entries: VLAN_PORTS_ENTRIES,
    packets: VLAN_PORTS_PACKETS,
    lines: VLAN_PORTS_LINES,
};

const FLOWS: Example<'static> = Example {
    program: FLOWS_PROGRAM,
    entries: FLOWS_ENTRIES,
    packets: FLOWS_PACKETS,
    lines: FLOWS_LINES,
};

const SAME: Example<'static> = Example {
    program: SAME_PROGRAM,
    entries: SAME_ENTRIES,
    packets: SAME_PACKETS,
    lines: SAME_LINES,
};

const BRANCHES: Example<'static> = Example {
    program: BRANCHES_PROGRAM,
    entries: BRANCHES_ENTRIES,
    packets: BRANCHES_PACKETS,
    lines: BRANCHES_LINES,
};

const DEFAULT_ROUTE: Example<'static> = Example {
    program: DEFAULT_ROUTE_PROGRAM,
    entries: DEFAULT_ROUTE_ENTRIES,
    packets: DEFAULT_ROUTE_PACKETS,
    lines: DEFAULT_ROUTE_LINES,
};

const TENANTS: Example<'static> = Example {
    program: TENANTS_PROGRAM,
    entries: TENANTS_ENTRIES,
    packets: TENANTS_PACKETS,
    lines: TENANTS_LINES,
};

const OPTIONS: Example<'static> = Example {
    program: OPTIONS_PROGRAM,
    entries: OPTIONS_ENTRIES,
    packets: OPTIONS_PACKETS,
    lines: OPTIONS_LINES,
};

const VXLAN: Example<'static> = Example {
    program: VXLAN_PROGRAM,
    entries: VXLAN_ENTRIES,
    packets: VXLAN_PACKETS,
    lines: VXLAN_LINES,
};

const MOVING_HOST: Example<'static> = Example {
    program: MOVING_HOST_PROGRAM,
    entries: MOVING_HOST_ENTRIES,
    packets: MOVING_HOST_PACKETS,
    lines: MOVING_HOST_LINES,
};

/// An example, what `compile` prints for it, and what `sim` prints behind its lines.
type Row = (Example<'static>, &'static str, &'static str);

const ROWS: [Row; 11] = [
    (
        ROUTER,
        "stages 4 latency 30\nbound 4 chain expired acl routes neighbours\nminimal yes\n",
        "cycles 36\nflight 6\n",
    ),
    (
        VLAN_MACS,
        "stages 2 latency 24\nbound 2 chain vlans macs\nminimal yes\n",
        "cycles 29\nflight 5\n",
    ),
    (
        VLAN_PORTS,
        "stages 3 latency 36\nbound 3 chain access macs leave\nminimal yes\n",
        "cycles 43\nflight 7\n",
    ),
    (
        FLOWS,
        "stages 1 latency 12\nbound 1 chain flows\nminimal yes\n",
        "cycles 18\nflight 6\n",
    ),
    (
        SAME,
        "stages 2 latency 24\nbound 2 chain compared gate1\nminimal yes\n",
        "cycles 26\nflight 2\n",
    ),
    (
        BRANCHES,
        "stages 2 latency 24\nbound 2 chain routes4 neighbours\nminimal yes\n",
        "cycles 29\nflight 5\n",
    ),
    (
        DEFAULT_ROUTE,
        "stages 1 latency 12\nbound 1 chain routes\nminimal yes\n",
        "cycles 16\nflight 4\n",
    ),
    (
        TENANTS,
        "stages 2 latency 24\nbound 2 chain owners tenants\nminimal yes\n",
        "cycles 29\nflight 5\n",
    ),
    (
        OPTIONS,
        "stages 1 latency 12\nbound 1 chain routes\nminimal yes\n",
        "cycles 17\nflight 5\n",
    ),
    (
        VXLAN,
        "stages 1 latency 12\nbound 1 chain gate0\nminimal yes\n",
        "cycles 17\nflight 5\n",
    ),
    (
        MOVING_HOST,
        "stages 1 latency 12\nbound 1 chain hosts\nminimal yes\n",
        "cycles 28\nflight 2\n",
    ),
];

#[test]
fn examples(rt: HostRuntime) -> Result<(), Fail> {
    for (number, &(example, compiled, run)) in ROWS.iter().enumerate() {
        assert!(rt; runs(rt.alloc(), example, compiled, run)?, "row {number}");
    }
    Ok(())
}
