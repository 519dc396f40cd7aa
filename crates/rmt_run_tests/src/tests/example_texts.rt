//! The files of the examples: `tools/example-texts` writes this module.

pub const ROUTER_PROGRAM: &str =
    "// A router with an access list: IPv4 is filtered, routed and sent to a neighbour; all else is dropped.
header eth { dst : 48; src : 48; kind : 16; }
  next (kind) { 0x0800 : ipv4; else : accept; }
header ipv4 { version : 4; ihl : 4; tos : 8; length : 16; id : 16; flags : 3; frag : 13;
              ttl : 8; proto : 8; sum : 16; src : 32; dst : 32; }
  next (ihl, proto) { 5, 6 : ports; 5, 17 : ports; 5, 0 & 0 : accept; else : reject; }
header ports { src : 16; dst : 16; } next accept;
meta { hop : 16; }

action discard() { drop = 1; }
action pass() { }
action via(n : 16) { meta.hop = n; ipv4.ttl = ipv4.ttl - 1; }
action deliver(port : 9, own : 48, mac : 48) { out_port = port; eth.src = own; eth.dst = mac; }

table expired { ternary ipv4.ttl; actions discard; size 16; default pass(); }
table acl { ternary ipv4.src, ipv4.dst, ipv4.proto, ports.dst; actions discard, pass; size 256;
            counted; default pass(); }
table routes { prefix ipv4.dst; actions via; size 1024; default discard(); }
table neighbours { exact meta.hop; actions deliver; size 64; counted; default discard(); }
table other { default discard(); }

control {
  if (ipv4.valid == 1) {
    apply expired {
      miss { apply acl; apply routes { hit { apply neighbours; } } }
    }
  } else { apply other; }
}
";

pub const ROUTER_ENTRIES: &str = "# a frame with a time to live of 0 or 1 is not sent on
expired 1 0&0xfe discard
# nobody but 10.1.0.0/16 may reach the ssh port of 10.2.0.0/16
acl 10 0x0a010000&0xffff0000 0x0a020000&0xffff0000 6 22 pass
acl 20 * 0x0a020000&0xffff0000 6 22 discard
routes 0x0a000000/8 via 1
routes 0x0a020000/16 via 2
neighbours 1 deliver 1 0x020000000001 0x020000000011
neighbours 2 deliver 2 0x020000000002 0x020000000022
";

pub const ROUTER_PACKETS: &str = "# 10.1.0.5 to 10.2.0.7, port 22: let through
3 02000000000302000000003308004500002800000000400600000a0100050a020007c0000016
# 10.3.0.5 to 10.2.0.7, port 22: refused
3 02000000000302000000003308004500002800000000400600000a0300050a020007c0000016
# 10.3.0.5 to 10.9.0.1, port 80
4 02000000000302000000003308004500002800000000400600000a0300050a090001c0000050
# time to live 1
4 02000000000302000000003308004500002800000000010600000a0300050a090001c0000050
# ARP
5 ffffffffffff0200000000330806000108000604
# cut in its second header
5 0200000000030200000000330800450000
";

pub const ROUTER_LINES: &str =
    "0 2 020000000022020000000002080045000028000000003f0600000a0100050a020007c0000016
1 drop action
2 1 020000000011020000000001080045000028000000003f0600000a0300050a090001c0000050
3 drop action
4 drop action
5 drop short
count 1 1 38
count 2 1 38
count 5 1 38
count 6 2 76
";

pub const VLAN_MACS_PROGRAM: &str =
    "// A switch with a table of VLANs and one of MAC addresses: many dense keys, each with a field behind it that is 0.
header eth { dst : 48; src : 48; kind : 16; } next (kind) { 0x8100 : vlan; else : reject; }
header vlan { pcp : 3; dei : 1; vid : 12; kind : 16; } next accept;
meta { domain : 16; zero : 24; }

action discard() { drop = 1; }
action member(domain : 16) { meta.domain = domain; }
action forward(port : 9) { out_port = port; }

table vlans { exact vlan.vid, meta.zero; actions member; size 512; default discard(); }
table macs { exact meta.domain, eth.dst, meta.zero; actions forward; size 1024; default discard(); }

control { apply vlans { hit { apply macs; } } }
";

pub const VLAN_MACS_ENTRIES: &str =
    "# VLANs 100 to 249 are the domains 1 to 150, and domain 1 has 150 hosts on the ports 1 to 150; the 0 is the zero field
vlans 100 0 member 1
vlans 101 0 member 2
vlans 102 0 member 3
vlans 103 0 member 4
vlans 104 0 member 5
vlans 105 0 member 6
vlans 106 0 member 7
vlans 107 0 member 8
vlans 108 0 member 9
vlans 109 0 member 10
vlans 110 0 member 11
vlans 111 0 member 12
vlans 112 0 member 13
vlans 113 0 member 14
vlans 114 0 member 15
vlans 115 0 member 16
vlans 116 0 member 17
vlans 117 0 member 18
vlans 118 0 member 19
vlans 119 0 member 20
vlans 120 0 member 21
vlans 121 0 member 22
vlans 122 0 member 23
vlans 123 0 member 24
vlans 124 0 member 25
vlans 125 0 member 26
vlans 126 0 member 27
vlans 127 0 member 28
vlans 128 0 member 29
vlans 129 0 member 30
vlans 130 0 member 31
vlans 131 0 member 32
vlans 132 0 member 33
vlans 133 0 member 34
vlans 134 0 member 35
vlans 135 0 member 36
vlans 136 0 member 37
vlans 137 0 member 38
vlans 138 0 member 39
vlans 139 0 member 40
vlans 140 0 member 41
vlans 141 0 member 42
vlans 142 0 member 43
vlans 143 0 member 44
vlans 144 0 member 45
vlans 145 0 member 46
vlans 146 0 member 47
vlans 147 0 member 48
vlans 148 0 member 49
vlans 149 0 member 50
vlans 150 0 member 51
vlans 151 0 member 52
vlans 152 0 member 53
vlans 153 0 member 54
vlans 154 0 member 55
vlans 155 0 member 56
vlans 156 0 member 57
vlans 157 0 member 58
vlans 158 0 member 59
vlans 159 0 member 60
vlans 160 0 member 61
vlans 161 0 member 62
vlans 162 0 member 63
vlans 163 0 member 64
vlans 164 0 member 65
vlans 165 0 member 66
vlans 166 0 member 67
vlans 167 0 member 68
vlans 168 0 member 69
vlans 169 0 member 70
vlans 170 0 member 71
vlans 171 0 member 72
vlans 172 0 member 73
vlans 173 0 member 74
vlans 174 0 member 75
vlans 175 0 member 76
vlans 176 0 member 77
vlans 177 0 member 78
vlans 178 0 member 79
vlans 179 0 member 80
vlans 180 0 member 81
vlans 181 0 member 82
vlans 182 0 member 83
vlans 183 0 member 84
vlans 184 0 member 85
vlans 185 0 member 86
vlans 186 0 member 87
vlans 187 0 member 88
vlans 188 0 member 89
vlans 189 0 member 90
vlans 190 0 member 91
vlans 191 0 member 92
vlans 192 0 member 93
vlans 193 0 member 94
vlans 194 0 member 95
vlans 195 0 member 96
vlans 196 0 member 97
vlans 197 0 member 98
vlans 198 0 member 99
vlans 199 0 member 100
vlans 200 0 member 101
vlans 201 0 member 102
vlans 202 0 member 103
vlans 203 0 member 104
vlans 204 0 member 105
vlans 205 0 member 106
vlans 206 0 member 107
vlans 207 0 member 108
vlans 208 0 member 109
vlans 209 0 member 110
vlans 210 0 member 111
vlans 211 0 member 112
vlans 212 0 member 113
vlans 213 0 member 114
vlans 214 0 member 115
vlans 215 0 member 116
vlans 216 0 member 117
vlans 217 0 member 118
vlans 218 0 member 119
vlans 219 0 member 120
vlans 220 0 member 121
vlans 221 0 member 122
vlans 222 0 member 123
vlans 223 0 member 124
vlans 224 0 member 125
vlans 225 0 member 126
vlans 226 0 member 127
vlans 227 0 member 128
vlans 228 0 member 129
vlans 229 0 member 130
vlans 230 0 member 131
vlans 231 0 member 132
vlans 232 0 member 133
vlans 233 0 member 134
vlans 234 0 member 135
vlans 235 0 member 136
vlans 236 0 member 137
vlans 237 0 member 138
vlans 238 0 member 139
vlans 239 0 member 140
vlans 240 0 member 141
vlans 241 0 member 142
vlans 242 0 member 143
vlans 243 0 member 144
vlans 244 0 member 145
vlans 245 0 member 146
vlans 246 0 member 147
vlans 247 0 member 148
vlans 248 0 member 149
vlans 249 0 member 150
macs 1 0x020000000101 0 forward 1
macs 1 0x020000000102 0 forward 2
macs 1 0x020000000103 0 forward 3
macs 1 0x020000000104 0 forward 4
macs 1 0x020000000105 0 forward 5
macs 1 0x020000000106 0 forward 6
macs 1 0x020000000107 0 forward 7
macs 1 0x020000000108 0 forward 8
macs 1 0x020000000109 0 forward 9
macs 1 0x02000000010a 0 forward 10
macs 1 0x02000000010b 0 forward 11
macs 1 0x02000000010c 0 forward 12
macs 1 0x02000000010d 0 forward 13
macs 1 0x02000000010e 0 forward 14
macs 1 0x02000000010f 0 forward 15
macs 1 0x020000000110 0 forward 16
macs 1 0x020000000111 0 forward 17
macs 1 0x020000000112 0 forward 18
macs 1 0x020000000113 0 forward 19
macs 1 0x020000000114 0 forward 20
macs 1 0x020000000115 0 forward 21
macs 1 0x020000000116 0 forward 22
macs 1 0x020000000117 0 forward 23
macs 1 0x020000000118 0 forward 24
macs 1 0x020000000119 0 forward 25
macs 1 0x02000000011a 0 forward 26
macs 1 0x02000000011b 0 forward 27
macs 1 0x02000000011c 0 forward 28
macs 1 0x02000000011d 0 forward 29
macs 1 0x02000000011e 0 forward 30
macs 1 0x02000000011f 0 forward 31
macs 1 0x020000000120 0 forward 32
macs 1 0x020000000121 0 forward 33
macs 1 0x020000000122 0 forward 34
macs 1 0x020000000123 0 forward 35
macs 1 0x020000000124 0 forward 36
macs 1 0x020000000125 0 forward 37
macs 1 0x020000000126 0 forward 38
macs 1 0x020000000127 0 forward 39
macs 1 0x020000000128 0 forward 40
macs 1 0x020000000129 0 forward 41
macs 1 0x02000000012a 0 forward 42
macs 1 0x02000000012b 0 forward 43
macs 1 0x02000000012c 0 forward 44
macs 1 0x02000000012d 0 forward 45
macs 1 0x02000000012e 0 forward 46
macs 1 0x02000000012f 0 forward 47
macs 1 0x020000000130 0 forward 48
macs 1 0x020000000131 0 forward 49
macs 1 0x020000000132 0 forward 50
macs 1 0x020000000133 0 forward 51
macs 1 0x020000000134 0 forward 52
macs 1 0x020000000135 0 forward 53
macs 1 0x020000000136 0 forward 54
macs 1 0x020000000137 0 forward 55
macs 1 0x020000000138 0 forward 56
macs 1 0x020000000139 0 forward 57
macs 1 0x02000000013a 0 forward 58
macs 1 0x02000000013b 0 forward 59
macs 1 0x02000000013c 0 forward 60
macs 1 0x02000000013d 0 forward 61
macs 1 0x02000000013e 0 forward 62
macs 1 0x02000000013f 0 forward 63
macs 1 0x020000000140 0 forward 64
macs 1 0x020000000141 0 forward 65
macs 1 0x020000000142 0 forward 66
macs 1 0x020000000143 0 forward 67
macs 1 0x020000000144 0 forward 68
macs 1 0x020000000145 0 forward 69
macs 1 0x020000000146 0 forward 70
macs 1 0x020000000147 0 forward 71
macs 1 0x020000000148 0 forward 72
macs 1 0x020000000149 0 forward 73
macs 1 0x02000000014a 0 forward 74
macs 1 0x02000000014b 0 forward 75
macs 1 0x02000000014c 0 forward 76
macs 1 0x02000000014d 0 forward 77
macs 1 0x02000000014e 0 forward 78
macs 1 0x02000000014f 0 forward 79
macs 1 0x020000000150 0 forward 80
macs 1 0x020000000151 0 forward 81
macs 1 0x020000000152 0 forward 82
macs 1 0x020000000153 0 forward 83
macs 1 0x020000000154 0 forward 84
macs 1 0x020000000155 0 forward 85
macs 1 0x020000000156 0 forward 86
macs 1 0x020000000157 0 forward 87
macs 1 0x020000000158 0 forward 88
macs 1 0x020000000159 0 forward 89
macs 1 0x02000000015a 0 forward 90
macs 1 0x02000000015b 0 forward 91
macs 1 0x02000000015c 0 forward 92
macs 1 0x02000000015d 0 forward 93
macs 1 0x02000000015e 0 forward 94
macs 1 0x02000000015f 0 forward 95
macs 1 0x020000000160 0 forward 96
macs 1 0x020000000161 0 forward 97
macs 1 0x020000000162 0 forward 98
macs 1 0x020000000163 0 forward 99
macs 1 0x020000000164 0 forward 100
macs 1 0x020000000165 0 forward 101
macs 1 0x020000000166 0 forward 102
macs 1 0x020000000167 0 forward 103
macs 1 0x020000000168 0 forward 104
macs 1 0x020000000169 0 forward 105
macs 1 0x02000000016a 0 forward 106
macs 1 0x02000000016b 0 forward 107
macs 1 0x02000000016c 0 forward 108
macs 1 0x02000000016d 0 forward 109
macs 1 0x02000000016e 0 forward 110
macs 1 0x02000000016f 0 forward 111
macs 1 0x020000000170 0 forward 112
macs 1 0x020000000171 0 forward 113
macs 1 0x020000000172 0 forward 114
macs 1 0x020000000173 0 forward 115
macs 1 0x020000000174 0 forward 116
macs 1 0x020000000175 0 forward 117
macs 1 0x020000000176 0 forward 118
macs 1 0x020000000177 0 forward 119
macs 1 0x020000000178 0 forward 120
macs 1 0x020000000179 0 forward 121
macs 1 0x02000000017a 0 forward 122
macs 1 0x02000000017b 0 forward 123
macs 1 0x02000000017c 0 forward 124
macs 1 0x02000000017d 0 forward 125
macs 1 0x02000000017e 0 forward 126
macs 1 0x02000000017f 0 forward 127
macs 1 0x020000000180 0 forward 128
macs 1 0x020000000181 0 forward 129
macs 1 0x020000000182 0 forward 130
macs 1 0x020000000183 0 forward 131
macs 1 0x020000000184 0 forward 132
macs 1 0x020000000185 0 forward 133
macs 1 0x020000000186 0 forward 134
macs 1 0x020000000187 0 forward 135
macs 1 0x020000000188 0 forward 136
macs 1 0x020000000189 0 forward 137
macs 1 0x02000000018a 0 forward 138
macs 1 0x02000000018b 0 forward 139
macs 1 0x02000000018c 0 forward 140
macs 1 0x02000000018d 0 forward 141
macs 1 0x02000000018e 0 forward 142
macs 1 0x02000000018f 0 forward 143
macs 1 0x020000000190 0 forward 144
macs 1 0x020000000191 0 forward 145
macs 1 0x020000000192 0 forward 146
macs 1 0x020000000193 0 forward 147
macs 1 0x020000000194 0 forward 148
macs 1 0x020000000195 0 forward 149
macs 1 0x020000000196 0 forward 150
";

pub const VLAN_MACS_PACKETS: &str =
    "# packets for vlan_macs.rmt: VLAN 100 to the first host, and to the last
0 0200000001010200000001968100006408004500
0 0200000001960200000001018100006408004500
# VLAN 249 is domain 150, which has no hosts
0 020000000101020000000196810000f908004500
# VLAN 250 is none
0 020000000101020000000196810000fa08004500
# no tag
0 02000000010102000000019608004500
";

pub const VLAN_MACS_LINES: &str = "0 1 0200000001010200000001968100006408004500
1 150 0200000001960200000001018100006408004500
2 drop action
3 drop action
4 drop reject
";

pub const VLAN_PORTS_PROGRAM: &str =
    "// Access and trunk ports: a tag is pushed, popped or changed as the port asks on which a frame comes and goes.
header eth { dst : 48; src : 48; kind : 16; } next (kind) { 0x8100 : vlan; else : accept; }
header vlan { pcp : 3; dei : 1; vid : 12; kind : 16; } next accept;
meta { vid : 12; }

action discard() { drop = 1; }
action of_port(vid : 12) { meta.vid = vid; }
action of_tag() { meta.vid = vlan.vid; }
action forward(port : 9) { out_port = port; }
action push(vid : 12) { vlan.kind = eth.kind; eth.kind = 0x8100; vlan.vid = vid; vlan.valid = 1; }
action pop() { eth.kind = vlan.kind; vlan.valid = 0; }
action retag(vid : 12) { vlan.vid = vid; }
action keep() { }

table access { exact in_port; actions of_port; size 16; default discard(); }
table trunk { exact in_port, vlan.vid; actions of_tag, of_port; size 64; default discard(); }
table macs { exact meta.vid, eth.dst; actions forward; size 64; default discard(); }
table leave { exact out_port, meta.vid, vlan.valid; actions push, pop, retag, keep; size 64;
              default discard(); }

control {
  if (vlan.vid == 0) { apply access; } else { apply trunk; }
  apply macs { hit { apply leave; } }
}
";

pub const VLAN_PORTS_ENTRIES: &str =
    "# port 1 is an access port of VLAN 10, port 2 of VLAN 20; port 3 is a trunk that calls VLAN 20 by the number 120
access 1 of_port 10
access 2 of_port 20
trunk 3 10 of_tag
trunk 3 120 of_port 20
macs 10 0x020000000001 forward 1
macs 20 0x020000000002 forward 2
macs 10 0x020000000003 forward 3
macs 20 0x020000000003 forward 3
# the port, the VLAN, and whether the frame has a tag
leave 1 10 0 keep
leave 1 10 1 pop
leave 2 20 0 keep
leave 2 20 1 pop
leave 3 10 0 push 10
leave 3 10 1 retag 10
leave 3 20 0 push 120
leave 3 20 1 retag 120
";

pub const VLAN_PORTS_PACKETS: &str = "# packets for vlan_ports.rmt: access to trunk, a tag is pushed
1 0200000000030200000000010800aa
# trunk to access, it is popped
3 0200000000010200000000038100000a0800bb
# VLAN 120 of the trunk is VLAN 20
3 020000000002020000000003810000780800cc
# a tag with a priority and VLAN 0 on an access port: it is changed
2 0200000000030200000000028100a0000800dd
# no tag on the trunk
3 0200000000010200000000030800ee
# VLAN 30 on the trunk
3 0200000000010200000000038100001e0800ee
# a host of the other VLAN
1 0200000000020200000000010800ff
";

pub const VLAN_PORTS_LINES: &str = "0 3 0200000000030200000000018100000a0800aa
1 1 0200000000010200000000030800bb
2 2 0200000000020200000000030800cc
3 3 0200000000030200000000028100a0780800dd
4 drop action
5 drop action
6 drop action
";

pub const FLOWS_PROGRAM: &str =
    "// A flow table by five fields: a flow's packets leave on its port and are counted, all others go to port 0.
header eth { dst : 48; src : 48; kind : 16; } next (kind) { 0x0800 : ipv4; else : reject; }
header ipv4 { version : 4; ihl : 4; tos : 8; length : 16; id : 16; flags : 3; frag : 13;
              ttl : 8; proto : 8; sum : 16; src : 32; dst : 32; }
  next (ihl, proto) { 5, 6 : ports; 5, 17 : ports; else : reject; }
header ports { src : 16; dst : 16; } next accept;
meta { zero : 24; }

action to(port : 9) { out_port = port; }
action discard() { drop = 1; }

table flows { exact ipv4.src, ipv4.dst, ipv4.proto, ports.src, ports.dst, meta.zero;
              actions to, discard; size 1024; counted; default to(0); }

control { apply flows; }
";

pub const FLOWS_ENTRIES: &str =
    "# a TCP connection in both directions, and a UDP flow that is dropped: source, destination, protocol, ports, and the 0
flows 0x0a000001 0x0a000002 6 1000 80 0 to 2
flows 0x0a000002 0x0a000001 6 80 1000 0 to 1
flows 0x0a000001 0x0a000002 17 1000 53 0 discard
";

pub const FLOWS_PACKETS: &str =
    "# packets for flows.rmt: the connection, there, back, and there again
1 02000000002202000000001108004500000000000000400600000a0000010a00000203e80050
2 02000000002202000000001108004500000000000000400600000a0000020a000001005003e8
1 02000000002202000000001108004500000000000000400600000a0000010a00000203e80050
# the UDP flow
1 02000000002202000000001108004500000000000000401100000a0000010a00000203e80035
# another source port
1 02000000002202000000001108004500000000000000400600000a0000010a00000203e90050
# no ports
1 02000000002202000000001108004500000000000000400100000a0000010a0000020800
";

pub const FLOWS_LINES: &str =
    "0 2 02000000002202000000001108004500000000000000400600000a0000010a00000203e80050
1 1 02000000002202000000001108004500000000000000400600000a0000020a000001005003e8
2 2 02000000002202000000001108004500000000000000400600000a0000010a00000203e80050
3 drop action
4 0 02000000002202000000001108004500000000000000400600000a0000010a00000203e90050
5 drop reject
count 0 2 76
count 1 1 38
count 2 1 38
";

pub const SAME_PROGRAM: &str =
    "// Two fields compared: a packet that says it comes from where it goes to is dropped, all others go to port 1.
header eth { dst : 48; src : 48; kind : 16; } next (kind) { 0x0800 : ipv4; else : reject; }
header ipv4 { version : 4; ihl : 4; tos : 8; length : 16; id : 16; flags : 3; frag : 13;
              ttl : 8; proto : 8; sum : 16; src : 32; dst : 32; } next accept;
meta { same : 32; }

action compare() { meta.same = ipv4.src ^ ipv4.dst; }
action discard() { drop = 1; }
action send() { out_port = 1; }

table compared { default compare(); }
table refused { default discard(); }
table sent { default send(); }

control {
  apply compared;
  if (meta.same == 0) { apply refused; } else { apply sent; }
}
";

pub const SAME_ENTRIES: &str = "# same.rmt has no table with a key
";

pub const SAME_PACKETS: &str = "# packets for same.rmt: two addresses, and one address twice
1 02000000002202000000001108004500000000000000400600000a0000010a000002
1 02000000002202000000001108004500000000000000400600000a0000010a000001
";

pub const SAME_LINES: &str =
    "0 1 02000000002202000000001108004500000000000000400600000a0000010a000002
1 drop action
";

pub const BRANCHES_PROGRAM: &str =
    "// The same work in two branches: IPv4 and IPv6 leave the neighbour's number in one field, and one table goes on from it.
header eth { dst : 48; src : 48; kind : 16; }
  next (kind) { 0x0800 : ipv4; 0x86dd : ipv6; else : reject; }
header ipv4 { version : 4; ihl : 4; tos : 8; length : 16; id : 16; flags : 3; frag : 13;
              ttl : 8; proto : 8; sum : 16; src : 32; dst : 32; } next accept;
header ipv6 { version : 4; class : 8; flow : 20; length : 16; nxt : 8; hops : 8;
              src : 128; dst : 128; } next accept;
meta { hop : 16; }

action discard() { drop = 1; }
action none() { }
action via4(n : 16) { meta.hop = n; ipv4.ttl = ipv4.ttl - 1; }
action via6(n : 16) { meta.hop = n; ipv6.hops = ipv6.hops - 1; }
action deliver(port : 9, mac : 48) { out_port = port; eth.src = eth.dst; eth.dst = mac; }

table routes4 { prefix ipv4.dst; actions via4; size 64; default none(); }
table routes6 { prefix ipv6.dst; actions via6; size 64; default none(); }
table neighbours { exact meta.hop; actions deliver; size 16; counted; default discard(); }

control {
  if (ipv4.valid == 1) { apply routes4; } else { apply routes6; }
  apply neighbours;
}
";

pub const BRANCHES_ENTRIES: &str =
    "# neighbour 1 is reached by IPv4 and IPv6, neighbour 2 by IPv4; no entry has number 0, so what has no route is dropped
routes4 0x0a010000/16 via4 1
routes4 0x0a020000/16 via4 2
routes6 0x20010db8000000000000000000000000/32 via6 1
neighbours 1 deliver 1 0x0200000000a1
neighbours 2 deliver 2 0x0200000000a2
";

pub const BRANCHES_PACKETS: &str =
    "# packets for branches.rmt: IPv4 and IPv6 to the same neighbour, and IPv4 to another one
1 02000000002202000000001108004500000000000000400600000a0000010a010005
1 02000000002202000000001186dd6000000000003b4020010db800000000000000000000000120010db8000100000000000000000005
1 02000000002202000000001108004500000000000000400600000a0000010a020005
# without a route
1 02000000002202000000001108004500000000000000400600000a0000010b000001
1 02000000002202000000001186dd6000000000003b4020010db800000000000000000000000120010db9000000000000000000000001
";

pub const BRANCHES_LINES: &str =
    "0 1 0200000000a1020000000022080045000000000000003f0600000a0000010a010005
1 1 0200000000a102000000002286dd6000000000003b3f20010db800000000000000000000000120010db8000100000000000000000005
2 2 0200000000a2020000000022080045000000000000003f0600000a0000010a020005
3 drop action
4 drop action
count 3 2 88
count 4 1 34
";

pub const DEFAULT_ROUTE_PROGRAM: &str =
    "// A default route: the entry of length 0 takes what no longer prefix takes, and counts it.
header eth { dst : 48; src : 48; kind : 16; } next (kind) { 0x0800 : ipv4; else : reject; }
header ipv4 { version : 4; ihl : 4; tos : 8; length : 16; id : 16; flags : 3; frag : 13;
              ttl : 8; proto : 8; sum : 16; src : 32; dst : 32; } next accept;

action discard() { drop = 1; }
action via(port : 9) { out_port = port; ipv4.ttl = ipv4.ttl - 1; }

table routes { prefix ipv4.dst; actions via; size 64; counted; default discard(); }

control { apply routes; }
";

pub const DEFAULT_ROUTE_ENTRIES: &str =
    "# the default route, a network, a network in it, and a host in that one
routes 0/0 via 9
routes 0x0a010000/16 via 1
routes 0x0a010100/24 via 2
routes 0x0a010107/32 via 3
";

pub const DEFAULT_ROUTE_PACKETS: &str =
    "# packets for default_route.rmt: a network, a network in it, a host, and all the rest
1 02000000002202000000001108004500000000000000400600000a0000010a010005
1 02000000002202000000001108004500000000000000400600000a0000010a010105
1 02000000002202000000001108004500000000000000400600000a0000010a010107
1 02000000002202000000001108004500000000000000400600000a000001c0000201
";

pub const DEFAULT_ROUTE_LINES: &str =
    "0 1 020000000022020000000011080045000000000000003f0600000a0000010a010005
1 2 020000000022020000000011080045000000000000003f0600000a0000010a010105
2 3 020000000022020000000011080045000000000000003f0600000a0000010a010107
3 9 020000000022020000000011080045000000000000003f0600000a000001c0000201
count 0 1 34
count 1 1 34
count 2 1 34
count 3 1 34
";

pub const TENANTS_PROGRAM: &str =
    "// Counters by tenant: the port says whose a packet is, and a table with one entry for each tenant counts.
header h { kind : 8; } next accept;
meta { tenant : 16; }

action discard() { drop = 1; }
action belongs(tenant : 16) { meta.tenant = tenant; }
action send(port : 9) { out_port = port; }

table owners { exact in_port; actions belongs; size 64; default discard(); }
table tenants { exact meta.tenant; actions send; size 64; counted; default discard(); }

control { apply owners { hit { apply tenants; } } }
";

pub const TENANTS_ENTRIES: &str =
    "# tenant 7 has the ports 1 and 2, tenant 8 port 3; the counters are those of the last two entries, 3 and 4
owners 1 belongs 7
owners 2 belongs 7
owners 3 belongs 8
tenants 7 send 10
tenants 8 send 11
";

pub const TENANTS_PACKETS: &str =
    "# packets for tenants.rmt: tenant 7 on both of its ports, tenant 8, and a port of nobody
1 ffaa
2 ffbbbb
3 ffcc
1 ffaa
4 ffdd
";

pub const TENANTS_LINES: &str = "0 10 ffaa
1 10 ffbbbb
2 11 ffcc
3 10 ffaa
4 drop action
count 3 3 7
count 4 1 2
";

pub const OPTIONS_PROGRAM: &str =
    "// A router that keeps the options of IPv4: they are the tail of its header, and are sent as they came.
header eth { dst : 48; src : 48; kind : 16; } next (kind) { 0x0800 : ipv4; else : reject; }
header ipv4 { version : 4; ihl : 4; tos : 8; length : 16; id : 16; flags : 3; frag : 13;
              ttl : 8; proto : 8; sum : 16; src : 32; dst : 32; tail ihl * 4 - 20; } next accept;

action discard() { drop = 1; }
action via(port : 9, mac : 48) {
  out_port = port; eth.src = eth.dst; eth.dst = mac; ipv4.ttl = ipv4.ttl - 1;
}

table routes { prefix ipv4.dst; actions via; size 64; default discard(); }

control { apply routes; }
";

pub const OPTIONS_ENTRIES: &str = "# one network and its router
routes 0x0a010000/16 via 1 0x0200000000a1
";

pub const OPTIONS_PACKETS: &str =
    "# packets for options.rmt: no options, 8 bytes of options, and a header that is cut in them
1 02000000002202000000001108004500000000000000400600000a0000010a010005aabb
1 02000000002202000000001108004700000000000000400600000a0000010a0100050102030405060708aabb
1 02000000002202000000001108004700000000000000400600000a0000010a010005010203
# a length below 20 bytes
1 02000000002202000000001108004400000000000000400600000a0000010a010005aabb
# options and no route
1 02000000002202000000001108004600000000000000400600000a0000010b01000501020304
";

pub const OPTIONS_LINES: &str =
    "0 1 0200000000a1020000000022080045000000000000003f0600000a0000010a010005aabb
1 1 0200000000a1020000000022080047000000000000003f0600000a0000010a0100050102030405060708aabb
2 drop short
3 drop reject
4 drop action
";

pub const VXLAN_PROGRAM: &str =
    "// A VXLAN tunnel end with the address 02:00:00:00:00:fe: IPv4 frames of hosts are wrapped, and frames to it are opened.
header eth { dst_high : 32; dst_low : 16; src : 48; kind : 16; }
  next (dst_low, kind) { 0x00fe, 0x0800 : ipv4; 0 & 0, 0x0800 : front; else : reject; }
header ipv4 { version : 4; ihl : 4; tos : 8; length : 16; id : 16; flags : 3; frag : 13;
              ttl : 8; proto : 8; sum : 16; src : 32; dst : 32; }
  next (ihl, proto) { 5, 17 : udp; else : reject; }
header udp { sport : 16; dport : 16; length : 16; sum : 16; }
  next (dport) { 4789 : vxlan; else : reject; }
header vxlan { flags : 8; zero : 24; vni : 24; last : 8; } next inner;
header inner { dst_high : 32; dst_low : 16; src : 48; kind : 16; } next accept;
header front { version : 4; ihl : 4; tos : 8; length : 16; } next accept;

action discard() { drop = 1; }
action wrap(vni : 24, to : 32, mac_high : 32, mac_low : 16, port : 9) {
  inner.dst_high = eth.dst_high; inner.dst_low = eth.dst_low; inner.src = eth.src; inner.kind = eth.kind;
  inner.valid = 1;
  vxlan.flags = 0x08; vxlan.vni = vni; vxlan.valid = 1;
  udp.sport = 0xc000; udp.dport = 4789; udp.length = front.length + 30; udp.valid = 1;
  ipv4.version = 4; ipv4.ihl = 5; ipv4.length = front.length + 50; ipv4.ttl = 64; ipv4.proto = 17;
  ipv4.src = 0x0a000001; ipv4.dst = to; ipv4.valid = 1;
  eth.dst_high = mac_high; eth.dst_low = mac_low; eth.src = 0x0200000000fe;
  out_port = port;
}
action open(port : 9) { eth.valid = 0; ipv4.valid = 0; udp.valid = 0; vxlan.valid = 0; out_port = port; }

table remote { exact in_port, eth.dst_high, eth.dst_low; actions wrap; size 64; default discard(); }
table local { exact eth.dst_high, vxlan.vni, inner.dst_high, inner.dst_low; actions open; size 64;
              default discard(); }

control { if (vxlan.valid == 1) { apply local; } else { apply remote; } }
";

pub const VXLAN_ENTRIES: &str =
    "# a host behind the tunnel end 10.0.0.2, reached from port 1, and one on port 1
remote 1 0x02000000 0x0002 wrap 100 0x0a000002 0x02000000 0x01fe 9
local 0x02000000 100 0x02000000 0x0001 open 1
";

pub const VXLAN_PACKETS: &str = "# to the host behind the tunnel, and the answer
1 020000000002020000000001080045000018aabb
9 0200000000fe0200000001fe08004500004a00000000401100000a0000020a000001c00012b50036000008000000000064000200000000010200000000020800450000180ccd
# of a network that isn't here
9 0200000000fe0200000001fe08004500004a00000000401100000a0000020a000001c00012b50036000008000000000065000200000000010200000000020800450000180ccd
# from a port without a tunnel, and a frame that isn't IPv4
2 020000000002020000000001080045000018aabb
1 02000000000202000000000108060001
";

pub const VXLAN_LINES: &str =
    "0 9 0200000001fe0200000000fe08004500004a00000000401100000a0000010a000002c00012b5003600000800000000006400020000000002020000000001080045000018aabb
1 1 0200000000010200000000020800450000180ccd
2 drop action
3 drop action
4 drop reject
";

pub const MOVING_HOST_PROGRAM: &str =
    "// A table of hosts, counted: a frame leaves on the port of its destination, and is dropped where there is none.
header eth { dst : 48; src : 48; kind : 16; } next accept;

action to(port : 9) { out_port = port; }
action away() { drop = 1; }

table hosts { exact eth.dst; actions to; size 256; counted; default away(); }

control { apply hosts; }
";

pub const MOVING_HOST_ENTRIES: &str = "hosts 0x020000000001 to 1
";

pub const MOVING_HOST_PACKETS: &str = "# the host is at port 1
0 0200000000010200000000ff0800
# and moves to port 2 while that frame is in flight
- hosts 0x020000000001
+ hosts 0x020000000001 to 2
commit
0 0200000000010200000000ff0800
# it leaves: this commit waits until the first frame has left
- hosts 0x020000000001
commit
0 0200000000010200000000ff0800
";

pub const MOVING_HOST_LINES: &str = "0 1 0200000000010200000000ff0800
1 2 0200000000010200000000ff0800
2 drop action
count 0 1 14
count 1 1 14
";
