//! The three texts.

ghost use Rattle.std.specs.Prelude.{◌≡◌, ◌≤◌, IfOk};
ghost use Rattle.rmt_sample.specs.Texts.{program_text, entries_text, packets_text};

use crate::sample::{Sample, SampleFault};
use crate::text::{put_host, put_packet, put_station};
use rmt_bits::sequence::Sequence;
use std::alloc::{AllocError, Global};

/// The texts that `n` gives, 1 to 100,000: a program with two exact tables of `n` entries, these entries, and `2n`
/// packets, of which those of the first half are sent and the others dropped.
///
/// # Errors
///
/// Want of memory alone.
pub fn sample(alloc: Global, n: u32) -> Result<Sample, SampleFault>
    requires some { 1 ≤ n }
    requires most { n ≤ 100000 }
    ensures program { IfOk result (λ s. s.program ≡ program_text n) }
    ensures entries { IfOk result (λ s. s.entries ≡ entries_text n) }
    ensures packets { IfOk result (λ s. s.packets ≡ packets_text n) }
{
    let program = program(alloc, n)?;
    let entries = entries(alloc, n)?;
    let packets = packets(alloc, n)?;
    Ok(Sample {
        program: Sequence::from_vec(program),
        entries: Sequence::from_vec(entries),
        packets: Sequence::from_vec(packets),
    })
}

fn program(alloc: Global, n: u32) -> Result<Vec<u8>, AllocError>
    ensures { IfOk result (λ text. text.items ≡ program_text n) }
{
    let text = format!(in alloc;
        "header eth {{ dst : 48; src : 48; kind : 16; }} next (kind) {{ 0x0800 : ipv4; else : accept; }}\n\
        header ipv4 {{ head : 64; ttl : 8; proto : 8; sum : 16; src : 32; dst : 32; }} next accept;\n\
        action forward(port : 9) {{ out_port = port; }}\n\
        action discard() {{ drop = 1; }}\n\
        table macs {{ exact eth.dst; actions forward; size {n}; counted; default discard(); }}\n\
        table hosts {{ exact ipv4.dst; actions forward; size {n}; default discard(); }}\n\
        control {{ if (ipv4.valid == 1) {{ apply hosts; }} else {{ apply macs; }} }}\n"
    )?;
    Ok(text.into_bytes())
}

#[tactic(auto, using(crate::proofs::Lines::one_more, crate::proofs::Lines::appended))]
fn entries(alloc: Global, n: u32) -> Result<Vec<u8>, AllocError>
    ensures { IfOk result (λ text. text.items ≡ entries_text n) }
{
    let mut text = Vec::new(alloc);
    for i in 0..n {
        put_station(alloc, i, &mut text)?;
    }
    for i in 0..n {
        put_host(alloc, i, &mut text)?;
    }
    Ok(text)
}

#[tactic(auto, using(crate::proofs::Lines::one_more))]
fn packets(alloc: Global, n: u32) -> Result<Vec<u8>, AllocError>
    requires { n ≤ 100000 }
    ensures { IfOk result (λ text. text.items ≡ packets_text n) }
{
    let mut text = Vec::new(alloc);
    let mut frame = Vec::new(alloc);
    for j in 0..2 * n {
        put_packet(alloc, j, &mut frame, &mut text)?;
    }
    Ok(text)
}
