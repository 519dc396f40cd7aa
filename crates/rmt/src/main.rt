//! The program `rmt`: it gives the words of its command line to the top call, and ends with the answer. After any answer but
//! Done it says on standard error, for people, what was wrong; after Done of `compile`, what the program can't mean.
#![tactic(auto)]

mod call;
#[cfg(test)]
mod tests;

ghost use Rattle.std.specs.Prelude.{◌≡◌, ◌≢◌, IfOk, drop};
ghost use Rattle.std.specs.Vec.Iter.{into_iter_items};

use crate::call::call;
use rmt_core::status::Status;
use rmt_io::true_shelf::TrueShelf;
use rmt_io::true_sink::TrueSink;
use rmt_messages::messages::Lengths;
use std::alloc::Global;
use std::env::Args;
use std::io::{ErrorKind, Write};
use std::process::ExitCode;
use std::rt::{Env, Files};
use std::{env, fs, io};

/// The exit status where the machine does not give the words as text.
const NO_WORDS: u8 = 11;

fn main(rt: HostRuntime) -> ExitCode {
    let mut err = rt.stderr();
    let words = match words_behind_name(&rt) {
        Ok(words) => words,
        Err(error) => return ExitCode::from(end_without_words(&mut err, error.kind())),
    };
    let mut shelf = TrueShelf::new(&rt);
    let out = TrueSink::new(&rt);
    let lengths = TrueLengths { rt: &rt };
    ExitCode::from(call(rt.alloc(), &words, &mut shelf, out, &lengths, &mut err))
}

/// The lengths of the machine's files.
#[derive(Drop)]
struct TrueLengths<'a, R: Files> {
    rt: &'a R,
}

impl<R: Files> Lengths for TrueLengths<'_, R> {
    fn length(&self, name: &String) -> Option<u64> {
        match fs::metadata(self.rt, name.as_str()) {
            Ok(found) if found.is_file() => Some(found.len()),
            _ => None,
        }
    }
}

/// Says that the machine does not give the words as text, and answers the exit status.
fn end_without_words(err: &mut impl Write, kind: ErrorKind) -> u8 {
    let code = code_without_words(kind);
    let text: &[u8] = if code == NO_WORDS {
        b"rmt: a word of the command line is no text in UTF-8\n"
    } else {
        b"rmt: the system refused memory for the words of the command line\n"
    };
    let _ = err.write_all(text);
    code
}

/// The words of the command line behind the program's name.
fn words_behind_name(rt: &(impl Env + AllocGlobal)) -> io::Result<Vec<String>> {
    let words = env::args(rt)?;
    behind_first(rt.alloc(), words)
}

/// All words but the first.
fn behind_first(alloc: Global, mut words: Args) -> io::Result<Vec<String>>
    ensures { IfOk result (λ rest. rest.items ≡ drop 1 (into_iter_items words)) }
{
    let _name = words.next();
    let mut rest = Vec::new(alloc);
    for word in words {
        rest.push(word)?;
    }
    Ok(rest)
}

/// The exit status where the words were refused for this.
fn code_without_words(kind: ErrorKind) -> u8
    ensures memory { kind ≡ ErrorKind.OutOfMemory → result ≡ 10 }
    ensures other { kind ≢ ErrorKind.OutOfMemory → result ≡ 11 }
{
    match kind {
        ErrorKind::OutOfMemory => Status::NoMemory as u8,
        _ => NO_WORDS,
    }
}
