//! The command `autopush`: it makes the real streams, starts, and ends with the status that this answers.
#![tactic(auto)]

ghost use Rattle.std.specs.Prelude.{◌≡◌, IfOk, IfErr, IsOk, IsErr, MatchResult, drop};
ghost use Rattle.std.specs.Vec.Iter.{into_iter_items};

use autopush_main::{WordsFault, start};
use autopush_serve::{is_serve, serve_here};
use push_outside::{Reading, Writing};
use std::alloc::{AllocError, Global};
use std::process::ExitCode;
use std::{env, io};

// the words after the program's name
fn words_of(alloc: Global, mut all: env::Args) -> Result<Vec<String>, AllocError>
    ensures { IfOk result (λ words. words.items ≡ drop 1 (into_iter_items all)) }
{
    let _ = all.next();
    let mut words = Vec::new(alloc);
    for word in all {
        words.push(word)?;
    }
    Ok(words)
}

// the same of what the system gave
fn words_given(alloc: Global, given: io::Result<env::Args>) -> Result<Vec<String>, WordsFault>
    ensures words { MatchResult given (λ all. IfOk result (λ words. words.items ≡ drop 1 (into_iter_items all))) (λ _. IsErr result) }
    ensures memory { IsOk given → IfErr result (λ fault. fault ≡ WordsFault.NoMemory) }
{
    let all = match given {
        Ok(all) => all,
        Err(error) if error.kind() == io::ErrorKind::OutOfMemory => {
            return Err(WordsFault::NoMemory);
        }
        Err(_) => return Err(WordsFault::NotText),
    };
    match words_of(alloc, all) {
        Ok(words) => Ok(words),
        Err(_) => Err(WordsFault::NoMemory),
    }
}

fn main(rt: HostRuntime) -> ExitCode {
    let alloc = rt.alloc();
    let words = words_given(alloc, env::args(&rt));
    let mut input = Reading::new(rt.reader());
    let mut output = Writing::new(io::writer(&rt));
    let mut messages = Writing::new(rt.stderr());
    let status = match &words {
        Ok(words) if is_serve(words) => {
            serve_here(rt, rt, alloc, words, &mut input, &mut output, &mut messages).status
        }
        _ => start(alloc, &words, &mut input, &mut output, &mut messages).status,
    };
    ExitCode::from(status)
}
