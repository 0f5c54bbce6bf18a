//! The program `graphite`: reads a graph text from standard input, runs the program that the words
//! name, and writes its report to standard output.
#![tactic(auto)]

ghost use Rattle.std.specs.Prelude.{◌≡◌, ◌≢◌, drop, IfOk, IfErr};
ghost use Rattle.std.specs.IoError.{error_kind};
ghost use Rattle.std.specs.Process.{exit_status};
ghost use Rattle.std.specs.Vec.Iter.{into_iter_items};
ghost use Rattle.graphite_top.specs.declared.status.Status.{Status};
ghost use Rattle.graphite_top.specs.Output.{ReadsSource};
ghost use Rattle.graphite_top.specs.Status.{code_of};
ghost use Rattle.graphite_words.specs.Words.{query_of};
ghost use Rattle.graphite.specs.Served.{IsAnswered, words_of};

use graphite_base::{Sink, Source, StdSink, StdSource};
use graphite_top::{Status, run};
use std::alloc::{AllocError, Global};
use std::env::Args;
use std::io::ErrorKind;
use std::process::ExitCode;
use std::{env, io};

/// The exit code where the system does not give the words, and not for being out of memory.
const WORDS_NOT_GIVEN: u8 = 10;

/// The exit code where there are no words: that of being out of memory for this cause, and one that
/// no status has for each other.
fn code_without_words(cause: ErrorKind) -> u8
    ensures memory { cause ≡ ErrorKind.OutOfMemory → result ≡ 7 }
    ensures other { cause ≢ ErrorKind.OutOfMemory → result ≡ 10 }
{
    match cause {
        ErrorKind::OutOfMemory => Status::NoMemory.code(),
        _ => WORDS_NOT_GIVEN,
    }
}

/// The words after the program's own name.
fn words_after_name(alloc: Global, given: Args) -> Result<Vec<String>, AllocError>
    ensures { IfOk result (λ words. words.items ≡ drop 1 (into_iter_items given)) }
{
    given.skip(1).collect(alloc)
}

/// Does what the words ask for.
fn answer<S: Source, K: Sink>(alloc: Global, given: Args, source: &mut S, sink: &mut K) -> Status
    ensures answered { IsAnswered (words_of (into_iter_items given)) result
        (S.left source.old) (S.left source.new) (K.written sink.old) (K.written sink.new)
        (S.faults source.old) (S.faults source.new) (K.faults sink.old) (K.faults sink.new) }
    ensures untouched { ¬ ReadsSource (query_of (words_of (into_iter_items given))) → source.new ≡ source.old }
{
    match words_after_name(alloc, given) {
        Ok(words) => run(alloc, &words, source, sink),
        Err(_) => Status::NoMemory,
    }
}

/// Does what the words ask for, which come after the program's own name, and gives the exit code of
/// the status. Where the system does not give the words, source and sink are as they were, and the
/// code is 7 (out of memory) or 10 (any other cause).
fn serve<S: Source, K: Sink>(
    alloc: Global,
    given: io::Result<Args>,
    source: &mut S,
    sink: &mut K,
) -> ExitCode
    ensures served { IfOk given (λ args. (status : Status) × (exit_status result ≡ code_of status)
        × IsAnswered (words_of (into_iter_items args)) status (S.left source.old) (S.left source.new) (K.written sink.old) (K.written sink.new)
        (S.faults source.old) (S.faults source.new) (K.faults sink.old) (K.faults sink.new)) }
    ensures untouched { IfOk given (λ args. ¬ ReadsSource (query_of (words_of (into_iter_items args)))
        → source.new ≡ source.old) }

    // Where the system does not give the words.
    ensures out_of_memory { IfErr given (λ error. error_kind error ≡ ErrorKind.OutOfMemory
        → exit_status result ≡ 7) }
    ensures not_given { IfErr given (λ error. error_kind error ≢ ErrorKind.OutOfMemory
        → exit_status result ≡ 10) }
    ensures kept { IfErr given (λ _. (source.new ≡ source.old) × (sink.new ≡ sink.old)) }
{
    match given {
        Ok(given) => ExitCode::from(answer(alloc, given, source, sink).code()),
        Err(error) => ExitCode::from(code_without_words(error.kind())),
    }
}

fn main(rt: HostRuntime) -> ExitCode {
    let mut source = StdSource::new(rt.stdin());
    let mut sink = StdSink::new(rt.stdout());
    serve(rt.alloc(), env::args(&rt), &mut source, &mut sink)
}
