//! The program `desk`: its words, its standard input and its standard output, handed to the top call.
#![tactic(auto)]

ghost use Rattle.std.specs.Prelude.{◌≡◌, ◌≢◌, [], map, drop, IfOk, IfErr, IsErr, IsOkAnd, string_bytes};
ghost use Rattle.std.specs.Vec.Iter.{into_iter_items};
ghost use Rattle.std.specs.IoError.{error_kind};
ghost use Rattle.std.specs.Process.{exit_status};
ghost use Rattle.std.specs.declared.io.ErrorKind.TheVariants.{OutOfMemory};

use desk_batch::{Word, run};
use desk_io::{Bytes, NoMemory, StdSink, StdSource};
use std::alloc::Global;
use std::env::Args;
use std::process::ExitCode;
use std::{env, io};

/// The status for want of memory.
const NO_MEMORY: u8 = 10;

/// The words of a program's arguments: each behind its name, in order, with its bytes.
fn words_behind_name(alloc: Global, args: Args) -> Result<Vec<Word>, NoMemory>
    ensures { IfOk result (λ words. words.items ≡ map string_bytes (drop 1 (into_iter_items args))) }
{
    let words = args
        .skip(1)
        .map(|arg| Bytes::from_vec(arg.into_bytes()))
        .collect(alloc)?;
    Ok(words)
}

/// The words of what the system gave as arguments. Where it could not give them, as one is not UTF-8, there are none, which is
/// no command.
fn words_of(alloc: Global, given: io::Result<Args>) -> Result<Vec<Word>, NoMemory>
    ensures given { IfOk given (λ args. IfOk result (λ words. words.items ≡ map string_bytes (drop 1 (into_iter_items args)))) }
    ensures not_given { IfErr given (λ error. error_kind error ≢ OutOfMemory → IsOkAnd result (λ words. words.items ≡ [])) }
    ensures no_memory { IfErr given (λ error. error_kind error ≡ OutOfMemory → IsErr result) }
{
    match given {
        Ok(args) => words_behind_name(alloc, args),
        Err(error) => {
            if error.kind() == io::ErrorKind::OutOfMemory {
                Err(NoMemory)
            } else {
                Ok(Vec::new(alloc))
            }
        }
    }
}

/// What the system is told of a status: the status.
fn exit_code(status: u8) -> ExitCode
    ensures { exit_status result ≡ status }
{
    ExitCode::from(status)
}

fn main(rt: HostRuntime) -> ExitCode {
    let Ok(words) = words_of(rt.alloc(), env::args(&rt)) else {
        return exit_code(NO_MEMORY);
    };
    let mut source = StdSource::new(rt.stdin());
    let mut sink = StdSink::new(rt.stdout());
    exit_code(run(rt.alloc(), words.as_slice(), &mut source, &mut sink))
}
