//! The program: gives the process's words, input, output and clock to the top call, and tells how it ended.
#![tactic(auto)]

ghost use Rattle.std.specs.Prelude.{◌≡◌, drop, MatchResult};
ghost use Rattle.std.specs.Process.{exit_status as code_of};
ghost use Rattle.arcus.specs.Refusals.{refusal_of};
ghost use Rattle.arcus_tool.specs.Statuses.{exit_status};
ghost use Rattle.arcus_tool.specs.declared.status.Status.TheVariants as status;

use arcus_tool::{Status, StdSink, StdSource, WallClock, World, run};
use net_ports::NetPorts;
use std::alloc::Global;
use std::env;
use std::io::{self, ErrorKind};
use std::process::ExitCode;

// The words after the program's name. `BadWords(0)` comes where a word is no text, `NoMemory` where memory was refused.
fn words(rt: &HostRuntime) -> Result<Vec<String>, Status> {
    let args = match env::args(rt) {
        Ok(args) => args,
        Err(error) => return Err(refusal(error.kind())),
    };
    match args.collect(rt.alloc()) {
        Ok(all) => behind_the_first(rt.alloc(), all),
        Err(_) => Err(Status::NoMemory),
    }
}

// The words behind the first, which is the program's name.
fn behind_the_first(alloc: Global, all: Vec<String>) -> Result<Vec<String>, Status>
    ensures { MatchResult result (λ words. words.items ≡ drop 1 all.items) (λ ended. ended ≡ status.NoMemory) }
{
    match all.into_iter().skip(1).collect(alloc) {
        Ok(words) => Ok(words),
        Err(_) => Err(Status::NoMemory),
    }
}

// How the program ends where its words cannot be had, by the kind of the fault.
fn refusal(kind: ErrorKind) -> Status
    ensures { result ≡ refusal_of kind }
{
    match kind {
        ErrorKind::OutOfMemory => Status::NoMemory,
        _ => Status::BadWords(0),
    }
}

// What the process ends with: the number of the status.
fn exit_code(status: Status) -> ExitCode
    ensures { code_of result ≡ exit_status status }
{
    ExitCode::from(status.exit_status())
}

fn main(rt: HostRuntime) -> ExitCode {
    let mut world = World {
        source: StdSource::new(rt.reader()),
        sink: StdSink::new(io::writer(&rt)),
        ports: NetPorts::new(&rt, rt.alloc()),
        clock: WallClock::new(&rt),
    };
    let status = match words(&rt) {
        Ok(words) => run(&rt, rt.alloc(), &words, &mut world),
        Err(refused) => refused,
    };
    if status != Status::Done {
        // Where standard error takes nothing, the exit status still tells.
        let _told = eprintln!(rt; "{status}");
    }
    exit_code(status)
}
