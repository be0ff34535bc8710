//! The program: its words and the standard ends, one run, and one line on how it ended.
#![tactic(auto)]

ghost use Rattle.std.specs.Prelude.{◌≡◌, ◌⊎◌, IfErr};
ghost use Rattle.asa_main.specs.declared.statuses.Status.TheVariants as status;

use asa_io::{OpenGate, StdSink, StdSource};
use asa_main::{Status, exit_code, run, write_status};
use std::process::ExitCode;
use std::{env, io};

// The arguments without the program's name. The library says nothing of what they are, so no clause can either.
fn arguments(rt: &HostRuntime) -> io::Result<Vec<String>> {
    let mut all = env::args(rt)?;
    let _program = all.next();
    Ok(all.collect(rt.alloc())?)
}

// The words of the command line. A word that isn't UTF-8 makes no form of it.
fn words_of(rt: &HostRuntime) -> Result<Vec<String>, Status>
    ensures { IfErr result (λ s. (s ≡ status.Usage) ⊎ (s ≡ status.Memory)) }
{
    match arguments(rt) {
        Ok(words) => Ok(words),
        Err(fault) if fault.kind() == io::ErrorKind::OutOfMemory => Err(Status::Memory),
        Err(_) => Err(Status::Usage),
    }
}

fn main(rt: HostRuntime) -> ExitCode {
    let mut input = StdSource::new(&rt);
    let mut output = StdSink::new(&rt, false);
    let status = match words_of(&rt) {
        Ok(words) => {
            let words = words.as_slice();
            run(&rt, rt.alloc(), words, &mut input, &mut output, &OpenGate)
        }
        Err(status) => status,
    };
    let mut errors = StdSink::new(&rt, true);
    // A fault of standard error changes nothing: there is no place left to tell of it.
    let _ = write_status(&status, &mut errors);
    ExitCode::from(exit_code(&status))
}
