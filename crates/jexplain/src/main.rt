//! Runs scripts of JNI calls for a person: each line beside its answer, refusals and faults in words, and what a word is.
#![tactic(auto)]

mod act;
mod forms;
mod json;
mod mistake;
mod request;
mod rows;
mod tell;
mod trouble;
mod watch;
mod word;

use crate::trouble::Trouble;
use std::io::ErrorKind;
use std::process::ExitCode;
use std::sync::Wait;
use std::thread::Threads;
use std::{env, io};

fn main(rt: HostRuntime) -> ExitCode {
    match act_on_arguments(&rt, &rt) {
        Ok(status) => ExitCode::from(status),
        Err(trouble) => {
            let _ = eprintln!(rt; "{trouble}");
            ExitCode::from(trouble.status())
        }
    }
}

/// Acts on the words of the command line, and gives the exit status. The runtime comes twice: as what it is, and as what may start threads.
fn act_on_arguments<T: Threads + Wait>(rt: &HostRuntime, threads: &T) -> Result<u8, Trouble> {
    let arguments = arguments(rt)?;
    let mut words = Vec::new(rt.alloc());
    for argument in &arguments {
        let Ok(()) = words.push(argument.as_str()) else {
            return Err(Trouble::Memory);
        };
    }
    act::act(
        threads,
        rt,
        rt.alloc(),
        words.as_slice(),
        &mut rt.reader(),
        &mut io::writer(rt),
        &mut rt.stderr(),
    )
}

/// The words of the command line, without the program's name.
fn arguments(rt: &HostRuntime) -> Result<Vec<String>, Trouble> {
    let all = match env::args(rt) {
        Ok(all) => all,
        Err(error) if error.kind() == ErrorKind::OutOfMemory => return Err(Trouble::Memory),
        Err(_) => return Err(Trouble::Input),
    };
    let arguments = all.skip(1).collect::<Vec<String>>(rt.alloc())?;
    Ok(arguments)
}
