//! Runs scripts of JNI calls on a room of references.
#![tactic(auto)]

mod act;
mod answer;
mod check;
mod describe;
mod input;
mod output;
mod request;
mod script;
mod trouble;

use crate::output::tell;
use crate::trouble::Trouble;
use std::io::ErrorKind;
use std::process::ExitCode;
use std::sync::Wait;
use std::thread::Threads;
use std::{env, io};

fn main(rt: HostRuntime) -> ExitCode {
    ExitCode::from(run(&rt, &rt))
}

/// Runs the program, and gives the exit status. The runtime comes twice: as what it is, and as what may start threads.
fn run<T: Threads + Wait>(rt: &HostRuntime, threads: &T) -> u8 {
    match act_on_arguments(rt, threads) {
        Ok(status) => status,
        Err(trouble) => tell(&trouble, &mut rt.stderr()),
    }
}

/// Acts on the words of the command line, and gives the exit status.
fn act_on_arguments<T: Threads + Wait>(rt: &HostRuntime, threads: &T) -> Result<u8, Trouble> {
    let arguments = arguments(rt)?;
    let mut words = Vec::new(rt.alloc());
    for argument in &arguments {
        words.push(argument.as_str()).map_err(|_| Trouble::Memory)?;
    }
    Ok(act::act(
        threads,
        rt.alloc(),
        words.as_slice(),
        &mut rt.reader(),
        &mut io::writer(rt),
        &mut rt.stderr(),
    ))
}

/// The words of the command line, without the program's name. A word that is no text is refused as any other that is no command.
fn arguments(rt: &HostRuntime) -> Result<Vec<String>, Trouble> {
    match env::args(rt) {
        Ok(all) => all
            .skip(1)
            .collect::<Vec<String>>(rt.alloc())
            .map_err(|_| Trouble::Memory),
        Err(error) if error.kind() == ErrorKind::OutOfMemory => Err(Trouble::Memory),
        Err(_) => Err(Trouble::Usage),
    }
}
