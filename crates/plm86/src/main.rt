//! The program: `plm86 build` compiles PL/M-86 modules to a ROM, `plm86 run` runs a ROM on the board and writes its trace, and
//! `plm86 mean` runs what modules mean.
//!
//! What stands in this file has no contract. That words which are no UTF-8 or no order end with status 2, that help and the version go to
//! standard output with status 0, and that each order comes to its command, is shown by `tests/run`.
#![tactic(auto)]

mod build;
mod building;
mod built;
mod command_line;
mod compile;
mod destination;
mod explained;
mod files;
mod input;
mod laws;
mod mean;
mod mean_watched;
mod meaning;
mod options;
mod order;
mod outputs;
mod padded;
mod paths;
mod progress;
mod running;
mod sources;
mod status;
mod stop;
mod telling;
mod unfinished;
mod waveform;
mod writing;

use building::build_rom;
use command_line::order;
use meaning::run_meaning;
use order::{Order, OrderFault, PLAIN, Telling};
use outputs::Outputs;
use running::run_rom;
use std::alloc::Global;
use std::io::{ErrorKind, IsTerminal};
use std::process::ExitCode;
use stop::{Stop, Unwritten};
use word86::{WriterSink, put_all};

/// The words of the command line, the program's name before them.
fn given_words(rt: &HostRuntime, alloc: Global) -> Result<Vec<String>, Stop> {
    let given = match std::env::args(rt) {
        Ok(given) => given,
        Err(error) if error.kind() == ErrorKind::InvalidData => {
            let text = "error: a word of the command line is not UTF-8\n";
            return Err(Stop::Words(String::from_str(alloc, text)?));
        }
        Err(_) => return Err(Stop::Memory),
    };
    match given.collect::<Vec<String>>(alloc) {
        Ok(words) => Ok(words),
        Err(_) => Err(Stop::Memory),
    }
}

/// Does what an order asks for, and answers the status.
fn carry_out(
    rt: &HostRuntime,
    alloc: Global,
    order: Order<'_>,
    telling: Telling,
) -> Result<u8, Stop> {
    let errors = &mut WriterSink::new(rt.stderr());
    match order {
        Order::Build {
            size,
            rom,
            listing,
            map,
            forms,
            telling: _,
            sources,
        } => {
            let outputs = Outputs {
                rom,
                listing,
                map,
                forms,
            };
            build_rom(rt, alloc, size, outputs, telling, &sources, errors)
        }
        Order::Run {
            rom,
            schedule,
            showing,
            telling: _,
        } => run_rom(rt, alloc, rom, schedule, showing, telling, errors),
        Order::Mean {
            schedule,
            following,
            telling: _,
            sources,
        } => run_meaning(rt, alloc, schedule, following, telling, &sources, errors),
    }
}

/// What an order says of faults; on a terminal each is explained.
fn telling_of(rt: &HostRuntime, order: &Order<'_>) -> Telling {
    let given = match order {
        Order::Build { telling, .. } | Order::Run { telling, .. } | Order::Mean { telling, .. } =>
            *telling,
    };
    Telling {
        explains: given.explains || rt.stderr().is_terminal(),
        lints: given.lints,
        tells_all: given.tells_all,
        format: given.format,
    }
}

/// Does what the words of the command line ask for, and answers the status.
fn work(rt: &HostRuntime, alloc: Global) -> Result<u8, Stop> {
    let owned = given_words(rt, alloc)?;
    let mut words: Vec<&str> = Vec::new(alloc);
    for word in owned.as_slice().iter().skip(1) {
        if words.push(word.as_str()).is_err() {
            return Err(Stop::Memory);
        }
    }
    match order(alloc, words.as_slice()) {
        Ok(order) => {
            let telling = telling_of(rt, &order);
            match carry_out(rt, alloc, order, telling) {
                Ok(status) => Ok(status),
                Err(stop) => Ok(stop.report(alloc, telling, &mut WriterSink::new(rt.stderr()))),
            }
        }
        Err(OrderFault::Help(text)) => show(rt, text.as_str()),
        Err(OrderFault::Words(text)) => Err(Stop::Words(text)),
        Err(OrderFault::Memory) => Err(Stop::Memory),
    }
}

// Writes a text to standard output.
fn show(rt: &HostRuntime, text: &str) -> Result<u8, Stop> {
    match put_all(&mut WriterSink::new(rt.stdout()), text.as_bytes()) {
        Ok(()) => Ok(0),
        Err(_) => Err(Stop::CannotWrite(Unwritten::StandardOutput)),
    }
}

/// Does what the words ask for, says on standard error why it stops early, and ends with the status. No contract: `tests/run`.
fn main(rt: HostRuntime) -> ExitCode {
    let alloc = rt.alloc();
    let status = match work(&rt, alloc) {
        Ok(status) => status,
        Err(stop) => stop.report(alloc, PLAIN, &mut WriterSink::new(rt.stderr())),
    };
    ExitCode::from(status)
}
