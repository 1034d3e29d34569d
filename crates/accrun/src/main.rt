//! Runs a script of OpenACC data directives, from a file or standard input, and writes what it prints on standard
//! output.
#![tactic(auto)]

mod words;

use acc_base::Fault;
use acc_command::{FAULTED, tool};
use acc_script::{FromRead, ToWrite};
use acc_terminal::{Errors, Output, Terminals, are_wanted, tell};
use acc_trials::Disk;
use std::cell::Cell;
use std::io::{BufWriter, IsTerminal};
use std::process::ExitCode;
use words::{read_words, tell_words};

fn main(rt: HostRuntime) -> ExitCode {
    let rt = &rt;
    let terminals = Terminals {
        input: rt.stdin().is_terminal(),
        errors: rt.stderr().is_terminal(),
    };
    let is_coloured = terminals.errors && are_wanted(rt);
    let is_closed = Cell::new(false);
    let mut err = ToWrite::new(Errors {
        inner: rt.stderr(),
        is_closed: &is_closed,
        colours: is_coloured.then_some(rt.alloc()),
    });
    let stdout = Output {
        inner: rt.stdout(),
        is_closed: &is_closed,
    };
    let Ok(stdout) = BufWriter::new(rt.alloc(), stdout) else {
        tell(&mut err, Fault::Memory);
        return ExitCode::from(FAULTED);
    };
    // Words are read last, so that no earlier way out has to drop them.
    ExitCode::from(match read_words(rt) {
        Ok(words) => tool(
            rt,
            words,
            terminals,
            &mut FromRead::new(rt.stdin()),
            &mut ToWrite::new(stdout),
            &mut err,
            &Disk { rt },
        ),
        Err(error) => tell_words(&mut err, error.kind()),
    })
}
