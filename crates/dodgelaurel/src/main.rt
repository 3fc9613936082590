// Reads a signature and a problem, and says what it has read.
#![tactic(auto)]

use crate::report::{print_bad_signature, print_problem, print_signature};
use signature::signature::Signature;
use std::{env, fs, io};

mod report;

static USAGE: &str = "usage: dodgelaurel SIGNATURE [PROBLEM]\n\
SIGNATURE is a file with a line for each symbol: its name, a tab, its arity, a tab, its weight.\n\
PROBLEM is a file of formulas such as: cnf(add_zero, axiom, add(zero, X) = X).";

fn main(rt: HostRuntime) -> io::Result<()> {
    let mut args = env::args(&rt)?;
    let _ = args.next();
    let Some(signature_path) = args.next() else {
        return rt.println(USAGE);
    };
    let Some(text) = read_file(&rt, signature_path.as_str())? else {
        return Ok(());
    };
    println!(rt; "Signature {signature_path}")?;
    let signature = match Signature::read(text.as_slice()) {
        Ok(signature) => signature,
        Err(refusal) => return print_bad_signature(&rt, text.as_slice(), refusal),
    };
    print_signature(&rt, &signature)?;
    let Some(problem_path) = args.next() else {
        return rt.println("No problem file was given.");
    };
    let Some(problem) = read_file(&rt, problem_path.as_str())? else {
        return Ok(());
    };
    println!(rt; "Problem {problem_path}")?;
    print_problem(&rt, &signature, problem.as_slice())
}

// The bytes of a file, or None after a message that it cannot be read.
fn read_file(rt: &HostRuntime, path: &str) -> io::Result<Option<Vec<u8>>> {
    match fs::read(rt, path) {
        Ok(bytes) => Ok(Some(bytes)),
        Err(error) => {
            println!(rt; "The file {path} cannot be read: {error}")?;
            Ok(None)
        }
    }
}
