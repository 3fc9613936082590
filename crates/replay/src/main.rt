// Replays a script: a call to each line of standard input, and the answers on standard output.
#![tactic(auto)]

ghost use Rattle.std.specs.Prelude.{◌≡◌, List, IfOk, Result as Either};
ghost use Rattle.refusal.specs.declared.Refusal.{Refusal as Why};
ghost use Rattle.signature.specs.Texts.{Line, Read};
ghost use Rattle.replay.specs.Replies.{answer_of, Answers};

use fields::Field;
use grammar::part::Part;
use grammar::reader::Reader;
use script::answer::Answer;
use script::call::{Call, Fault};
use script::line::{first_line, parse};
use signature::signature::Signature;
use std::alloc::{AllocError, Global};
use std::io;
use std::io::Read;

fn main(rt: HostRuntime) -> io::Result<()> {
    let mut script = Vec::new(rt.alloc());
    rt.stdin().read_to_end(&mut script)?;
    let mut rest = script.as_slice();
    while !rest.is_empty() {
        let line = first_line(rest);
        replay(&rt, line.bytes)?;
        rest = line.after;
    }
    Ok(())
}

// Makes the call of a line, and writes its answers.
fn replay(rt: &HostRuntime, line: &[u8]) -> io::Result<()> {
    match parse(rt.alloc(), line) {
        Ok(Call::Signature(text)) => rt.println(signature_answer(&text)),
        Ok(Call::Read(text)) => read_problem(rt, &text),
        Ok(_) | Err(Fault::Malformed) => rt.println(Answer::Error),
        Err(Fault::NoMemory) => Err(io::Error::from(io::ErrorKind::OutOfMemory)),
    }
}

fn signature_answer(text: &[u8]) -> Answer
    ensures { (o : Either (List Line) Why) × (Read text.now o) × (result ≡ answer_of o) }
{
    Signature::read(text).map_or_else(Answer::Refused, |_| Answer::Done)
}

// The parts of a problem text, and why there are no more.
fn read_answers(heap: Global, text: &[u8]) -> Result<Vec<Answer>, AllocError>
    ensures { IfOk result (λ v. Answers text.now v.items) }
{
    let mut answers = Vec::new(heap);
    let mut reader = match Reader::over(text) {
        Ok(reader) => reader,
        Err(refusal) => {
            answers.push(Answer::Refused(refusal))?;
            return Ok(answers);
        }
    };
    loop {
        match reader.next() {
            Ok(Some(part)) => {
                let len = part.bytes.len();
                let place = part.place;
                answers.push(Answer::Formula { place, len })?;
            }
            Ok(None) => {
                answers.push(Answer::Nothing)?;
                return Ok(answers);
            }
            Err(refusal) => {
                answers.push(Answer::Refused(refusal))?;
                return Ok(answers);
            }
        }
    }
}

fn read_problem(rt: &HostRuntime, text: &[u8]) -> io::Result<()> {
    let answers = read_answers(rt.alloc(), text)?;
    for answer in &answers {
        rt.println(answer)?;
    }
    Ok(())
}
