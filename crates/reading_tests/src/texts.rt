// Texts too long to write out, and the signature that the texts are read over.
use formula::equation::Equation;
use formula::reading::read_formula;
use refusal::Refusal;
use signature::signature::Signature;
use std::alloc::{AllocError, Global};

static SYMBOLS: &[u8] = b"a\t0\t1\nb\t0\t1\nzero\t0\t1\ns\t1\t1\nf\t2\t1\nh\t4\t1\n";

pub(crate) fn read(text: &[u8]) -> Result<Equation, Refusal> {
    let signature = Signature::read(SYMBOLS)?;
    read_formula(&signature, text)
}

// What reading a text is refused with, if it is.
pub(crate) fn refused(text: &[u8]) -> Option<Refusal> {
    read(text).err()
}

fn repeat(text: &mut Vec<u8>, piece: &[u8], times: usize) -> Result<(), AllocError> {
    for _ in 0..times {
        text.extend_from_slice(piece)?;
    }
    Ok(())
}

// A piece as many times between two others.
pub(crate) fn repeated(
    heap: Global,
    front: &[u8],
    piece: &[u8],
    times: usize,
    back: &[u8],
) -> Result<Vec<u8>, AllocError> {
    let mut text = Vec::new(heap);
    text.extend_from_slice(front)?;
    repeat(&mut text, piece, times)?;
    text.extend_from_slice(back)?;
    Ok(text)
}

// The constant a within as many s: one cell more than that.
fn tower(text: &mut Vec<u8>, height: usize) -> Result<(), AllocError> {
    repeat(text, b"s(", height)?;
    text.extend_from_slice(b"a")?;
    repeat(text, b")", height)
}

// A formula that begins with a tower, and has another one further on.
pub(crate) fn towers(
    heap: Global,
    left: usize,
    between: &[u8],
    right: usize,
    back: &[u8],
) -> Result<Vec<u8>, AllocError> {
    let mut text = Vec::new(heap);
    text.extend_from_slice(b"cnf(e,axiom,")?;
    tower(&mut text, left)?;
    text.extend_from_slice(between)?;
    tower(&mut text, right)?;
    text.extend_from_slice(back)?;
    Ok(text)
}
