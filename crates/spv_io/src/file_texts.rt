// Texts that are files.
ghost use Rattle.std.specs.Prelude.{◌≡◌, ◌≤◌, take, vec_len, IfOk, IfSome};

use crate::{TextFault, Texts};
use std::alloc::Global;
use std::fs;
use std::io::Read;
use std::marker::Model;
use std::rt::Files;

/// The files of the system, each read by its path.
///
/// Nothing is claimed of what they hold, and the names of the reads are not told. Each error of the
/// system is a fault, also an interrupted read, which is not tried again. A read takes memory as the
/// file gives bytes, however large `most` is.
#[derive(Drop)]
pub struct FileTexts<'a, R> {
    rt: &'a R,
    faults: u64,
}

// Contracts see the count of faults.
impl<'a, R> Model for FileTexts<'a, R> {
    ghost use Rattle.std.specs.Prelude.{ℕ};

    ghost Value = { ℕ };

    ghost view = { λ texts. texts.faults };
}

impl<'a, R: Files + AllocGlobal> FileTexts<'a, R> {
    /// The files that this runtime reaches, with no fault so far.
    pub fn new(rt: &'a R) -> Self
        ensures { result ≡ 0 }
    {
        FileTexts { rt, faults: 0 }
    }
}

impl<R: Files + AllocGlobal> Texts for FileTexts<'_, R> {
    ghost use Rattle.std.specs.Prelude.{None};

    ghost told = { λ _ _. None };

    ghost asked = { λ _. None };

    ghost faults = { λ texts. texts };

    fn read(&mut self, name: &str, most: usize) -> Result<Vec<u8>, TextFault> {
        match file_bytes(self.rt, name, most) {
            Err(TextFault::Failed) => {
                self.faults = self.faults.saturating_add(1);
                Err(TextFault::Failed)
            }
            other => other,
        }
    }
}

// The first bytes of a file, up to `most` of them.
fn file_bytes<R: Files + AllocGlobal>(rt: &R, name: &str, most: usize) -> Result<Vec<u8>, TextFault>
    ensures { IfOk result (λ bytes. vec_len bytes ≤ most) }
{
    let mut file = fs::open(rt, name).map_err(|_| TextFault::Failed)?;
    first_bytes(rt.alloc(), &mut file, most)
}

/// The first bytes that a reader has left, up to `most` of them. An error of the reader is a failure,
/// whatever came before it.
pub fn first_bytes<R: Read>(
    alloc: Global,
    reader: &mut R,
    most: usize,
) -> Result<Vec<u8>, TextFault>
    ensures bound { IfOk result (λ bytes. vec_len bytes ≤ most) }
    ensures bytes { IfOk result (λ bytes. IfSome (R.remaining reader.old)
        (λ left. bytes.items ≡ take most left)) }
{
    let mut text = Vec::new(alloc);
    let mut piece = [0; PIECE];
    while text.len() < most {
        let wanted = PIECE.min(most - text.len());
        match reader.read(&mut piece[..wanted]) {
            Ok(0) => break,
            Ok(count) => text.extend_from_slice(&piece[..count])?,
            Err(_) => return Err(TextFault::Failed),
        }
    }
    Ok(text)
}

// How many bytes are asked of the system at once.
const PIECE: usize = 4096;
