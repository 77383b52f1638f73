// The files of a command, read in their order.

ghost use Rattle.std.specs.Prelude.{◌≡◌, IfOk, OnErr, map};
ghost use Rattle.spv_cli.specs.Gathering.{HasGathered};
ghost use Rattle.spv_cli.specs.Runs.{AreReadInPart};

use spv_io::{TextFault, Texts};
use spv_listing_values::LONGEST_LISTING;
use std::alloc::{AllocError, Global};

/// What reading files gives.
#[derive(Drop)]
pub(crate) enum Gathered<'a> {
    /// This one could not be read, and those behind it were not.
    Failed(&'a str),
    /// The first bytes of each.
    Texts(Vec<Vec<u8>>),
}

/// The most bytes that are read of a file: one above the limit of a listing, which is the longest text.
const MOST_BYTES: usize = LONGEST_LISTING + 1;

/// Reads files in their order, each wholly, up to the first that cannot be read.
pub(crate) fn read_files<'a, T: Texts>(
    alloc: Global,
    files: &[&'a str],
    texts: &mut T,
) -> Result<Gathered<'a>, AllocError>
    ensures gathered { IfOk result (HasGathered (record {
      told = T.told texts.old;
      asked_before = T.asked texts.old;
      asked_after = T.asked texts.new;
      faults_before = T.faults texts.old;
      faults_after = T.faults texts.new;
    }) (map (λ file. file.now) files.now)) }
    ensures memory { OnErr result (AreReadInPart (record {
      told = T.told texts.old;
      asked_before = T.asked texts.old;
      asked_after = T.asked texts.new;
      faults_before = T.faults texts.old;
      faults_after = T.faults texts.new;
    }) (map (λ file. file.now) files.now)) }
{
    let mut read = Vec::new(alloc);
    for file in files {
        match texts.read(file, MOST_BYTES) {
            Ok(text) => read.push(text)?,
            Err(TextFault::Failed) => return Ok(Gathered::Failed(file)),
            Err(TextFault::Memory) => return Err(AllocError),
        }
    }
    Ok(Gathered::Texts(read))
}
