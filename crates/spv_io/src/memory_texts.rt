// Texts that are held in memory.
ghost use Rattle.std.specs.Prelude.{◌≡◌, ◌+◌, ◌≤◌, ◌==◌, [], ◌∷◌, ◌++◌, ◌||◌, IsTrue, false, take, vec_len, IfOk, IfSome, OnOk, IsErrOf, IsSome, is_none, option_copied};
ghost use Rattle.spv_io.specs.Faults.{Rose, raised};
ghost use Rattle.spv_io.specs.Texts.{named};
ghost use Rattle.spv_io.specs.MemoryTexts.{files_of, text_of, read_fails};

use crate::{TextFault, Texts};
use std::alloc::{AllocError, Global};
use std::marker::Model;

/// Texts that are held in memory. A read fails where its number is listed or no file has its name,
/// and otherwise only for want of memory.
#[derive(Drop)]
pub struct MemoryTexts {
    alloc: Global,
    files: Vec<(String, Vec<u8>)>,
    fails: Vec<u64>,
    asked: Vec<String>,
    faults: u64,
}

impl Model for MemoryTexts {
    ghost use Rattle.std.specs.Prelude.{map, string_bytes};
    ghost use Rattle.spv_io.specs.MemoryTexts.{TextsValue, files_of};

    ghost Value = { TextsValue };

    ghost view = { λ texts. record {
      files = files_of texts.files.items;
      fails = texts.fails.items;
      asked = map string_bytes texts.asked.items;
      faults = texts.faults;
    } };
}

impl MemoryTexts {
    /// Texts of these names, of which the first counts where two files have one name. The reads
    /// whose numbers are listed fail; they are counted from 1, without those that ended for want of
    /// memory.
    pub fn new(alloc: Global, files: Vec<(String, Vec<u8>)>, fails: Vec<u64>) -> MemoryTexts
        ensures { result ≡ record {
          files = files_of files.items;
          fails = fails.items;
          asked = [];
          faults = 0;
        } }
    {
        MemoryTexts {
            alloc,
            files,
            fails,
            asked: Vec::new(alloc),
            faults: 0,
        }
    }
}

impl Texts for MemoryTexts {
    ghost use Rattle.std.specs.Prelude.{Some};
    ghost use Rattle.spv_io.specs.MemoryTexts.{text_of};

    ghost told = { λ texts name. text_of texts.files name };

    ghost asked = { λ texts. Some texts.asked };

    ghost faults = { λ texts. texts.faults };

    fn read(&mut self, name: &str, most: usize) -> Result<Vec<u8>, TextFault>
        ensures text { IfOk result (λ bytes. IfSome (text_of self.old.files name.now)
            (λ text. bytes.items ≡ take most text)) }
        ensures bound { IfOk result (λ bytes. vec_len bytes ≤ most) }

        // Exactly the listed reads and those of unknown names fail.
        ensures failed_only { IsErrOf result TextFault.Failed
            → IsTrue (read_fails self.old name.now) }
        ensures ok_only { OnOk result (read_fails self.old name.now ≡ false) }

        ensures ok { OnOk result (self.new ≡ record self.old {
          asked = self.old.asked ++ name.now ∷ [];
        }) }
        ensures failed { IsErrOf result TextFault.Failed → self.new ≡ record self.old {
          asked = self.old.asked ++ name.now ∷ [];
          faults = raised self.old.faults;
        } }
        ensures memory { IsErrOf result TextFault.Memory → self.new ≡ self.old }
        ensures never_falls { self.old.faults ≤ self.new.faults }
    {
        let kept = String::from_str(self.alloc, name)?;
        self.asked.reserve(1)?;
        let number = self.asked.len() as u64 + 1;
        let is_listed = self.fails.contains(&number);
        match answer(self.alloc, &self.files, is_listed, name, most) {
            Ok(bytes) => {
                self.asked.push(kept).unwrap();
                Ok(bytes)
            }
            Err(TextFault::Failed) => {
                self.asked.push(kept).unwrap();
                self.faults = self.faults.saturating_add(1);
                Err(TextFault::Failed)
            }
            Err(TextFault::Memory) => Err(TextFault::Memory),
        }
    }
}

// The first bytes of the file of that name.
fn answer(
    alloc: Global,
    files: &[(String, Vec<u8>)],
    is_listed: bool,
    name: &str,
    most: usize,
) -> Result<Vec<u8>, TextFault>
    ensures text { IfOk result (λ bytes. IfSome (text_of (files_of files.now) name.now)
        (λ text. bytes.items ≡ take most text)) }
    ensures bound { IfOk result (λ bytes. vec_len bytes ≤ most) }
    ensures known { OnOk result (IsSome (text_of (files_of files.now) name.now)) }
    ensures unlisted { OnOk result (is_listed ≡ false) }
    ensures cause { IsErrOf result TextFault.Failed
        → IsTrue (is_listed || is_none (text_of (files_of files.now) name.now)) }
{
    if is_listed {
        return Err(TextFault::Failed);
    }
    let Some(text) = text_named(files, name) else {
        return Err(TextFault::Failed);
    };
    Ok(Vec::from_slice(alloc, &text[..most.min(text.len())])?)
}

// The text of the first file of that name.
fn text_named<'a>(files: &'a [(String, Vec<u8>)], name: &str) -> Option<&'a [u8]>
    ensures { option_copied result ≡ text_of (files_of files.now) name.now }
{
    let mut rest = files;
    while let [(known, text), after @ ..] = rest {
        if known.as_str() == name {
            return Some(text);
        }
        rest = after;
    }
    None
}
