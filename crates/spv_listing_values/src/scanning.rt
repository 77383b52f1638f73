// Lines of words and terms, read byte by byte.

ghost use Rattle.std.specs.Prelude.{◌≡◌, ◌<◌, ◌≤◌, ◌^◌, ℕ, suc, List, [], ◌∷◌, IfOk, OnOk, MatchOption, length, drop, slice_range};
ghost use Rattle.spv_listing_values.specs.Written.{Written};
ghost use Rattle.spv_listing_values.specs.Scanning as scan;
ghost use Rattle.spv_listing_values.specs.Scanning.{Scan, class_of, with_item, with_group, with_word, settle, between, run};
ghost use Rattle.spv_listing_values.specs.Forms.{is_plain_class};
ghost use Rattle.spv_listing_values.specs.Reading.{text_of};
ghost use Rattle.spv_listing_values.specs.Parts.{text_at, head_in, IsSpan, HasSpans, AreParts, IsItem, IsLine, IsScanned, EndsWith, item_at, items_at, marked};

use crate::words::is_among;
use std::alloc::{AllocError, Global};

// A part of the bytes that are read.
#[derive(Clone, Copy)]
pub(crate) struct Span {
    pub(crate) start: u32,
    pub(crate) end: u32,
}

impl Span {
    pub(crate) fn of<'a>(&self, bytes: &'a [u8]) -> &'a [u8]
        requires { IsSpan bytes.now self.now }
        ensures { result.now ≡ text_at bytes.now self.now }
    {
        &bytes[self.start as usize..self.end as usize]
    }
}

// The words of a head.
#[derive(Clone, Copy)]
pub(crate) enum PartHead {
    Alone(Span),
    Applied(Span, Option<Span>),
}

// A term as it stands in a line, behind its arguments: its head, and how many arguments it has.
#[derive(Clone, Copy)]
pub(crate) struct Part {
    pub(crate) head: PartHead,
    pub(crate) args: u32,
}

// The parts of an item of a line: those from the first one up to the end, of which the last one is the item itself.
#[derive(Clone, Copy)]
pub(crate) struct Item {
    pub(crate) first: u32,
    pub(crate) end: u32,
}

// What the next word is.
#[derive(Clone, Copy)]
enum Expected {
    AnItem,
    AHead,
    ANameOf(Span),
}

// A line that is read: its parts and items, how many parts the items have, the terms whose last bracket is still to come, each with its arguments so
// far, and what comes next.
#[derive(Drop)]
pub(crate) struct Line {
    pub(crate) parts: Vec<Part>,
    pub(crate) items: Vec<Item>,
    ended: u32,
    groups: Vec<Part>,
    expected: Expected,
}

// The words to which a name belongs where they are applied.
static WITH_NAMES: [&[u8]; 3] = [b"FIELD", b"PUT", b"NIL"];

// Whether a byte belongs to a word.
pub(crate) fn is_plain(byte: u8) -> bool
    ensures { result ≡ is_plain_class (class_of byte) }
{
    byte != b' ' && byte != b'(' && byte != b')' && byte != b'\n'
}

// Whether a name belongs to this word where it is applied.
pub(crate) fn takes_name(word: &[u8]) -> bool
    ensures { result ≡ scan.takes_name word.now }
{
    is_among(&WITH_NAMES, word)
}

// A number of 32 bits, where it is one.
pub(crate) fn short(number: usize) -> Result<u32, AllocError>
    ensures { IfOk result (λ short. short ≡ number) }
{
    match u32::try_from(number) {
        Ok(short) => Ok(short),
        Err(_) => Err(AllocError),
    }
}

// One more, where it can be counted.
fn one_more(number: u32) -> Result<u32, AllocError>
    ensures { IfOk result (λ more. more ≡ suc number) }
{
    match number.checked_add(1) {
        Some(more) => Ok(more),
        None => Err(AllocError),
    }
}

impl Line {
    pub(crate) fn new(alloc: Global) -> Line {
        Line {
            parts: Vec::new(alloc),
            items: Vec::new(alloc),
            ended: 0,
            groups: Vec::new(alloc),
            expected: Expected::AnItem,
        }
    }

    // Nothing is read.
    fn clear(&mut self)
        ensures { (bytes : List ℕ) → IsScanned bytes self.new (between [] [] []) }
    {
        self.parts.clear();
        self.items.clear();
        self.ended = 0;
        self.groups.clear();
        self.expected = Expected::AnItem;
    }

    // A part is there: an argument of the innermost open term, or an item.
    fn put(&mut self, part: Part) -> Result<(), AllocError>
        ensures { (bytes : List ℕ) (s : Scan) (t : Written) → EndsWith bytes self.old part s t
            → OnOk result (IsScanned bytes self.new (with_item s.groups s.items s.lines t)) }
    {
        self.expected = Expected::AnItem;
        self.parts.push(part)?;
        match self.groups.pop() {
            Some(group) => {
                let args = one_more(group.args)?;
                self.groups.push(Part {
                    head: group.head,
                    args,
                })?;
            }
            None => {
                let end = short(self.parts.len())?;
                self.items.push(Item {
                    first: self.ended,
                    end,
                })?;
                self.ended = end;
            }
        }
        Ok(())
    }

    // A term begins.
    fn open(&mut self, head: PartHead) -> Result<(), AllocError>
        ensures { (bytes : List ℕ) (s : Scan) → IsScanned bytes self.old s → HasSpans bytes head
            → OnOk result (IsScanned bytes self.new (with_group s.groups s.items s.lines (head_in bytes head))) }
    {
        self.expected = Expected::AnItem;
        self.groups.push(Part { head, args: 0 })?;
        Ok(())
    }

    // A word ends.
    fn put_word(&mut self, bytes: &[u8], word: Span) -> Result<(), AllocError>
        requires { IsSpan bytes.now word }
        ensures { (s : Scan) → IsScanned bytes.now self.old s
            → OnOk result (IsScanned bytes.now self.new (with_word s.wanted s.groups s.items s.lines (text_at bytes.now word))) }
    {
        match self.expected {
            Expected::AnItem => self.put(Part {
                head: PartHead::Alone(word),
                args: 0,
            }),
            Expected::AHead => {
                if takes_name(word.of(bytes)) {
                    self.expected = Expected::ANameOf(word);
                    return Ok(());
                }
                self.open(PartHead::Applied(word, None))
            }
            Expected::ANameOf(head) => self.open(PartHead::Applied(head, Some(word))),
        }
    }

    // The innermost open term ends, where there is one.
    fn close(&mut self) -> Result<(), AllocError>
        ensures { (bytes : List ℕ) (s : Scan) → IsScanned bytes self.old s → OnOk result (IsScanned bytes self.new (scan.close s)) }
    {
        match self.groups.pop() {
            None => Ok(()),
            Some(group) => self.put(group),
        }
    }

    // The word that is being read ends, where there is one.
    fn settle(&mut self, bytes: &[u8], start: usize, at: usize) -> Result<(), AllocError>
        requires in_order { start ≤ at }
        requires in_range { at ≤ length bytes.now }
        requires short { length bytes.now < 2 ^ 32 }
        ensures { (s : Scan) → IsScanned bytes.now self.old s → s.text ≡ slice_range bytes.now start at
            → OnOk result (IsScanned bytes.now self.new (settle s)) }
    {
        if start == at {
            return Ok(());
        }
        self.put_word(
            bytes,
            Span {
                start: start as u32,
                end: at as u32,
            },
        )
    }

    // What a byte does that stands behind a word.
    fn mark(&mut self, byte: u8) -> Result<(), AllocError>
        ensures { (bytes : List ℕ) (s : Scan) → IsScanned bytes self.old s → OnOk result (IsScanned bytes self.new (marked (class_of byte) s)) }
    {
        match byte {
            b'(' => {
                self.expected = Expected::AHead;
                Ok(())
            }
            b')' => self.close(),
            _ => Ok(()),
        }
    }

    // Reads a line from this place on. The answer is the place behind its end, if it ends.
    pub(crate) fn read(&mut self, bytes: &[u8], from: usize) -> Result<Option<usize>, AllocError>
        requires short { length bytes.now < 2 ^ 32 }
        ensures { IfOk result (λ r. MatchOption r
            ((run (between [] [] []) (drop from bytes.now)).lines ≡ [])
            (λ next. IsLine bytes.now self.new × (from < next) × (next ≤ length bytes.now)
            × (run (between [] [] []) (drop from bytes.now)
            ≡ run (between [] [] (items_at bytes.now self.new.parts.items self.new.items.items ∷ [])) (drop next bytes.now)))) }
    {
        self.clear();
        let mut start = from;
        for at in from..bytes.len() {
            let byte = bytes[at];
            if is_plain(byte) {
                continue;
            }
            self.settle(bytes, start, at)?;
            if byte == b'\n' {
                return Ok(Some(at + 1));
            }
            self.mark(byte)?;
            start = at + 1;
        }
        Ok(None)
    }

    // The word that an item is; nothing where it is an applied one.
    pub(crate) fn word<'a>(&self, bytes: &'a [u8], item: Item) -> &'a [u8]
        requires parts { AreParts bytes.now self.now.parts.items }
        requires item { IsItem bytes.now self.now.parts.items item }
        ensures { result.now ≡ text_of (item_at bytes.now self.now.parts.items item) }
    {
        match self.parts[item.end as usize - 1].head {
            PartHead::Alone(word) => word.of(bytes),
            PartHead::Applied(_, _) => &[],
        }
    }
}
