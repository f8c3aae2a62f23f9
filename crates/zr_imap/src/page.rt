//! A page of a mapping: the entries of one unit as they are stored.
ghost use Rattle.std.specs.Prelude.{◌≡◌, ◌+◌, ◌-◌, ◌<◌, ◌≤◌, ◌++◌, ◌∷◌, [], length, IfOk, OnOk, OnErr, IsOk, IsTrue, ◌↔◌, ◌⊎◌, slice_set, vec_len, vec_capacity, false};
ghost use Rattle.zr_imap.specs.Pages.{page_at};
ghost use Rattle.zr_base.specs.declared.space.Entry.{Entry};

use std::alloc::Global;
use std::marker::Model;
use zr_base::{Entry, NoMemory};

/// How many entries a page has. 170 entries of 24 bytes fit a unit of 4,096 bytes.
pub const PAGE: usize = 170;

/// At most 170 entries. A page takes all its memory when it is made.
#[derive(Drop)]
pub struct Page {
    entries: Vec<Entry>,
}

impl Model for Page {
    ghost use Rattle.std.specs.Prelude.{List, ◌≤◌, vec_len, vec_capacity};
    ghost use Rattle.zr_base.specs.declared.space.Entry.{Entry};
    ghost use Rattle.zr_imap.specs.Pages.{IsPage};

    ghost Value = { List Entry };

    ghost view = { λ p. p.entries.items };

    ghost invariant = { λ p. IsPage (vec_len p.entries) (vec_capacity p.entries) };
}

impl Page {
    pub fn new(alloc: Global) -> Result<Page, NoMemory>
        ensures { IfOk result (λ page. page ≡ []) }
    {
        let entries = Vec::with_capacity(alloc, PAGE)?;
        Ok(Page { entries })
    }

    /// Adds an entry at the end. It takes no memory.
    pub fn push(&mut self, e: Entry)
        requires { length self.old < 170 }
        ensures { self.new ≡ self.old ++ e ∷ [] }
    {
        match self.entries.push(e) {
            Ok(()) => {}
            Err(_) => unreachable!(),
        }
    }

    /// Takes all entries out. The page keeps its memory.
    pub fn clear(&mut self)
        ensures { self.new ≡ [] }
    {
        self.entries.clear();
    }

    pub fn len(&self) -> usize
        ensures { result ≡ length self.now }
    {
        self.entries.len()
    }

    /// Whether it has no room for an entry more.
    pub fn is_full(&self) -> bool
        ensures full { IsTrue result → length self.now ≡ 170 }
        ensures room { result ≡ false → length self.now < 170 }
    {
        self.entries.len() >= PAGE
    }

    pub fn as_slice(&self) -> &[Entry]
        ensures { result.now ≡ self.now }
    {
        self.entries.as_slice()
    }
}

/// Whether there is no page, or the last one has no room.
pub fn are_full(pages: &Vec<Page>) -> bool
    ensures full { IsTrue result → (pages.now.items ≡ []) ⊎ (length (page_at pages.now.items (vec_len pages.now - 1)) ≡ 170) }
    ensures some { result ≡ false → 0 < vec_len pages.now }
    ensures room { result ≡ false → length (page_at pages.now.items (vec_len pages.now - 1)) < 170 }
{
    let Some(last) = pages.last() else {
        return true;
    };
    last.is_full()
}

/// Adds an empty page at the end, one that stands ready where there is one.
pub fn open_page(
    alloc: Global,
    pages: &mut Vec<Page>,
    ready: &mut Vec<Page>,
) -> Result<(), NoMemory>
    ensures ok { OnOk result (pages.new.items ≡ pages.old.items ++ [] ∷ []) }
    ensures err { OnErr result (pages.new.items ≡ pages.old.items) }
    ensures room { 0 < vec_len ready.old → vec_len pages.old < vec_capacity pages.old → IsOk result }
    ensures capacity { vec_capacity pages.old ≤ vec_capacity pages.new }
    ensures ready { vec_len ready.old ≤ vec_len ready.new + 1 }
{
    pages.reserve(1)?;
    let mut page = match ready.pop() {
        Some(page) => page,
        None => Page::new(alloc)?,
    };
    page.clear();
    match pages.push(page) {
        Ok(()) => Ok(()),
        Err(_) => unreachable!(),
    }
}

/// Adds an entry to the last page.
pub fn push_last(pages: &mut Vec<Page>, e: Entry)
    requires some { 0 < vec_len pages.old }
    requires room { length (page_at pages.old.items (vec_len pages.old - 1)) < 170 }
    ensures pushed { pages.new.items ≡ slice_set pages.old.items (vec_len pages.old - 1) (page_at pages.old.items (vec_len pages.old - 1) ++ e ∷ []) }
    ensures len { vec_len pages.new ≡ vec_len pages.old }
    ensures capacity { vec_capacity pages.new ≡ vec_capacity pages.old }
{
    let last = pages.len() - 1;
    let page = &mut pages[last];
    page.push(e);
}

/// Makes empty pages, until so many stand ready.
pub fn make_ready(alloc: Global, ready: &mut Vec<Page>, wanted: usize) -> Result<(), NoMemory>
    ensures ok { OnOk result (wanted ≤ vec_len ready.new) }
    ensures more { vec_len ready.old ≤ vec_len ready.new }
{
    while ready.len() < wanted {
        let page = Page::new(alloc)?;
        ready.push(page)?;
    }
    Ok(())
}
