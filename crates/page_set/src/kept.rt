ghost use Rattle.std.specs.Prelude.{◌≡◌, [], ◌++◌, if◌then◌else◌, length, OnOk};
ghost use Rattle.page_set.specs.Pages.{bytes_of_pages};

use crate::set::PageSet;
use ns_ram::PAGE_BYTES;
use std::alloc::{AllocError, Global};

/// Pages of RAM, and what stood in them.
#[derive(Drop)]
pub struct KeptPages {
    pub pages: PageSet,
    /// The bytes of these pages, one page after the other.
    pub bytes: Vec<u8>,
}

/// Appends a page, where it is one that is kept.
fn push_page(bytes: &mut Vec<u8>, is_kept: bool, page: &[u8]) -> Result<(), AllocError>
    ensures { OnOk result (bytes.new.items ≡ bytes.old.items ++ (if is_kept then page.now else [])) }
{
    if is_kept {
        bytes.extend_from_slice(page)?;
    }
    Ok(())
}

impl KeptPages {
    /// None. Takes no memory.
    pub fn none(alloc: Global) -> KeptPages {
        KeptPages {
            pages: PageSet::none(),
            bytes: Vec::new(alloc),
        }
    }

    /// Keeps what stands in these pages of RAM, in place of what was kept before. At want of memory what is kept is of no use.
    pub fn keep(&mut self, pages: PageSet, ram: &[u8]) -> Result<(), AllocError>
        requires { length ram.now ≡ 0x400000 }
        ensures pages { self.new.pages ≡ pages }
        ensures bytes { OnOk result (self.new.bytes.items ≡ bytes_of_pages pages ram.now) }
    {
        self.pages = pages;
        self.bytes.clear();
        for number in 0..self.pages.capacity() {
            let start = PAGE_BYTES as usize * number;
            let page = &ram[start..start + PAGE_BYTES as usize];
            push_page(&mut self.bytes, self.pages.has(number), page)?;
        }
        Ok(())
    }
}
