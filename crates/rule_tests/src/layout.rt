// Where the records stand.
ghost use Rattle.std.specs.Prelude.{◌≡◌};

use grammar::{fields, record_of};
use model::RuleNumber;

// The records stand in the blocks of a grammar file, or packed, one after the other. A kind of data, which `Records` holds beside its bytes.
#[derive(Clone, Copy)]
pub enum Layout {
    Blocks,
    Packed,
}

// Bytes in which records stand, and how they do.
#[derive(Clone, Copy)]
pub struct Records<'a> {
    pub bytes: &'a [u8],
    pub layout: Layout,
}

impl<'a> Records<'a> {
    ghost use Rattle.rule_tests.specs.Layout.{record_in};

    // The record of rule r.
    pub fn record(&self, r: RuleNumber) -> &'a [u8]
        ensures { result.now ≡ record_in self.now.layout self.now.bytes.now r.0 }
    {
        match self.layout {
            Layout::Blocks => record_of(self.bytes, r),
            Layout::Packed => fields(self.bytes, 24 * usize::from(r.0), 24),
        }
    }
}
