// The rules of the entries.
ghost use Rattle.std.specs.Prelude.{◌≡◌, ◌≤◌, length};
ghost use Rattle.minimalist.specs.Lexicon.{entries};
ghost use Rattle.made_rules.specs.Listed.{Lists, with_entry, with_entries};

use crate::numbers::number_of;
use forms::{Row, entry_row};
use lexicon::{entry_bytes, entry_word};
use made_records::{MadeRule, Records};

// Adds the rule of an entry, from its 8 bytes.
fn add_entry_rule(forms: &[Row], e: &[u8], records: &mut Records)
    requires { length forms.now ≤ 63 }
    ensures { Lists (with_entry e.now) forms.now records.old records.new }
{
    let row = entry_row(e);
    records.add_rule(MadeRule::Entry {
        category: number_of(forms, &row),
        word: entry_word(e),
    });
}

// Adds the rules of the entries.
pub fn add_entry_rules(forms: &[Row], bytes: &[u8], count: u16, records: &mut Records)
    requires { (length forms.now ≤ 63) × (count ≡ entries bytes.now) }
    ensures { Lists (with_entries bytes.now) forms.now records.old records.new }
{
    for i in 0..count {
        add_entry_rule(forms, entry_bytes(bytes, i), records);
    }
}
