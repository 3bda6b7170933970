// The rules of the new start.
ghost use Rattle.std.specs.Prelude.{◌≡◌, ◌<◌, ◌≤◌, length};
ghost use Rattle.minimalist.specs.Closure.{start_rules};
ghost use Rattle.made_rules.specs.Listed.{Lists, Listed, with_start};

use crate::numbers::category_at;
use derivable::find_row;
use forms::{Row, start_row};
use made_records::{MadeRule, Records};

// Adds the rule from the lexical or the derived form of the wanted category, if that is among the forms.
fn add_start(forms: &[Row], start: u8, lexical: bool, records: &mut Records)
    requires { (length forms.now ≤ 63) × (0 < start) }
    ensures { Lists (with_start start lexical) forms.now records.old records.new }
{
    let row = start_row(start, lexical);
    if let Some(i) = find_row(forms, &row) {
        records.add_rule(MadeRule::Start {
            daughter: category_at(i),
        });
    }
}

// Puts the records of the rules of the new start, the first of the grammar. They are lent: 6,160 bytes would be copied.
pub fn add_starts(forms: &[Row], start: u8, records: &mut Records)
    requires { (length forms.now ≤ 63) × (0 < start) }
    ensures { Listed (start_rules start) forms.now records.new }
{
    records.clear();
    add_start(forms, start, true, records);
    add_start(forms, start, false, records);
}
