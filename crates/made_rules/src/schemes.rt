// The rules of the schemes: merges and moves of the forms.
ghost use Rattle.std.specs.Prelude.{◌≡◌, ◌<◌, ◌≤◌, length};
ghost use Rattle.minimalist.specs.Closure.{scheme_rules};
ghost use Rattle.made_rules.specs.Listed.{Lists, with_merge, with_merges, with_move};

use crate::numbers::{category_at, number_of};
use forms::{Row, left_out, merge_rows, move_row, movers};
use made_records::{MadeRule, Records};

// Adds the rule of the merge of forms i and j, if there is one.
fn add_merge_rule(forms: &[Row], i: usize, j: usize, records: &mut Records)
    requires { (length forms.now ≤ 63) × (i < length forms.now) × (j < length forms.now) }
    ensures { Lists (with_merge i j) forms.now records.old records.new }
{
    let a = &forms[i];
    let b = &forms[j];
    if let Some(merged) = merge_rows(a, b) {
        if !left_out(&merged.row) {
            records.add_rule(MadeRule::Merge {
                category: number_of(forms, &merged.row),
                selecting: category_at(i),
                selected: category_at(j),
                scheme: merged.scheme,
                first: movers(a) as u8,
                second: movers(b) as u8,
            });
        }
    }
}

// Adds the rule of the move of form i, if there is one.
fn add_move_rule(forms: &[Row], i: usize, records: &mut Records)
    requires { (length forms.now ≤ 63) × (i < length forms.now) }
    ensures { Lists (with_move i) forms.now records.old records.new }
{
    let a = &forms[i];
    if let Some(moved) = move_row(a) {
        if !left_out(&moved.row) {
            records.add_rule(MadeRule::Move {
                category: number_of(forms, &moved.row),
                daughter: category_at(i),
                scheme: moved.scheme,
                chains: movers(a) as u8,
                chain: moved.chain,
            });
        }
    }
}

// Adds the rules of the merges of form i with each form.
fn add_merge_rules(forms: &[Row], i: usize, records: &mut Records)
    requires { (length forms.now ≤ 63) × (i < length forms.now) }
    ensures { Lists (with_merges i (length forms.now)) forms.now records.old records.new }
{
    for j in 0..forms.len() {
        add_merge_rule(forms, i, j, records);
    }
}

// Adds the rules of the schemes.
pub fn add_scheme_rules(forms: &[Row], records: &mut Records)
    requires { length forms.now ≤ 63 }
    ensures { Lists scheme_rules forms.now records.old records.new }
{
    for i in 0..forms.len() {
        add_merge_rules(forms, i, records);
        add_move_rule(forms, i, records);
    }
}
