// The numbers of the categories, and their dimensions.
ghost use Rattle.std.specs.Prelude.{◌≡◌, ◌+◌, ◌<◌, ◌≤◌, length};
ghost use Rattle.derivable.specs.Tables.{row_at, first_same};
ghost use Rattle.made_rules.specs.Listed.{dimension_byte, Dimensions};

use derivable::find_row;
use forms::{Row, movers};
use model::Category;
use std::array::from_fn;

// The most categories.
pub const CATEGORIES: usize = 64;

// The category of the form of row i.
pub fn category_at(i: usize) -> Category
    requires { i ≤ 63 }
    ensures { result.0 ≡ i + 1 }
{
    Category((i + 1) as u8)
}

// The category whose form has this row; the one after that of the last form if none of the forms has it. What is listed is said of whatever forms the rows
// are, so there is a number in that case too.
pub fn number_of(forms: &[Row], row: &[u8]) -> Category
    requires { length forms.now ≤ 63 }
    ensures { result.0 ≡ first_same (row_at forms.now) row.now 0 (length forms.now) + 1 }
{
    category_at(find_row(forms, row).unwrap_or(forms.len()))
}

// The dimension of a category, 0 where there is none: so it stands in the heading of a file.
fn dimension_byte(forms: &[Row], q: Category) -> u8
    ensures { result ≡ dimension_byte forms.now q.0 }
{
    let q = usize::from(q.0);
    if q == 0 {
        return 1;
    }
    if forms.len() < q {
        return 0;
    }
    ((movers(&forms[q - 1]) + 1) % 256) as u8
}

// The dimensions of the new start and of the forms.
pub fn dimensions(forms: &[Row]) -> [u8; CATEGORIES]
    requires { length forms.now ≤ 63 }
    ensures { Dimensions forms.now result }
{
    from_fn(|q| dimension_byte(forms, Category(q as u8)))
}
