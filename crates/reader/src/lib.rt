// One section of either file, by the kind of its rows.
#![tactic(auto)]

ghost use Rattle.std.specs.Prelude.{◌≡◌, ◌+◌, ◌*◌, ◌≤◌, length};
ghost use Rattle.stages.specs.Table.{first_cell};
ghost use Rattle.sections.specs.Section.{count, after, onward};
ghost use Rattle.rows.specs.Rows.{row_size, field_count, field_ok};
ghost use Rattle.reader.specs.Reader.{rows_at};

use rows::Form;
use sections::SectionFault;

// The first row of a section that breaks its rule, and in it the first field that does.
#[inline(always)]
fn bad_field(form: Form, zones: usize, part: &[u8], n: usize) -> Option<(usize, usize)>
    requires { 2 + row_size form.kind form.periods * n ≤ length part.now }
    ensures { result ≡ first_cell n (field_count form.kind form.periods) (field_ok form.kind form.periods zones part.now) }
{
    for i in 0..n {
        if let Some(f) = form.field(zones, part, i) {
            return Some((i, f));
        }
    }
    None
}

// A section of least to most rows: the count, its limit, room for all rows, then the rows in order. Inlined, and `bad_field` with it, so that each
// section is read by the code of its own kind: a choice of the kind for each row makes a look-up in a small day half as long again.
#[inline(always)]
pub fn read_rows(
    form: Form,
    least: usize,
    most: usize,
    zones: usize,
    part: &[u8],
) -> Result<usize, SectionFault>
    ensures { result ≡ rows_at form.kind least most form.periods zones part.now }
{
    let n = sections::read_head(part, least, most, form.size())?;
    match bad_field(form, zones, part, n) {
        Some((i, f)) => Err(SectionFault::BadRow(i, f)),
        None => Ok(n),
    }
}

// What is left of a file after a section of n rows.
pub fn rest<'a>(form: Form, part: &'a [u8], n: usize) -> &'a [u8]
    requires { (count part.now ≡ n) × (2 + row_size form.kind form.periods * n ≤ length part.now) }
    ensures { (result.now ≡ after (row_size form.kind form.periods) part.now) × (result.ref_ptr ≡ onward (2 + row_size form.kind form.periods * n) part.entry.ref_ptr) }
{
    sections::after(part, n, form.size())
}
