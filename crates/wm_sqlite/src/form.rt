//! The form that the tables of the rows have to have.
ghost use Rattle.std.specs.Prelude.{◌≡◌, ◌↔◌, [], ◌∷◌, IsTrue, codes, map};
ghost use Rattle.wm_sqlite.specs.Table.{both_schema, column_of, first_forms, forms, no_schema, work, work2, work_schema, HasForm, IsPlain};

use sqlite_schema::schema::{Column, Kind, Schema, Table};
use sqlite_value::keys::Collation;
use sqlite_value::value::Value;

/// The name, the type and whether NULL is refused, of each column of `work2` in order. `work` has
/// the first 24 of them.
const COLUMNS: [(&str, Kind, bool); 27] = [
    ("version", Kind::Integer, true),
    ("seq", Kind::Integer, false),
    ("id", Kind::Blob, true),
    ("name", Kind::Text, false),
    ("class", Kind::Text, true),
    ("kind", Kind::Integer, true),
    ("period", Kind::Integer, true),
    ("flex", Kind::Integer, true),
    ("delay", Kind::Integer, true),
    ("policy", Kind::Integer, true),
    ("wait", Kind::Integer, true),
    ("merger", Kind::Integer, true),
    ("network", Kind::Integer, true),
    ("flags", Kind::Integer, true),
    ("phase", Kind::Integer, true),
    ("attempt", Kind::Integer, true),
    ("backoff_n", Kind::Integer, true),
    ("runs", Kind::Integer, true),
    ("generation", Kind::Integer, true),
    ("enqueued_at", Kind::Integer, true),
    ("input", Kind::Text, true),
    ("output", Kind::Text, true),
    ("prior", Kind::Blob, true),
    ("tags", Kind::Text, true),
    ("next_at", Kind::Integer, true),
    ("keep_for", Kind::Integer, true),
    ("finished_at", Kind::Integer, true),
];

/// Whether a database has nothing.
pub(crate) fn is_blank(schema: &Schema) -> bool
    ensures { IsTrue result ↔ schema.now ≡ no_schema }
{
    schema.tables.is_empty() && schema.indexes.is_empty() && schema.views.is_empty()
}

/// Whether a database has `work`, in the form that this crate gives it, and nothing else.
pub(crate) fn is_of_work(schema: &Schema) -> bool
    ensures { IsTrue result ↔ schema.now ≡ work_schema }
{
    let tables = schema.tables.as_slice();
    tables.len() == 1
        && is_first_table(&tables[0])
        && schema.indexes.is_empty()
        && schema.views.is_empty()
}

/// Whether a database has both tables, in the forms that this crate gives them, and nothing else.
pub(crate) fn is_of_both(schema: &Schema) -> bool
    ensures { IsTrue result ↔ schema.now ≡ both_schema }
{
    let tables = schema.tables.as_slice();
    tables.len() == 2
        && is_first_table(&tables[0])
        && is_second_table(&tables[1])
        && schema.indexes.is_empty()
        && schema.views.is_empty()
}

/// Whether a table is `work`, made before any other.
fn is_first_table(table: &Table) -> bool
    ensures { IsTrue result ↔ table.now ≡ work }
{
    table.tree == 0 && is_work_table(table) && has_key_alone(table) && has_no_stamp(table)
}

/// Whether a table is `work2`, made next.
fn is_second_table(table: &Table) -> bool
    ensures { IsTrue result ↔ table.now ≡ work2 }
{
    table.tree == 1 && is_work2_table(table) && has_key_alone(table) && has_no_stamp(table)
}

/// Whether a table has no other key than the number of its rows, and no rule on one.
fn has_key_alone(table: &Table) -> bool
    ensures { IsTrue result ↔ (table.now.primary ≡ 0 ∷ []) × (table.now.orders ≡ []) }
{
    table.primary.as_slice() == [0].as_slice() && table.orders.is_empty()
}

/// Whether no column of a table has the time for its default.
fn has_no_stamp(table: &Table) -> bool
    ensures { IsTrue result ↔ (table.now.stamps.terms ≡ []) × (table.now.stamps.formats ≡ []) }
{
    table.stamps.terms.roots.is_empty() && table.stamps.formats.is_empty()
}

/// Whether a table or a view of one of the two names, in whatever case, has another form.
pub(crate) fn has_others(schema: &Schema) -> bool {
    schema.tables.as_slice().iter().any(|table| is_other(table))
        || schema.view_named(b"work".as_slice()).is_some()
        || schema.view_named(b"work2".as_slice()).is_some()
}

/// Whether a table has one of the two names, in whatever case, and another form.
fn is_other(table: &Table) -> bool {
    table.is_named(b"work".as_slice()) && !is_work_table(table)
        || table.is_named(b"work2".as_slice()) && !is_work2_table(table)
}

/// Whether a table is of the form of `work`.
fn is_work_table(table: &Table) -> bool
    ensures { IsTrue result ↔ HasForm (codes "work") first_forms table.now }
{
    table.name.as_slice() == b"work".as_slice()
        && table.key == Some(1)
        && has_first_columns(table)
        && is_plain(table)
}

/// Whether a table is of the form of `work2`.
fn is_work2_table(table: &Table) -> bool
    ensures { IsTrue result ↔ HasForm (codes "work2") forms table.now }
{
    table.name.as_slice() == b"work2".as_slice()
        && table.key == Some(1)
        && has_columns(table)
        && is_plain(table)
}

/// Whether a table has just the columns of a row of `work`.
fn has_first_columns(table: &Table) -> bool
    ensures { IsTrue result ↔ table.now.columns ≡ map column_of first_forms }
{
    are_columns(table.columns.as_slice(), &COLUMNS[..24])
}

/// Whether a table has just the columns of a row of `work2`.
fn has_columns(table: &Table) -> bool
    ensures { IsTrue result ↔ table.now.columns ≡ map column_of forms }
{
    are_columns(table.columns.as_slice(), COLUMNS.as_slice())
}

/// Whether columns are of these forms, one after another.
fn are_columns(columns: &[Column], forms: &[(&str, Kind, bool)]) -> bool
    ensures { IsTrue result
        ↔ columns.now ≡ map (λ form. column_of (form.0.now, form.1, form.2)) forms.now }
{
    if columns.len() != forms.len() {
        return false;
    }
    for at in 0..forms.len() {
        if !is_column(&columns[at], &forms[at]) {
            return false;
        }
    }
    true
}

/// Whether a column is of this name and type, takes values of that type alone, and refuses NULL or
/// doesn't.
fn is_column(column: &Column, form: &(&str, Kind, bool)) -> bool
    ensures { IsTrue result ↔ column.now ≡ column_of (form.now.0.now, form.now.1, form.now.2) }
{
    let (name, kind, not_null) = *form;
    column.name.as_slice() == name.as_bytes()
        && column.kind == kind
        && column.is_strict
        && column.not_null == not_null
        && matches!(column.default, Value::Null)
        && column.collation == Collation::Binary
}

/// Whether a table has no rule besides its columns and its key.
fn is_plain(table: &Table) -> bool
    ensures { IsTrue result ↔ IsPlain table.now }
{
    table.uniques.is_empty()
        && table.checks.roots.is_empty()
        && table.references.is_empty()
        && table.computed.is_empty()
        && table.stamps.places.is_empty()
        && !table.is_counted
}
