//! A row as the values of its columns.
ghost use Rattle.sqlite.specs.Values.{bound, bound_value, or_null};
ghost use Rattle.sqlite_value.specs.Value.{owned};
ghost use Rattle.sqlite_value.specs.declared.value.Value.TheVariants.{Text as Words};
ghost use Rattle.std.specs.Prelude.{◌≡◌};
ghost use Rattle.wm_columns.specs.Values.{values_of};

use sqlite::types::ValueRef;
use wm_collections::Text;
use wm_keeper::Row;

/// The values of a row in the order of its columns, to be bound to the statement that inserts it. Its
/// lists are written as these.
pub fn values_of<'a>(row: &'a Row, prior: &'a [u8], tags: &'a str) -> [ValueRef<'a>; 27]
    ensures { bound result ≡ values_of row.now prior.now tags.now }
{
    [
        ValueRef::Int(row.version),
        ValueRef::Int(row.seq),
        ValueRef::Blob(row.id.as_slice()),
        name_of(row),
        words_of(&row.class),
        ValueRef::Int(row.kind),
        ValueRef::Int(row.period),
        ValueRef::Int(row.flex),
        ValueRef::Int(row.delay),
        ValueRef::Int(row.policy),
        ValueRef::Int(row.wait),
        ValueRef::Int(row.merger),
        ValueRef::Int(row.network),
        ValueRef::Int(row.flags),
        ValueRef::Int(row.phase),
        ValueRef::Int(row.attempt),
        ValueRef::Int(row.backoff_n),
        ValueRef::Int(row.runs),
        ValueRef::Int(row.generation),
        ValueRef::Int(row.enqueued_at),
        words_of(&row.input),
        words_of(&row.output),
        ValueRef::Blob(prior),
        ValueRef::Text(tags.as_bytes()),
        ValueRef::Int(row.next_at),
        ValueRef::Int(row.keep_for),
        ValueRef::Int(row.finished_at),
    ]
}

/// The name of a row as a value that is bound, NULL where it has none.
fn name_of(row: &Row) -> ValueRef<'_>
    ensures { bound_value (owned result) ≡ or_null Words row.now.name }
{
    match &row.name {
        Some(name) => words_of(name),
        None => ValueRef::Null,
    }
}

/// A text as a value that is bound.
fn words_of(text: &Text) -> ValueRef<'_>
    ensures { owned result ≡ Words text.now }
{
    ValueRef::Text(text.as_str().as_bytes())
}
