//! Stored rows by the names of their fields, for cases and tables: the one place in which these stand.

use wm_collections::{Items, Text};
use wm_keeper::Row;

/// How many numbers a row has.
pub const NUMBER_COUNT: usize = 20;

/// The numbers of a row by the names of their fields, in the order of these, and what each usually is:
/// in the row of one-time work that waits, with the defaults of a request.
pub const NUMBERS: [(&str, i64); NUMBER_COUNT] = [
    ("version", 2),
    ("seq", 0),
    ("kind", 0),
    ("period", 0),
    ("flex", 0),
    ("delay", 0),
    ("policy", 1),
    ("wait", 30_000),
    ("merger", 0),
    ("network", 0),
    ("flags", 0),
    ("phase", 0),
    ("attempt", 0),
    ("backoff_n", 0),
    ("runs", 0),
    ("generation", 0),
    ("enqueued_at", 0),
    ("next_at", -1),
    ("keep_for", 0),
    ("finished_at", 0),
];

/// The place of the row's number among its numbers.
pub const SEQ: usize = 1;

/// The names of the other fields of a row.
pub const OTHERS: [&str; 7] = ["id", "name", "class", "input", "output", "prior", "tags"];

/// Whether a row has a field of this name.
pub fn is_field(name: &str) -> bool {
    OTHERS.contains(&name) || NUMBERS.iter().any(|number| number.0 == name)
}

/// What a row has beside its numbers.
#[derive(Drop)]
pub struct Others {
    pub id: Items<u8>,
    pub name: Option<Text>,
    pub class: Text,
    pub input: Text,
    pub output: Text,
    pub prior: Items<i64>,
    pub tags: Items<Text>,
}

/// The numbers of a row, in the order of its fields.
pub fn numbers_of(row: &Row) -> [i64; NUMBER_COUNT] {
    [
        row.version,
        row.seq,
        row.kind,
        row.period,
        row.flex,
        row.delay,
        row.policy,
        row.wait,
        row.merger,
        row.network,
        row.flags,
        row.phase,
        row.attempt,
        row.backoff_n,
        row.runs,
        row.generation,
        row.enqueued_at,
        row.next_at,
        row.keep_for,
        row.finished_at,
    ]
}

/// The row of these numbers, which stand in the order of its fields, and of what it has beside them.
pub fn row_of(numbers: [i64; NUMBER_COUNT], others: Others) -> Row {
    Row {
        version: numbers[0],
        seq: numbers[1],
        id: others.id,
        name: others.name,
        class: others.class,
        kind: numbers[2],
        period: numbers[3],
        flex: numbers[4],
        delay: numbers[5],
        policy: numbers[6],
        wait: numbers[7],
        merger: numbers[8],
        network: numbers[9],
        flags: numbers[10],
        phase: numbers[11],
        attempt: numbers[12],
        backoff_n: numbers[13],
        runs: numbers[14],
        generation: numbers[15],
        enqueued_at: numbers[16],
        input: others.input,
        output: others.output,
        prior: others.prior,
        tags: others.tags,
        next_at: numbers[17],
        keep_for: numbers[18],
        finished_at: numbers[19],
    }
}
