//! Laws of rows, over their definitions alone. Each is the contract of a function that does nothing.
ghost use Rattle.std.specs.List.{AllByRecursion};
ghost use Rattle.std.specs.Prelude.{◌≡◌, ℕ, [], List, pos, Ok, Err, Some};
ghost use Rattle.wm_keeper.specs.declared.row.Row.{Row};
ghost use Rattle.wm_machine.specs.Opened.{next_number};
ghost use Rattle.wm_machine.specs.Rows.{row_of, AreRowsOf, IsRowOf};
ghost use Rattle.wm_machine.specs.Valid.{AreWorks};
ghost use Rattle.wm_machine.specs.declared.record.Record.{Record};
ghost use Rattle.wm_rows.specs.Grammar.{read_row, IsStored};
ghost use Rattle.wm_rows.specs.Sound.{checked, IsFirstFault};
ghost use Rattle.wm_rows.specs.declared.fault.RowFault.{RowFault};

/// What is read from a row has just that row, in the second form, and is a record within the limits of
/// a row that has told nothing.
pub fn what_is_read_has_its_row()
    ensures row { (row : Row) (work : Record) → read_row row ≡ Some work → IsRowOf row work }
    ensures second { (row : Row) (work : Record) → read_row row ≡ Some work
        → row_of work ≡ record row { version = pos 2 } }
    ensures stored { (row : Row) (work : Record) → read_row row ≡ Some work → IsStored work }
{}

/// A record within the limits of a row that has told nothing is read from each row of it, in either
/// form.
pub fn a_record_is_read_from_its_row()
    ensures { (row : Row) (work : Record) → IsRowOf row work → IsStored work → read_row row ≡ Some work }
{}

/// The records of sound rows have just those rows, each is within the limits of a row and has told
/// nothing, and together they are works as a state of the machine has them.
pub fn sound_rows_are_those_of_works()
    ensures rows { (rows : List Row) (works : List Record) → checked rows ≡ Ok works → AreRowsOf rows works }
    ensures stored { (rows : List Row) (works : List Record) → checked rows ≡ Ok works
        → AllByRecursion IsStored works }
    ensures works { (rows : List Row) (works : List Record) → checked rows ≡ Ok works
        → AreWorks (next_number works) works }
{}

/// The fault that is told of rows is that of a row of them, and the rows before it are sound.
pub fn the_first_fault_is_told()
    ensures { (rows : List Row) (fault : RowFault) → checked rows ≡ Err fault → IsFirstFault rows fault }
{}

/// Works as a state of the machine has them, which have told nothing, have sound rows, in either form.
pub fn works_have_sound_rows()
    ensures { (next : ℕ) (rows : List Row) (works : List Record) → AreRowsOf rows works → AreWorks next works
        → AllByRecursion (λ work. work.progress ≡ []) works → checked rows ≡ Ok works }
{}
