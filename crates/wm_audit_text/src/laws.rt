//! Laws of audits, over their definitions alone. Each is the contract of a function that does nothing.
ghost use Rattle.std.specs.Prelude.{◌≡◌, ◌++◌, ℕ, List, Some};
ghost use Rattle.serde_json.specs.Data as json;
ghost use Rattle.serde_json.specs.Written.{compact_text};
ghost use Rattle.wm_audit_text.specs.Audits.{next_line, with_lf};
ghost use Rattle.wm_audit_text.specs.Lines.{end_line, end_of, entry_at, entry_line, header_line, header_of, row_line, row_of};
ghost use Rattle.wm_audit_text.specs.declared.entry.Entry.{Entry};
ghost use Rattle.wm_audit_text.specs.declared.headers.Header.{Header};
ghost use Rattle.wm_keeper.specs.declared.row.Row.{Row};

/// What is read of a line has just that line.
pub fn what_is_read_has_its_line()
    ensures header { (line : List ℕ) (header : Header) → header_of line ≡ Some header
        → line ≡ header_line header.hands header.rows }
    ensures row { (line : List ℕ) (row : Row) → row_of line ≡ Some row → line ≡ row_line row }
    ensures entry { (line : List ℕ) (told : Entry) → entry_at line ≡ Some told → line ≡ entry_line told }
    ensures end { (line : List ℕ) (size : ℕ) → end_of line ≡ Some size → line ≡ end_line size }
{}

/// The text of a value that is written as a line is cut off as that line.
pub fn what_is_written_is_cut()
    ensures { (d : json.Data) (rest : List ℕ)
        → next_line (with_lf (compact_text d) ++ rest) ≡ Some (compact_text d, rest) }
{}
