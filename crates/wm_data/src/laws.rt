//! Laws of Data, over its definitions alone. Each is the contract of a function that does nothing.
ghost use Rattle.std.specs.Prelude.{◌≡◌, List, Ok, Some};
ghost use Rattle.serde_json.specs.Read.{read};
ghost use Rattle.wm_data.specs.DataJson.{data_json, data_text};
ghost use Rattle.wm_data.specs.DataRead.{read_data};
ghost use Rattle.wm_data.specs.Size.{IsData};
ghost use Rattle.wm_data.specs.declared.data.DataEntry.{DataEntry};

/// Data that is written as JSON is read as the same Data.
pub fn json_is_read_back()
    ensures { (entries : List DataEntry) → IsData entries → read_data (data_json entries) ≡ Ok entries }
{}

/// The canonical text of Data is read as the JSON that it was written for.
pub fn text_is_read_back()
    ensures { (entries : List DataEntry) → IsData entries
        → read (data_text entries) ≡ Some (data_json entries) }
{}
