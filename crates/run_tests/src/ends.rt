//! How a program ends and what it says in the end, of `wm_program`.

use std::alloc::{AllocError, Global};
use std::cell::RefCell;
use std::fmt::Display;
use std::io;
use std::process::ExitCode;
use std::test::Fail;
use wm_cli::Status;
use wm_program::exit;
use wm_script::Limit;

/// Standard error, in memory.
struct Page {
    alloc: Global,
    text: RefCell<String>,
}

impl Eprint for Page {
    fn eprint<D: Display + Drop>(&self, value: D) -> io::Result<()> {
        let text = value.to_string(self.alloc)?;
        match self.text.try_borrow_mut() {
            Ok(mut page) => Ok(page.push_str(text.as_str())?),
            Err(_) => Err(io::ErrorKind::Other.into()),
        }
    }

    fn eprintln<D: Display + Drop>(&self, value: D) -> io::Result<()> {
        self.eprint(value)?;
        self.eprint("\n")
    }
}

/// How a program ends whose run ended so, and what it says on standard error.
fn ended(alloc: Global, ran: Result<Status, AllocError>) -> (ExitCode, String) {
    let page = Page {
        alloc,
        text: RefCell::new(String::new(alloc)),
    };
    let code = exit(&page, alloc, ran);
    let Page { alloc: _, text } = page;
    (code, text.into_inner())
}

/// Of each other status a worked case shows the code and the text.
#[test]
fn the_program_ends_with_a_code_and_a_text(rt: HostRuntime) -> Result<(), Fail> {
    let usage = "usage: work --store NAME [--workers N] [--generate SEED]\n";
    let long = Ok(Status::ScriptTooLong(Limit::Line));
    let bad = Ok(Status::BadStore {
        seq: -7,
        bad_row: true,
    });
    let cases = [
        (Ok(Status::Done), 0, ""),
        (Ok(Status::Usage), 2, usage),
        (long, 7, "script too long: line\n"),
        (bad, 6, "bad store: row -7: bad row\n"),
        (Err(AllocError), 8, "out of memory\n"),
    ];
    for (ran, code, text) in cases {
        let (ended, said) = ended(rt.alloc(), ran);
        assert!(rt; ended == ExitCode::from(code), "{text}");
        assert_eq!(rt; said.as_str(), text);
    }
    Ok(())
}
