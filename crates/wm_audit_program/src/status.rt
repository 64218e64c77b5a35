//! How a check ends, with its code and its text.
ghost use Rattle.std.specs.Prelude.{◌≡◌};
ghost use Rattle.wm_audit_program.specs.Statuses.{code_of, text_of};

/// How a check of an audit ended.
#[derive(Clone, Copy, Debug, PartialEq, Eq)]
pub enum CheckStatus {
    /// The bytes are the audit of a run.
    Sound,
    /// The line of this number, counted from 1, is the first that isn't right, or that is missing.
    WrongLine { line: u64 },
    /// Every line is right, and the text differs first at this byte, counted from 0.
    WrongText { at: u64 },
    /// There are further words.
    Usage,
    /// The source failed.
    SourceFault,
    /// There are more than 67,108,864 bytes.
    TooLong,
    /// The sink failed.
    SinkFault,
    /// Memory was refused.
    Memory,
}

impl CheckStatus {
    /// The exit status of the program.
    pub fn code(&self) -> u8
        ensures { result ≡ code_of self.now }
    {
        match self {
            CheckStatus::Sound => 0,
            CheckStatus::WrongLine { .. } | CheckStatus::WrongText { .. } => 1,
            CheckStatus::Usage => 2,
            CheckStatus::SourceFault => 3,
            CheckStatus::SinkFault => 4,
            CheckStatus::TooLong => 7,
            CheckStatus::Memory => 8,
        }
    }

    /// What the program writes on standard error, without the line's end. It is empty for a verdict.
    pub fn text(&self) -> &'static str
        ensures { result.now ≡ text_of self.now }
    {
        match self {
            CheckStatus::Sound | CheckStatus::WrongLine { .. } | CheckStatus::WrongText { .. } =>
                "",
            CheckStatus::Usage => "usage: work --store NAME [--workers N] [--generate SEED]",
            CheckStatus::SourceFault => "read failed",
            CheckStatus::SinkFault => "write failed",
            CheckStatus::TooLong => "audit too long",
            CheckStatus::Memory => "out of memory",
        }
    }
}
