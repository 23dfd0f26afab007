//! The commands and the words that each one takes. What `clap` takes apart, what the commands read, and the lines of `turn help` come
//! out of this table.

/// What kind of value a word has, which says how it is read and shown.
#[derive(Clone, Copy)]
pub enum Kind {
    /// The path of a file.
    File,
    /// A store: the path of a file, or the URI of an export.
    Store,
    /// A number of 32 bits.
    Size,
    /// A number of 64 bits.
    Number,
    /// A number from 1 to 64.
    Burst,
    /// A moment.
    Moment,
    /// An IPv4 address.
    Ip,
    /// An IPv4 address and a port.
    Endpoint,
    /// An IPv4 address and a port other than 0.
    Listen,
    /// A name.
    Name,
    /// A name that a line can show.
    ShownName,
    /// A password.
    Password,
    /// Bytes as pairs of hex digits.
    Hex,
    /// The name of a command.
    Command,
}

/// A word of a command.
pub enum Word {
    /// A word without a value, as `--name`.
    Flag(&'static str),
    /// A word with a value, as `--name VALUE`.
    Named(&'static str, Kind),
    /// A word that is a value.
    Value(Kind),
}

/// A part of what a command takes: words with how often they stand, and what they go with.
pub enum Part {
    /// A word that has to stand.
    Required(Word),
    /// A word that may stand.
    Optional(Word),
    /// A word that may stand several times.
    Many(Word),
    /// Either the one word or the other.
    Either(Word, Word),
    /// The first word with one of the next two, or the last one, or none.
    WithEither(Word, Word, Word, Word),
}

/// Which command a line calls.
pub enum Subcommand {
    /// `turn format`
    Format,
    /// `turn serve`
    Serve,
    /// `turn check`
    Check,
    /// `turn inspect`
    Inspect,
    /// `turn status`
    Status,
    /// `turn end`
    End,
    /// `turn probe`
    Probe,
    /// `turn credential`
    Credential,
    /// `turn demo`
    Demo,
    /// `turn version`
    Version,
    /// `turn help`
    Help,
    /// `turn answer`
    Answer,
    /// `turn replay`
    Replay,
}

/// How a command is called.
pub struct Synopsis {
    /// The command's name.
    pub name: &'static str,
    /// The command.
    pub subcommand: Subcommand,
    /// What it takes after its name.
    pub parts: &'static [Part],
}

/// The commands, in the order of the manual page.
pub static SYNOPSES: [Synopsis; 13] = [
    Synopsis {
        name: "format",
        subcommand: Subcommand::Format,
        parts: &[
            Part::Required(Word::Named("config", Kind::File)),
            Part::Required(Word::Named("store", Kind::Store)),
            Part::Required(Word::Named("area", Kind::Size)),
            Part::Optional(Word::Flag("log")),
        ],
    },
    Synopsis {
        name: "serve",
        subcommand: Subcommand::Serve,
        parts: &[
            Part::Required(Word::Named("config", Kind::File)),
            Part::Required(Word::Named("store", Kind::Store)),
            Part::Optional(Word::Named("turns", Kind::Number)),
            Part::Optional(Word::Named("burst", Kind::Burst)),
            Part::Optional(Word::Named("relay-bind", Kind::Ip)),
            Part::Many(Word::Named("listen", Kind::Listen)),
            Part::Optional(Word::Flag("held")),
            Part::Optional(Word::Flag("log")),
        ],
    },
    Synopsis {
        name: "check",
        subcommand: Subcommand::Check,
        parts: &[
            Part::Required(Word::Named("config", Kind::File)),
            Part::Optional(Word::Named("store", Kind::Store)),
            Part::Many(Word::Named("listen", Kind::Listen)),
            Part::Optional(Word::Flag("log")),
        ],
    },
    Synopsis {
        name: "inspect",
        subcommand: Subcommand::Inspect,
        parts: &[
            Part::Required(Word::Named("store", Kind::Store)),
            Part::Optional(Word::Named("at", Kind::Moment)),
            Part::Optional(Word::Flag("log")),
        ],
    },
    Synopsis {
        name: "status",
        subcommand: Subcommand::Status,
        parts: &[
            Part::Required(Word::Named("config", Kind::File)),
            Part::Required(Word::Named("store", Kind::Store)),
            Part::Optional(Word::Flag("log")),
        ],
    },
    Synopsis {
        name: "end",
        subcommand: Subcommand::End,
        parts: &[
            Part::Required(Word::Named("config", Kind::File)),
            Part::Required(Word::Named("store", Kind::Store)),
            Part::Either(
                Word::Named("user", Kind::Name),
                Word::Named("client", Kind::Endpoint),
            ),
            Part::Optional(Word::Flag("log")),
        ],
    },
    Synopsis {
        name: "probe",
        subcommand: Subcommand::Probe,
        parts: &[
            Part::WithEither(
                Word::Named("user", Kind::Name),
                Word::Named("password", Kind::Password),
                Word::Named("password-file", Kind::File),
                Word::Named("config", Kind::File),
            ),
            Part::Optional(Word::Flag("binding")),
            Part::Optional(Word::Flag("log")),
            Part::Optional(Word::Value(Kind::Endpoint)),
        ],
    },
    Synopsis {
        name: "credential",
        subcommand: Subcommand::Credential,
        parts: &[
            Part::Required(Word::Named("config", Kind::File)),
            Part::Optional(Word::Named("name", Kind::ShownName)),
            Part::Required(Word::Named("at", Kind::Moment)),
            Part::Required(Word::Named("life", Kind::Number)),
            Part::Optional(Word::Flag("log")),
        ],
    },
    Synopsis {
        name: "demo",
        subcommand: Subcommand::Demo,
        parts: &[],
    },
    Synopsis {
        name: "version",
        subcommand: Subcommand::Version,
        parts: &[],
    },
    Synopsis {
        name: "help",
        subcommand: Subcommand::Help,
        parts: &[Part::Optional(Word::Value(Kind::Command))],
    },
    Synopsis {
        name: "answer",
        subcommand: Subcommand::Answer,
        parts: &[
            Part::Required(Word::Named("from", Kind::Endpoint)),
            Part::Optional(Word::Named("at", Kind::Moment)),
            Part::Required(Word::Value(Kind::Hex)),
        ],
    },
    Synopsis {
        name: "replay",
        subcommand: Subcommand::Replay,
        parts: &[
            Part::Required(Word::Value(Kind::File)),
            Part::Optional(Word::Flag("log")),
        ],
    },
];
