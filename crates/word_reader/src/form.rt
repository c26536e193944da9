//! The tables of commands and options.
ghost use Rattle.std.specs.Prelude.{◌≡◌, ◌<◌};
ghost use Rattle.word_reader.specs.Forms.{command_of, command_row, every_option, has, option_of, option_row, place, takes_value};
ghost use Rattle.word_reader.specs.Kept.{command_seen, option_count, option_seen};

use gr_base::MOST_WORKERS;

/// The most wire edges as which a via edge may count in a report.
pub const MOST_VIA_COST: u32 = 1_000;

/// The most steps by which a bound may be raised.
pub const MOST_STEPS: u32 = 10_000;

/// The most nets that a batch may have.
pub const MOST_BATCH: u32 = 65_536;

/// The commands.
#[derive(Clone, Copy)]
pub(crate) enum Command {
    Route,
    Evaluate,
    Buffer,
    Make,
    Trial,
    Panels,
    /// The one of grbound: no word names it.
    Bound,
}

/// What words a command takes.
#[derive(Clone, Copy)]
pub(crate) struct CommandRow {
    /// The command's own; empty where none names it.
    pub word: &'static str,
    /// How many words behind it aren't options.
    pub positionals: usize,
    pub options: &'static [OptionKind],
}

/// The options.
#[derive(Clone, Copy, PartialEq, Eq)]
pub(crate) enum OptionKind {
    Workers,
    ViaCost,
    Batch,
    Rule,
    Stop,
    From,
    Trace,
    Steps,
}

/// What words an option takes.
#[derive(Clone, Copy)]
pub(crate) struct OptionRow {
    /// The option's own.
    pub word: &'static str,
    pub takes: ValueForm,
    /// What is taken for its value where none is given, if anything is.
    pub default: Option<&'static str>,
    /// The option beside which it can't be given, if there is one.
    pub excludes: Option<OptionKind>,
}

/// What an option takes as its value.
#[derive(Clone, Copy)]
pub(crate) enum ValueForm {
    /// A number from `least` to `most`.
    Number {
        least: u64,
        most: u64,
    },
    /// One of the words.
    Word(&'static [&'static str]),
    /// One of the words, or a number from `least` to `most`.
    WordOrNumber {
        words: &'static [&'static str],
        least: u64,
        most: u64,
    },
    /// Any word, which is a name.
    Name,
    /// None: the option is given, or it isn't.
    Nothing,
}

/// The most positionals that a command has.
pub(crate) const MOST_POSITIONALS: usize = 6;

/// The commands that words name, each once.
const EVERY_COMMAND: [Command; 6] = [
    Command::Route,
    Command::Evaluate,
    Command::Buffer,
    Command::Make,
    Command::Trial,
    Command::Panels,
];

/// The options, each once, in the order in which they are declared.
pub(crate) const EVERY_OPTION: [OptionKind; 8] = [
    OptionKind::Workers,
    OptionKind::ViaCost,
    OptionKind::Batch,
    OptionKind::Rule,
    OptionKind::Stop,
    OptionKind::From,
    OptionKind::Trace,
    OptionKind::Steps,
];

/// How many options there are.
pub(crate) const OPTION_COUNT: usize = EVERY_OPTION.len();

/// The command that a word names.
pub(crate) fn command_of(word: &str) -> Option<Command>
    ensures { result ≡ command_of word.now }
{
    EVERY_COMMAND
        .iter()
        .copied()
        .find(|command| command.row().word == word)
}

/// The option that a word names.
pub(crate) fn option_of(word: &str) -> Option<OptionKind>
    ensures { result ≡ option_of word.now }
{
    EVERY_OPTION
        .iter()
        .copied()
        .find(|option| option.row().word == word)
}

impl Command {
    /// The command's row.
    pub(crate) fn row(self) -> CommandRow
        ensures { command_seen result ≡ command_row self }
    {
        match self {
            Command::Route => CommandRow {
                word: "route",
                positionals: 3,
                options: &[
                    OptionKind::Workers,
                    OptionKind::ViaCost,
                    OptionKind::Batch,
                    OptionKind::Rule,
                    OptionKind::Stop,
                    OptionKind::From,
                    OptionKind::Trace,
                ],
            },
            Command::Evaluate => CommandRow {
                word: "evaluate",
                positionals: 2,
                options: &[OptionKind::ViaCost],
            },
            Command::Buffer => CommandRow {
                word: "buffer",
                positionals: 3,
                options: &[],
            },
            Command::Make => CommandRow {
                word: "make",
                positionals: 5,
                options: &[],
            },
            Command::Trial => CommandRow {
                word: "trial",
                positionals: 6,
                options: &[OptionKind::Workers, OptionKind::Rule, OptionKind::Trace],
            },
            Command::Panels => CommandRow {
                word: "panels",
                positionals: 2,
                options: &[],
            },
            Command::Bound => CommandRow {
                word: "",
                positionals: 1,
                options: &[OptionKind::ViaCost, OptionKind::Steps, OptionKind::Workers],
            },
        }
    }

    /// Whether the command has the option.
    pub(crate) fn has(self, option: OptionKind) -> bool
        ensures { result ≡ has self option }
    {
        self.row().options.contains(&option)
    }
}

impl OptionKind {
    /// The option's row.
    pub(crate) fn row(self) -> OptionRow
        ensures { option_seen result ≡ option_row self }
    {
        match self {
            OptionKind::Workers => OptionRow {
                word: "--workers",
                takes: ValueForm::Number {
                    least: 1,
                    most: MOST_WORKERS as u64,
                },
                default: Some("1"),
                excludes: None,
            },
            OptionKind::ViaCost => OptionRow {
                word: "--via-cost",
                takes: ValueForm::Number {
                    least: 0,
                    most: MOST_VIA_COST as u64,
                },
                default: Some("1"),
                excludes: None,
            },
            OptionKind::Batch => OptionRow {
                word: "--batch",
                takes: ValueForm::Number {
                    least: 1,
                    most: MOST_BATCH as u64,
                },
                default: None,
                excludes: Some(OptionKind::Stop),
            },
            OptionKind::Rule => OptionRow {
                word: "--rule",
                takes: ValueForm::Word(&["first", "steep", "flat", "near"]),
                default: Some("first"),
                excludes: None,
            },
            OptionKind::Stop => OptionRow {
                word: "--stop",
                takes: ValueForm::WordOrNumber {
                    words: &["still"],
                    least: 0,
                    most: u64::MAX,
                },
                default: None,
                excludes: None,
            },
            OptionKind::From => OptionRow {
                word: "--from",
                takes: ValueForm::Name,
                default: None,
                excludes: None,
            },
            OptionKind::Trace => OptionRow {
                word: "--trace",
                takes: ValueForm::Nothing,
                default: None,
                excludes: None,
            },
            OptionKind::Steps => OptionRow {
                word: "--steps",
                takes: ValueForm::Number {
                    least: 0,
                    most: MOST_STEPS as u64,
                },
                default: Some("0"),
                excludes: None,
            },
        }
    }

    /// Whether the option takes a value.
    pub(crate) fn takes_value(self) -> bool
        ensures { result ≡ takes_value (option_row self).takes }
    {
        !matches!(self.row().takes, ValueForm::Nothing)
    }

    /// The place of the option among all.
    pub(crate) fn place(self) -> usize
        ensures place { result ≡ place self }
        ensures below { result < option_count }
    {
        self as usize
    }
}
