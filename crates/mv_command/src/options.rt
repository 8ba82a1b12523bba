//! The table of commands: each command once with its operands and its options, and the values that these may have.

use Kind::{Flag, Needed, Operand, Optional, Valued};

/// What may stand behind the name of a command.
#[derive(Clone, Copy)]
pub enum Kind {
    /// A word by itself, which must stand there.
    Operand,
    /// A word by itself, which may be left out.
    Optional,
    /// An option with a value, as `--NAME VALUE` or `--NAME=VALUE`, which must stand there, once.
    Needed,
    /// An option with a value, as `--NAME VALUE` or `--NAME=VALUE`, once or not at all.
    Valued,
    /// An option without a value, as `--NAME`, once or not at all.
    Flag,
}

/// An operand or an option of a command.
#[derive(Clone, Copy)]
pub struct Argument {
    /// How it stands among the words.
    pub kind: Kind,
    /// Its name, which of an option stands behind `--`.
    pub name: &'static str,
    /// What is written in place of its value where commands are told of.
    pub value: &'static str,
    /// What it is for.
    pub about: &'static str,
}

/// A command, with what may stand behind its name.
#[derive(Clone, Copy)]
pub struct Form {
    /// Its name.
    pub name: &'static str,
    /// What it does.
    pub does: &'static str,
    /// The operands in this order, the options anywhere.
    pub arguments: &'static [Argument],
}

/// The name of the program.
pub const PROGRAM: &str = "multiverse";

/// The version of the program.
pub const VERSION: &str = "1.0";

/// Each command once.
pub const COMMANDS: [Form; 14] = [
    Form {
        name: RUN,
        does: "compiles FILE and runs it",
        arguments: &[
            SOURCE_FILE,
            RUN_STEPS,
            RUN_AT,
            RUN_ORACLE,
            RUN_BINDINGS,
            RUN_WORDS,
            RUN_LOG,
            RUN_STATS,
        ],
    },
    Form {
        name: BUILD,
        does: "compiles FILE and saves its image as IMAGE",
        arguments: &[SOURCE_FILE, IMAGE_FILE],
    },
    Form {
        name: EXEC,
        does: "runs IMAGE",
        arguments: &[
            IMAGE_FILE,
            RUN_STEPS,
            RUN_AT,
            RUN_ORACLE,
            RUN_BINDINGS,
            RUN_WORDS,
            RUN_LOG,
            RUN_STATS,
        ],
    },
    Form {
        name: LIST,
        does: "writes what stands in IMAGE",
        arguments: &[
            IMAGE_FILE,
            Argument {
                kind: Flag,
                name: WORDS,
                value: "",
                about: "writes in place of that the words that commits change, as instructions",
            },
        ],
    },
    Form {
        name: EVAL,
        does: "evaluates what FILE means at the bound K",
        arguments: &[
            SOURCE_FILE,
            Argument {
                kind: Needed,
                name: BOUND,
                value: "K",
                about: "0 to 4294967295, for calls within calls and turns of loops",
            },
        ],
    },
    Form {
        name: GEN,
        does: "makes the program of NUMBER and runs it",
        arguments: &[
            Argument {
                kind: Operand,
                name: NUMBER,
                value: "NUMBER",
                about: "0 to 4294967295",
            },
            Argument {
                kind: Flag,
                name: SOURCE,
                value: "",
                about: "writes its text in place of its run",
            },
        ],
    },
    Form {
        name: UPGRADE,
        does: "saves IMAGE in version 2 as OUT",
        arguments: &[IMAGE_FILE, MADE_FILE],
    },
    Form {
        name: ASM,
        does: "assembles FILE and saves its image as IMAGE",
        arguments: &[ASSEMBLER_FILE, MADE_IMAGE],
    },
    Form {
        name: DISASM,
        does: "writes the code of IMAGE as assembler text",
        arguments: &[IMAGE_FILE],
    },
    Form {
        name: ELF,
        does: "saves IMAGE as an ELF file OUT",
        arguments: &[IMAGE_FILE, MADE_FILE],
    },
    Form {
        name: UNELF,
        does: "saves the image that the ELF file FILE holds as OUT",
        arguments: &[ELF_FILE, MADE_FILE],
    },
    Form {
        name: CHECK,
        does: "compiles FILE and tells whether IMAGE is its image",
        arguments: &[SOURCE_FILE, IMAGE_FILE],
    },
    Form {
        name: HELP,
        does: "tells of the commands, or of COMMAND",
        arguments: &[Argument {
            kind: Optional,
            name: COMMAND,
            value: "COMMAND",
            about: "the name of a command",
        }],
    },
    Form {
        name: VERSIONS,
        does: "tells the version",
        arguments: &[],
    },
];

// ---- the arguments of several commands

const SOURCE_FILE: Argument = Argument {
    kind: Operand,
    name: FILE,
    value: "FILE",
    about: "a file with a C program",
};

const IMAGE_FILE: Argument = Argument {
    kind: Operand,
    name: IMAGE,
    value: "IMAGE",
    about: "a file with an image",
};

const ASSEMBLER_FILE: Argument = Argument {
    kind: Operand,
    name: FILE,
    value: "FILE",
    about: "a file with assembler text",
};

const ELF_FILE: Argument = Argument {
    kind: Operand,
    name: FILE,
    value: "FILE",
    about: "an ELF file",
};

const MADE_IMAGE: Argument = Argument {
    kind: Operand,
    name: IMAGE,
    value: "IMAGE",
    about: "the file that is made",
};

const MADE_FILE: Argument = Argument {
    kind: Operand,
    name: OUT,
    value: "OUT",
    about: "the file that is made",
};

const RUN_STEPS: Argument = Argument {
    kind: Valued,
    name: STEPS,
    value: "N",
    about: "at most N instructions, 1 to 1000000000000; without it 1000000000",
};

const RUN_AT: Argument = Argument {
    kind: Valued,
    name: AT,
    value: "LIST",
    about: "what the operator does: items POLL:SWITCH=VALUE, with commas between",
};

const RUN_ORACLE: Argument = Argument {
    kind: Valued,
    name: ORACLE,
    value: "WAY",
    about: "which of its words a fetch gives: fresh, oldest, or numbers with commas between; without it oldest",
};

const RUN_BINDINGS: Argument = Argument {
    kind: Flag,
    name: BINDINGS,
    value: "",
    about: "notes for each attributed function and pointer switch what it is bound to at the end",
};

const RUN_WORDS: Argument = Argument {
    kind: Flag,
    name: WORDS,
    value: "",
    about: "notes each word of text that is another at the end than at the start",
};

const RUN_LOG: Argument = Argument {
    kind: Flag,
    name: LOG,
    value: "",
    about: "notes each change of what an attributed function or pointer switch is bound to",
};

const RUN_STATS: Argument = Argument {
    kind: Flag,
    name: STATS,
    value: "",
    about: "notes how many instructions were executed",
};

/// Compiles a file and runs it.
pub const RUN: &str = "run";

/// Compiles a file and saves the image.
pub const BUILD: &str = "build";

/// Runs an image.
pub const EXEC: &str = "exec";

/// Shows what stands in an image.
pub const LIST: &str = "list";

/// Evaluates what a file means. Its bound must be given.
pub const EVAL: &str = "eval";

/// Makes a program, and runs it or shows it.
pub const GEN: &str = "gen";

/// Saves an image in version 2.
pub const UPGRADE: &str = "upgrade";

/// Assembles a file and saves its image.
pub const ASM: &str = "asm";

/// Shows the code of an image as assembler text.
pub const DISASM: &str = "disasm";

/// Saves an image as an ELF file.
pub const ELF: &str = "elf";

/// Saves the image that an ELF file holds.
pub const UNELF: &str = "unelf";

/// Compares an image with that of a file.
pub const CHECK: &str = "check";

/// Tells of the commands.
pub const HELP: &str = "help";

/// Tells the version.
pub const VERSIONS: &str = "version";

/// The name of a command that is told of.
pub const COMMAND: &str = "command";

/// The name of a file with a text or in another format: with C, assembler text or ELF.
pub const FILE: &str = "file";

/// The name of a file with an image.
pub const IMAGE: &str = "image";

/// The name of a file that is made.
pub const OUT: &str = "out";

/// Which program is made: a number up to `MOST_NUMBER`.
pub const NUMBER: &str = "number";

/// The greatest number of a program.
pub const MOST_NUMBER: u64 = 4_294_967_295;

/// The greatest number of instructions that a run executes: a number from 1 to `MOST_STEPS`.
pub const STEPS: &str = "steps";

/// The step limit where none is given.
pub const DEFAULT_STEPS: u64 = 1_000_000_000;

/// The greatest step limit.
pub const MOST_STEPS: u64 = 1_000_000_000_000;

/// What the operator does at which poll: a list of items.
pub const AT: &str = "at";

/// The greatest number of a poll in a list.
pub const MOST_POLL: u64 = 65_535;

/// The greatest value in a list, that of an `unsigned int`.
pub const MOST_VALUE: u64 = 4_294_967_295;

/// How far below 0 a value in a list may be, as far as an `int`.
pub const LEAST_VALUE: u64 = 2_147_483_648;

/// By which oracle fetches are picked: `FRESH`, `OLDEST`, which it is where none is given, or a list of numbers.
pub const ORACLE: &str = "oracle";

/// The oracle that always picks the present word.
pub const FRESH: &str = "fresh";

/// The oracle that always picks the oldest word.
pub const OLDEST: &str = "oldest";

/// The greatest number of an oracle.
pub const MOST_PICK: u64 = 4_294_967_295;

/// Asks for a line for each attributed function and pointer switch with its binding.
pub const BINDINGS: &str = "bindings";

/// Asks for a line for each word of text that isn't as it was built, or of `list` for the words that commits change.
pub const WORDS: &str = "words";

/// Asks for a line for each changed binding.
pub const LOG: &str = "log";

/// Asks for a line with the number of instructions.
pub const STATS: &str = "stats";

/// The bound of an evaluation: a number up to `MOST_BOUND`.
pub const BOUND: &str = "bound";

/// The greatest bound.
pub const MOST_BOUND: u64 = 4_294_967_295;

/// Asks for the text of the program in place of its run.
pub const SOURCE: &str = "source";
