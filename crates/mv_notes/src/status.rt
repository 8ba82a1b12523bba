//! How a command ended.

ghost use Rattle.std.specs.Prelude.{◌≡◌, Some};
ghost use Rattle.mv_notes.specs.Lines.{cause_name, is_silent, number_of, status_text};

use mv_front::Refusal;
use mv_isa::Cause;
use std::fmt;

/// How a command ended.
#[derive(Clone, Copy, Debug, PartialEq, Eq)]
pub enum Status {
    /// The program ended with this exit status.
    Ended(u8),
    /// The program trapped with this code.
    Trapped(u8),
    /// The words are no command.
    Usage,
    /// The text is refused.
    Refused(Refusal),
    /// Memory was refused.
    Memory,
    /// A read of the input failed.
    InputFault,
    /// A write to the output or to the notes failed.
    OutputFault,
    /// The shelf failed, or has no such file.
    ShelfFault,
    /// The step limit was reached, or the bound of an evaluation, and the program goes on.
    Steps,
    /// The bytes are no image: 10 where a place is missing, 11 where a field breaks a rule, 12 where a byte follows the end, with the offset of that place.
    BadImage(u8, u64),
    /// The instruction at this address faults. What `run` builds never does where the input tells its bytes.
    MachineFault(u32, Cause),
    /// A command that runs no program was carried out.
    Done,
    /// The assembler text is refused: 17 where this line is none of assembler text, 18 where a number in it is outside its range, 19 where a label in it can't
    /// be used.
    BadLine(u8, u32),
    /// The image isn't that of the source: this is the first offset at which the files of the two differ.
    Differs(u64),
}

// The word for a cause in the last line.
fn cause_name(cause: Cause) -> &'static str
    ensures { result.now ≡ cause_name cause }
{
    match cause {
        Cause::Fetch => "fetch",
        Cause::Undefined => "undefined",
        Cause::Jump => "jump",
        Cause::Load => "load",
        Cause::Store => "store",
        Cause::Break => "break",
        Cause::Call => "call",
    }
}

impl Status {
    /// The status of the process, which tells the kind of the end alone: 0 for a program that ended, whatever its own status is, and for `Done`.
    pub fn number(&self) -> u8
        ensures { result ≡ number_of self.now }
    {
        match self {
            Status::Ended(_) => 0,
            Status::Trapped(_) => 1,
            Status::Usage => 2,
            Status::Refused(_) => 3,
            Status::Memory => 4,
            Status::InputFault => 5,
            Status::OutputFault => 6,
            Status::ShelfFault => 7,
            Status::Steps => 8,
            Status::BadImage(_, _) => 9,
            Status::MachineFault(_, _) => 10,
            Status::Done => 0,
            Status::BadLine(_, _) => 3,
            Status::Differs(_) => 11,
        }
    }

    /// Whether nothing is written to the notes with this status.
    pub(crate) fn is_silent(&self) -> bool
        ensures { result ≡ is_silent self.now }
    {
        matches!(self, Status::Memory | Status::OutputFault)
    }
}

impl fmt::Display for Status {
    ghost output = { λ status. Some (status_text status) };

    fn fmt<W: fmt::Write>(&self, f: &mut fmt::Formatter<W>) -> fmt::Result {
        match self {
            Status::Ended(status) => write!(f, "ended {status}"),
            Status::Trapped(code) => write!(f, "trapped {code}"),
            Status::Usage => write!(f, "usage"),
            Status::Refused(refusal) => write!(f, "{refusal}"),
            Status::Memory => write!(f, "out of memory"),
            Status::InputFault => write!(f, "input fault"),
            Status::OutputFault => write!(f, "output fault"),
            Status::ShelfFault => write!(f, "shelf fault"),
            Status::Steps => write!(f, "steps"),
            Status::BadImage(code, offset) => write!(f, "bad image {code} {offset}"),
            Status::MachineFault(address, cause) => write!(
                f,
                "machine fault 0x{address:08x} {}",
                cause_name(*cause)
            ),
            Status::Done => write!(f, "done"),
            Status::BadLine(code, line) => write!(f, "refused {code} {line}:1"),
            Status::Differs(offset) => write!(f, "differs {offset}"),
        }
    }
}
