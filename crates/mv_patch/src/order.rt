ghost use Rattle.std.specs.Prelude.{◌≡◌, ◌≤◌, ◌<◌, ◌+◌, ◌^◌, length, take};
ghost use Rattle.mv_descriptors.specs.declared.rows.PointerRow.{PointerRow};
ghost use Rattle.mv_image.specs.Spelling.{Fields};
ghost use Rattle.mv_num.specs.Lists.{is_among};
ghost use Rattle.mv_bindings.specs.OrderNumbers.{is_commit};
ghost use Rattle.mv_patch.specs.Orders.{code_of, index_of, is_ordered, is_pointer_ordered};

use mv_descriptors::FunctionRow;

/// What a program asks for by a commit or a revert: of all attributed functions and pointer switches, of one of these functions by
/// its number, or of those that depend on a switch, by its number, behind which the pointer switches count on, each for itself.
#[derive(Clone, Copy, Debug, PartialEq, Eq)]
pub enum Order {
    CommitAll,
    RevertAll,
    CommitFunction(u32),
    RevertFunction(u32),
    CommitRefs(u32),
    RevertRefs(u32),
}

/// Whether a number is one of some.
fn is_among(number: u32, all: &[u32]) -> bool
    ensures { result ≡ is_among number all.now }
{
    for other in all {
        if number == *other {
            return true;
        }
    }
    false
}

impl Order {
    /// Whether it commits.
    pub fn is_commit(self) -> bool
        ensures { result ≡ is_commit (code_of self) }
    {
        match self {
            Order::CommitAll | Order::CommitFunction(_) | Order::CommitRefs(_) => true,
            Order::RevertAll | Order::RevertFunction(_) | Order::RevertRefs(_) => false,
        }
    }

    /// Whether it addresses a pointer switch, where there are so many switches.
    pub(crate) fn addresses_pointer(self, switches: usize, number: usize) -> bool
        requires { switches + number < 2 ^ 64 }
        ensures { (image : Fields) (row : PointerRow) → length image.switches ≡ switches → result ≡ is_pointer_ordered image (code_of self) (index_of self) number row }
    {
        match self {
            Order::CommitAll | Order::RevertAll => true,
            Order::CommitFunction(_) | Order::RevertFunction(_) => false,
            Order::CommitRefs(index) | Order::RevertRefs(index) => {
                switches + number == index as usize
            }
        }
    }

    /// Whether it addresses a function.
    pub(crate) fn addresses(self, number: usize, row: &FunctionRow) -> bool
        requires { row.now.count ≤ 6 }
        ensures { result ≡ is_ordered (code_of self) (index_of self) number row.now }
    {
        match self {
            Order::CommitAll | Order::RevertAll => true,
            Order::CommitFunction(function) | Order::RevertFunction(function) => {
                number == function as usize
            }
            Order::CommitRefs(switch) | Order::RevertRefs(switch) => {
                is_among(switch, &row.switches[..row.count as usize])
            }
        }
    }
}
