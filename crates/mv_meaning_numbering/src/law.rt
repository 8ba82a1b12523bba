// The laws: the numbers of functions don't show, and pointer switches keep their types.

ghost use Rattle.mv_meaning_numbering.specs.Laws.{NumbersDoNotShow, AnyNumberingServes, StraysDoNotShow, OwnNumberingIsOne, PointersAreLoggedTyped};

/// The numbers that stand for functions in function pointers don't show in what a program means. The call does nothing: its
/// contract is the law.
///
/// `two`: a well-typed program has the same output, bytes taken, end, bindings, log and work under any two numberings, on each
/// input, with each list of actions that fit the program, and at each bound. `any`: under any numbering it means what
/// it means, `strays`: whatever a call through a pointer would do that reached no function of the pointer's type. `own`: what any program means is its meaning under its own numbering, in which a function has one more than its index.
/// Actions that don't fit could write over a function pointer.
pub fn numbering_law()
    ensures two { NumbersDoNotShow }
    ensures any { AnyNumberingServes }
    ensures strays { StraysDoNotShow }
    ensures own { OwnNumberingIsOne }
{}

/// All that a well-typed program logs of a pointer switch frees it or binds it to a function of its type: in each hart, on each input, with each list of actions
/// that fit the program, and at each bound. The call does nothing: its contract is the law.
pub fn pointer_types_law()
    ensures { PointersAreLoggedTyped }
{}
