ghost use Rattle.std.specs.Prelude.{◌≡◌, ◌+◌, ◌<◌, ◌≤◌, [], ◌∷◌, ◌++◌, length, map, IfOk, OnOk};
ghost use Rattle.mv_linker.specs.Linked.{codes, function_variants, variant_codes, own, relabelled, trap_label, start_lines, trap_lines, commit_lines, unless_lines, check_lines, stub_lines, function_part, label_count, AreParts, IsJoined};
ghost use Rattle.mv_linker.specs.Joining.{with_code, with_codes};

use crate::parts::{PartFunction, PartVariant, Parts};
use mv_bindings::traps::{CALL_TOO_DEEP, DEPTH_LIMIT, NULL_CALL};
use mv_isa::Instr;
use mv_isa::labelled::{Labelled, Line};
use mv_isa::labels::{CHECK, COMMIT, ENTRIES, TRAPS};
use mv_isa::requests::{EXIT, TRAP};
use mv_num::list::List;
use mv_num::regions::{GP_VALUE, PLAN_UPPER, TP_VALUE};
use std::alloc::{AllocError, Global};

const RA: u8 = 1;

const SP: u8 = 2;

const GP: u8 = 3;

const TP: u8 = 4;

const A0: u8 = 10;

const A7: u8 = 17;
/// s11 has how many calls are left.
const LEFT: u8 = 27;
/// t0 and t1: the pointer that a call goes through, and the way back from its test.
const POINTER: u8 = 5;

const BACK: u8 = 6;
/// t0, t1, t2 and t3: where in the plan the stub of commits is, how many pairs are left, and the address and the word of one.
const AT: u8 = 5;

const PAIRS: u8 = 6;

const ADDRESS: u8 = 7;

const WORD: u8 = 28;

/// The code of all parts.
#[derive(Drop)]
pub struct Joined {
    /// Its `labels` is more than the label of each entry and each own label. Those of the stubs are above it, the last of them
    /// the greatest number there is.
    pub code: Labelled,
    /// At which item each code begins.
    pub entries: List<usize>,
}

/// The stubs, and behind them in order the functions and the variants.
pub fn join_parts(alloc: Global, parts: &Parts) -> Result<Joined, AllocError>
    requires { AreParts parts.now }
    ensures { IfOk result (IsJoined parts.now) }
{
    let mut items = List::new(alloc);
    push_stubs(&mut items, parts.main, parts.pointers.len() > 0)?;
    let mut joined = Joined {
        code: Labelled {
            items,
            labels: code_count(parts),
        },
        entries: List::new(alloc),
    };
    push_functions(&mut joined, parts.functions.as_slice())?;
    push_all_variants(&mut joined, parts.attributed.as_slice())?;
    Ok(joined)
}

/// How many codes parts have.
fn code_count(parts: &Parts) -> u32
    requires { length (codes parts.now) < trap_label 1 }
    ensures { result ≡ length (codes parts.now) }
{
    let mut count = parts.functions.len() as u32;
    for function in parts.attributed.as_slice() {
        count += function.variants.len() as u32;
    }
    count
}

fn push_functions(joined: &mut Joined, functions: &[Labelled]) -> Result<(), AllocError>
    requires entries { length joined.old.entries + length functions.now < trap_label 1 }
    requires labels { joined.old.code.labels + label_count functions.now < trap_label 1 }
    ensures { OnOk result (joined.new ≡ with_codes joined.old functions.now) }
{
    for code in functions {
        push_code(joined, code)?;
    }
    Ok(())
}

fn push_all_variants(joined: &mut Joined, attributed: &[PartFunction]) -> Result<(), AllocError>
    requires entries { length joined.old.entries + length (variant_codes (function_variants attributed.now)) < trap_label 1 }
    requires labels { joined.old.code.labels + label_count (variant_codes (function_variants attributed.now)) < trap_label 1 }
    ensures { OnOk result (joined.new ≡ with_codes joined.old (variant_codes (function_variants attributed.now))) }
{
    for function in attributed {
        push_variants(joined, function.variants.as_slice())?;
    }
    Ok(())
}

fn push_variants(joined: &mut Joined, variants: &[PartVariant]) -> Result<(), AllocError>
    requires entries { length joined.old.entries + length (variant_codes variants.now) < trap_label 1 }
    requires labels { joined.old.code.labels + label_count (variant_codes variants.now) < trap_label 1 }
    ensures { OnOk result (joined.new ≡ with_codes joined.old (variant_codes variants.now)) }
{
    for variant in variants {
        push_code(joined, &variant.code)?;
    }
    Ok(())
}

/// The next code, whose number is that of the codes before it.
fn push_code(joined: &mut Joined, code: &Labelled) -> Result<(), AllocError>
    requires entries { length joined.old.entries < trap_label 1 }
    requires labels { joined.old.code.labels + code.now.labels < trap_label 1 }
    ensures { OnOk result (joined.new ≡ with_code joined.old code.now) }
{
    let number = joined.entries.len() as u32;
    joined.entries.push(joined.code.items.len())?;
    push_function(&mut joined.code.items, number, joined.code.labels, code)?;
    joined.code.labels += code.labels;
    Ok(())
}

fn push_stubs(items: &mut List<Line>, main: u32, checks: bool) -> Result<(), AllocError>
    ensures { OnOk result (items.new ≡ items.old ++ stub_lines main checks) }
{
    push_start(items, main)?;
    push_trap(items, 1)?;
    push_trap(items, 2)?;
    push_trap(items, 3)?;
    push_trap(items, 4)?;
    push_commit(items)?;
    if checks {
        push_check(items)?;
    }
    Ok(())
}

/// The stub at which a run begins: the stack is empty, gp and tp have what loads and stores go by, and all calls are left. s10,
/// which counts live attributed functions, is 0 already.
fn push_start(items: &mut List<Line>, main: u32) -> Result<(), AllocError>
    ensures { OnOk result (items.new ≡ items.old ++ start_lines main) }
{
    push_instrs(items, &START_STUB)?;
    items.push(Line::Jump(RA, main))?;
    push_number(items, A7, EXIT as i32)?;
    items.push(Line::Word(Instr::Ecall))?;
    Ok(())
}

/// What LUI puts into gp and tp, so that what ADDI adds, with its sign, gives their values.
const GP_UPPER: i32 = ((GP_VALUE + 2048) / 4096) as i32;

const TP_UPPER: i32 = ((TP_VALUE + 2048) / 4096) as i32;

/// What stands before the call of main.
const START_STUB: [Instr; 6] = [
    Instr::Lui {
        rd: SP,
        imm: PLAN_UPPER,
    },
    Instr::Lui {
        rd: GP,
        imm: GP_UPPER,
    },
    Instr::Addi {
        rd: GP,
        rs1: GP,
        imm: GP_VALUE as i32 - 4096 * GP_UPPER,
    },
    Instr::Lui {
        rd: TP,
        imm: TP_UPPER,
    },
    Instr::Addi {
        rd: TP,
        rs1: TP,
        imm: TP_VALUE as i32 - 4096 * TP_UPPER,
    },
    Instr::Addi {
        rd: LEFT,
        rs1: 0,
        imm: DEPTH_LIMIT as i32,
    },
];

/// The stub that ends a run by a trap.
fn push_trap(items: &mut List<Line>, code: u32) -> Result<(), AllocError>
    requires { code ≤ 4 }
    ensures { OnOk result (items.new ≡ items.old ++ trap_lines code) }
{
    items.push(Line::Label(TRAPS + code))?;
    push_number(items, A0, code as i32)?;
    push_number(items, A7, TRAP as i32)?;
    items.push(Line::Word(Instr::Ecall))?;
    Ok(())
}

/// The stub of commits: who calls it has the number of the environment call in a7, which writes its plan to the area of plans: the number
/// of pairs, and the address and word of each. FENCE.I stands behind the stores because only then fetches see what they put into
/// text (RISC-V unprivileged ISA, Zifencei).
fn push_commit(items: &mut List<Line>) -> Result<(), AllocError>
    ensures { OnOk result (items.new ≡ items.old ++ commit_lines) }
{
    items.push(Line::Label(COMMIT))?;
    push_instrs(items, &COMMIT_STUB)
}

/// The stub of calls through pointer switches: who calls it has the pointer in t0 and the way back in t1. Null is a trap, and so is
/// a call too many; else the call is counted. Behind the first two words a call that has its target by itself comes in.
fn push_check(items: &mut List<Line>) -> Result<(), AllocError>
    ensures { OnOk result (items.new ≡ items.old ++ check_lines) }
{
    items.push(Line::Label(CHECK))?;
    push_unless(items, POINTER, NULL_CALL)?;
    push_unless(items, LEFT, CALL_TOO_DEEP)?;
    items.push(Line::Word(Instr::Addi {
        rd: LEFT,
        rs1: LEFT,
        imm: -1,
    }))?;
    items.push(Line::Word(Instr::Jalr {
        rd: 0,
        rs1: BACK,
        imm: 0,
    }))?;
    Ok(())
}

/// A trap, unless a register holds another word than 0.
fn push_unless(items: &mut List<Line>, register: u8, code: u8) -> Result<(), AllocError>
    requires { code ≤ 4 }
    ensures { OnOk result (items.new ≡ items.old ++ unless_lines register code) }
{
    items.push(Line::Word(Instr::Bne {
        rs1: register,
        rs2: 0,
        imm: 8,
    }))?;
    items.push(Line::Jump(0, TRAPS + u32::from(code)))?;
    Ok(())
}

/// A loop over the pairs, with a branch past its end and a jump back to that.
const COMMIT_STUB: [Instr; 12] = [
    Instr::Ecall,
    Instr::Lui {
        rd: AT,
        imm: PLAN_UPPER,
    },
    Instr::Lw {
        rd: PAIRS,
        rs1: AT,
        imm: 0,
    },
    Instr::Beq {
        rs1: PAIRS,
        rs2: 0,
        imm: 28,
    },
    Instr::Lw {
        rd: ADDRESS,
        rs1: AT,
        imm: 4,
    },
    Instr::Lw {
        rd: WORD,
        rs1: AT,
        imm: 8,
    },
    Instr::Sw {
        rs1: ADDRESS,
        rs2: WORD,
        imm: 0,
    },
    Instr::Addi {
        rd: AT,
        rs1: AT,
        imm: 8,
    },
    Instr::Addi {
        rd: PAIRS,
        rs1: PAIRS,
        imm: -1,
    },
    Instr::Jal { rd: 0, imm: -24 },
    Instr::FenceI,
    Instr::Jalr {
        rd: 0,
        rs1: RA,
        imm: 0,
    },
];

fn push_instrs(items: &mut List<Line>, instrs: &[Instr]) -> Result<(), AllocError>
    ensures { OnOk result (items.new ≡ items.old ++ map (λ i. Line.Word i) instrs.now) }
{
    for instr in instrs {
        items.push(Line::Word(*instr))?;
    }
    Ok(())
}

/// A number into a register.
fn push_number(items: &mut List<Line>, rd: u8, imm: i32) -> Result<(), AllocError>
    ensures { OnOk result (items.new ≡ items.old ++ Line.Word (Instr.Addi rd 0 imm) ∷ []) }
{
    items.push(Line::Word(Instr::Addi { rd, rs1: 0, imm }))?;
    Ok(())
}

/// The code of a function behind the label of its entry, with its own labels counted from a first one on.
fn push_function(
    items: &mut List<Line>,
    number: u32,
    first: u32,
    code: &Labelled,
) -> Result<(), AllocError>
    requires { first + code.now.labels < 4294967296 }
    ensures { OnOk result (items.new ≡ items.old ++ function_part number first code.now) }
{
    items.push(Line::Label(number))?;
    for line in code.items.as_slice() {
        items.push(relabelled(first, code.labels, *line))?;
    }
    Ok(())
}

fn relabelled(first: u32, count: u32, line: Line) -> Line
    requires { first + count < 4294967296 }
    ensures { result ≡ relabelled first count line }
{
    match line {
        Line::Label(label) => Line::Label(own(first, count, label)),
        Line::Jump(rd, label) => Line::Jump(rd, own(first, count, label)),
        Line::Branch(funct3, rs1, rs2, label) => {
            Line::Branch(funct3, rs1, rs2, own(first, count, label))
        }
        Line::Word(_) | Line::Entry(_, _) | Line::Slot(_) | Line::Point(_) => line,
    }
}

/// What a label of a function becomes: an own one is counted from a first one on, and the entry of a function becomes its number.
fn own(first: u32, count: u32, label: u32) -> u32
    requires { first + count < 4294967296 }
    ensures { result ≡ own first count label }
{
    if label < count {
        first + label
    } else if label < ENTRIES || TRAPS <= label {
        label
    } else {
        label - ENTRIES
    }
}
